//! Readers of classes and their members.
#![tactic(auto)]

mod ahead;
mod base;
mod build;
pub mod class;
mod ending;
mod item;
mod member;
mod text;
