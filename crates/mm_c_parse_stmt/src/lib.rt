//! Readers of the statements of a C text, and the places where they begin.
#![tactic(auto)]

mod build;
pub mod local;
pub mod places;
pub mod simple;
pub mod stmt;
