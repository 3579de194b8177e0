//! Readers of statements and blocks.
#![tactic(auto)]

mod build;
pub mod stmt;
