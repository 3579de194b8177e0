//! Statements checked: each is typed, or has its first fault.
#![tactic(auto)]

pub mod declare;
pub mod stmt;
pub mod types;
pub mod variables;
