//! What an expression is typed as, and which is its first fault: definitions and their law.
#![tactic(auto)]

pub mod law;
pub mod typed;
