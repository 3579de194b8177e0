//! What is typed is valid.
#![tactic(auto)]

pub mod law;
