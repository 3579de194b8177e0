//! What is typed is small enough to be lowered.
#![tactic(auto)]

pub mod law;
