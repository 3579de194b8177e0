//! Puts places and numbers for the names of a C program.
#![tactic(auto)]

pub mod code;
pub mod locals;
pub mod names;
pub mod numbers;
pub mod program;
