//! The memory of a C program that runs, and its operators.
#![tactic(auto)]

pub mod memory;
pub mod operate;
