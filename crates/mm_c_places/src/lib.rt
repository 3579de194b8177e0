//! That a C program does with numbers what it does with names.
#![tactic(auto)]

pub mod laws;
