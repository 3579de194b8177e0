//! Readers of the items of a C text, and of whole programs.
#![tactic(auto)]

pub mod array;
pub mod item;
pub mod kind;
pub mod program;
