//! What words ask for, what a command comes to, and how that is written.
#![tactic(auto)]

pub mod lines;
pub mod words;
pub mod writing;
