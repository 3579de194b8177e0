//! The table of all declared classes: their names, bases and members.
#![tactic(auto)]

pub mod entry;
pub mod table;
