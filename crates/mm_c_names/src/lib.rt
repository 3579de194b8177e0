//! What the names of a C program are, by tables in memory.
#![tactic(auto)]

pub mod declared;
pub mod entry;
pub mod globals;
pub mod names;
pub mod scope;
