//! Overload resolution: which of several functions a call takes.
#![tactic(auto)]

pub mod choice;
pub mod conv;
pub mod law;
pub mod ranks;
