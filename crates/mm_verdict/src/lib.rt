//! What becomes of a unit: its first fault, or its checked program.
#![tactic(auto)]

pub mod fault;
pub mod forms;
pub mod law;
pub mod unit;
