//! From the trees of units to what is checked.
#![tactic(auto)]

pub mod check;
