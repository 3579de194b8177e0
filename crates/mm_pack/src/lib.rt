//! Tables that keep equal slices once.
#![tactic(auto)]

pub mod packing;
pub mod round;
pub mod table;
#[cfg(test)]
mod tests;
