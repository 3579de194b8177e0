//! How objects are laid out in bytes.
#![tactic(auto)]

pub mod cells;
pub mod few;
pub mod layout;
pub mod region;
pub mod sorts;
pub mod tags;
#[cfg(test)]
mod tests;
