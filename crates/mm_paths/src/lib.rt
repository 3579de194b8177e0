//! The graph of all declared classes, with the subobjects of each.
#![tactic(auto)]

pub mod build;
pub mod entry;
pub mod find;
pub mod graph;
pub mod names;
pub mod reach;
#[cfg(test)]
mod tests;
