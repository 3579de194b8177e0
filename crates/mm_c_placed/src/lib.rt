//! C programs in which numbers stand for names, and what they mean.
#![tactic(auto)]

pub mod laws;
pub mod tree;
