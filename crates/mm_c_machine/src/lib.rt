//! Runs C programs with places, on a stack of its own.
#![tactic(auto)]

pub mod frame;
pub mod machine;
pub mod prelude;
pub mod run;
mod walk;
