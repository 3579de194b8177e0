//! Readers of parameters, and of functions and constructors behind their types.
#![tactic(auto)]

mod build;
pub mod constructor;
pub mod function;
pub mod params;
