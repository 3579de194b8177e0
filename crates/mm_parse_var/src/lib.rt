//! Readers of types, of variables, and of the statements that are one expression or one declaration.
#![tactic(auto)]

mod build;
pub mod simple;
pub mod types;
pub mod vars;
