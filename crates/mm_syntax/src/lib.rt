//! The trees of units, and the grammar that says what they are the trees of.
#![tactic(auto)]

pub mod decl;
pub mod expr;
pub mod first;
pub mod form;
pub mod law;
pub mod name;
pub mod part;
pub mod stmt;
pub mod symbol;
pub mod taken;
pub mod walk;
