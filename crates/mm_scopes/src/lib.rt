//! What names mean where an expression stands: the variables in scope and the functions that are declared.
#![tactic(auto)]

pub mod env;
pub(crate) mod functions;
pub mod head;
pub(crate) mod vars;
