//! The tokens of a C text, taken one by one from its bytes.
#![tactic(auto)]

pub mod class;
pub mod cursor;
pub mod number;
pub mod place;
mod scan;
