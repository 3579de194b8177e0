//! The tokens of a unit and of the headers that it includes.
#![tactic(auto)]

pub mod law;
mod names;
mod piece;
pub mod read;
mod scan;
mod text;
pub mod token;
mod unit;
mod words;
