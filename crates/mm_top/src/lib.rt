//! The commands: what the words ask for is done, and the answer is its status.
#![tactic(auto)]

mod check;
pub mod law;
mod link;
mod message;
mod outcome;
mod running;
mod text;
mod top;
mod unit;

pub use top::mm_main;
