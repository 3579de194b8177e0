//! Functions checked: heads, and bodies behind them.
#![tactic(auto)]

pub mod function;
pub mod head;
pub mod known;
pub mod param;
