//! Which program a C text spells, or where it is refused.
#![tactic(auto)]

pub mod list;
pub mod operand;
pub mod right;
pub mod step;
