//! Final overriders: which function a virtual call enters, in objects of each class.
#![tactic(auto)]

pub mod end;
pub mod finals;
pub mod make;
pub mod over;
pub mod results;
pub mod same;
#[cfg(test)]
mod tests;
