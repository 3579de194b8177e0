//! Member lookup and access: which member a name means in a class, and who may use it.
#![tactic(auto)]

pub mod find;
pub mod found;
pub mod law;
pub mod may;
#[cfg(test)]
mod tests;
pub(crate) mod uses;
