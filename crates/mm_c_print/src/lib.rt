//! The C text of a program.
#![tactic(auto, using(crate::proofs::Texts::text_rules))]

mod items;
mod statements;
mod tokens;

pub use items::print;
