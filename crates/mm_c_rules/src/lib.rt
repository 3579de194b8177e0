//! Whether a C program keeps the rules beside its grammar, and what breaks them first.
#![tactic(auto, using(crate::proofs::Rules::rule_rules))]

mod depth;
mod here;
mod items;
mod locals;
mod operands;
mod program;
mod right;
mod statements;

pub use program::{defines_main, first_break, well_formed};
