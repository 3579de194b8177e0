//! Lowering of expressions and statements as code: what it writes is the code that its definition in `mm_simulate` gives.
#![tactic(auto, using(mm_c::proofs::Views::code_rules))]

pub mod callee;
pub mod effect;
pub mod expr;
pub mod name;
pub mod node;
pub mod operator;
pub mod scope;
pub mod stmt;
pub mod types;
pub mod write;
