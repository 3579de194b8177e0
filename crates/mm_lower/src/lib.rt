//! Lowering of functions as code: what it writes is the function that its definition in `mm_simulate` gives.
#![tactic(auto, using(mm_c::proofs::Views::code_rules))]

pub mod function;
pub mod head;
pub mod temporary;
