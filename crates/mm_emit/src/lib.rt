//! The C program of a checked program.
#![tactic(auto, using(mm_c::proofs::Views::code_rules))]

pub mod program;
