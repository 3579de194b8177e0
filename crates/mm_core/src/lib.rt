//! Checked programs: their trees and what they mean. `specs/Lib.antt` lists the definitions in the order of reading.
#![tactic(auto)]

pub mod law;
pub mod part;
pub mod tree;
