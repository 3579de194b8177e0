//! Whether a program defines what it calls, and `int main()`.
#![tactic(auto)]

pub mod callees;
pub mod entry;
pub mod lack;
