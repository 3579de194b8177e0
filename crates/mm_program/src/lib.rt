//! Checked units and merged programs, which keep what makes their meaning one.
#![tactic(auto)]

pub mod joined;
pub mod unit;
