//! Class lists: classes with their bases and members, their subobjects, composition and containment.
#![tactic(auto)]

pub mod answer;
pub mod class;
pub mod copies;
pub mod id;
