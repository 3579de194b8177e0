//! Answers that say which subobject fits: one, none or several.

use crate::id::NodeId;

/// The subobjects of a class that are of another class.
#[derive(Clone, Copy, PartialEq, Eq, Debug)]
pub enum Up {
    One(NodeId),
    None,
    Several,
}

/// The subobjects of a class that contain a subobject.
#[derive(Clone, Copy, PartialEq, Eq, Debug)]
pub enum Around {
    One(NodeId),
    None,
    Several,
}
