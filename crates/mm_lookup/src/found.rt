//! What lookup finds, and from where a member is used.

use mm_classes::id::{ClassId, NodeId};

/// What a name means in a class.
#[derive(Clone, Copy, PartialEq, Eq, Debug)]
pub enum Found {
    /// No subobject declares it.
    None,
    /// The field of this number that the class of the subobject declares.
    Field(NodeId, u32),
    /// The functions of the name that the class of the subobject declares.
    Functions(NodeId),
    Ambiguous,
}

/// From where a member is used: a member function of a class, or a place outside all classes.
#[derive(Clone, Copy, PartialEq, Eq, Debug)]
pub struct Context {
    pub class: Option<ClassId>,
}
