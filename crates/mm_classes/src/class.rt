//! What is declared of a class.

use crate::id::ClassId;
use mm_base::place::Place;
use mm_base::text::Text;
use sqlite_items::Items;

/// A type of the language.
#[derive(Clone, Copy, PartialEq, Eq, Debug)]
pub enum Ty {
    Void,
    Bool,
    Int,
    Unsigned,
    /// A pointer to objects of a class.
    Ptr(ClassId),
    /// A reference to an object of a class.
    Ref(ClassId),
}

/// Who may use a member or a base.
#[derive(Clone, Copy, PartialEq, Eq, Debug)]
pub enum Access {
    Public,
    Protected,
    Private,
}

/// A direct base, `shared` where it is listed as virtual.
#[derive(Clone, Copy, PartialEq, Eq, Debug)]
pub struct Base {
    pub class: ClassId,
    pub shared: bool,
    pub access: Access,
}

/// What a member is.
#[derive(Drop)]
pub enum MemberKind {
    Field(Ty),
    /// The types of the parameters, the type of the result, and whether it is declared virtual. A destructor is one
    /// of these.
    Function(Items<Ty>, Ty, bool),
}

/// A member that a class declares.
#[derive(Drop)]
pub struct Member {
    pub name: Text,
    pub access: Access,
    pub kind: MemberKind,
    pub place: Place,
}
