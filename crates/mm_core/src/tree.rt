// Expressions, statements and functions.

use crate::part::{Change, CoreParam, Operator, Target};
use mm_base::place::Place;
use mm_base::text::Text;
use mm_base::world::Builtin;
use mm_classes::class::Ty;
use mm_classes::id::{ClassId, NodeId};
use sqlite_items::{Boxed, Items};

/// A move to a base: the class of the pointer, and the subobject of that class.
#[derive(Clone, Copy, Debug, PartialEq, Eq)]
pub struct Move {
    pub class: ClassId,
    pub node: NodeId,
}

/// An expression. Functions, locals, fields and methods are cited by their numbers.
#[derive(Drop)]
pub enum CoreExpr {
    Int(i32),
    Unsigned(u32),
    Bool(bool),
    /// The null pointer to a class.
    Null(ClassId),
    Local(u32),
    SetLocal(u32, Boxed<CoreExpr>),
    Field(u32, Boxed<CoreExpr>),
    SetField(u32, Boxed<CoreExpr>, Boxed<CoreExpr>),
    /// The pointer, which must not be null.
    NotNull(Boxed<CoreExpr>),
    Move(Move, Boxed<CoreExpr>),
    Convert(Target, Boxed<CoreExpr>),
    Binary(Operator, Boxed<CoreExpr>, Boxed<CoreExpr>),
    Not(Boxed<CoreExpr>),
    And(Boxed<CoreExpr>, Boxed<CoreExpr>),
    Or(Boxed<CoreExpr>, Boxed<CoreExpr>),
    Choose(Boxed<CoreExpr>, Boxed<CoreExpr>, Boxed<CoreExpr>),
    /// A call of a function; of a member with the object first.
    Call(u32, Items<CoreExpr>),
    /// A call of a method by the class of the object.
    VirtualCall(u32, Boxed<CoreExpr>, Items<CoreExpr>),
    /// A call of an open-method.
    OpenCall(u32, Items<CoreExpr>),
    Builtin(Builtin, Items<CoreExpr>),
    New(ClassId),
    /// The old value of a local, which steps up or down.
    StepLocal(u32, Change),
    StepField(u32, Change, Boxed<CoreExpr>),
    /// An operator on the old value of a field of the first, and the second.
    Compound(Operator, u32, Boxed<CoreExpr>, Boxed<CoreExpr>),
}

/// A statement.
#[derive(Drop)]
pub enum CoreStmt {
    Block(Items<CoreStmt>),
    Do(CoreExpr),
    If(CoreExpr, Items<CoreStmt>, Items<CoreStmt>),
    While(CoreExpr, Items<CoreStmt>),
    DoWhile(Items<CoreStmt>, CoreExpr),
    /// The condition, the step and the body.
    For(CoreExpr, Boxed<CoreStmt>, Items<CoreStmt>),
    Break,
    Continue,
    Return(Option<CoreExpr>),
    /// A class variable gets a new object.
    Make(u32),
}

/// A function.
#[derive(Drop)]
pub struct CoreFn {
    pub name: Text,
    pub defined: bool,
    pub in_class: bool,
    pub member: bool,
    pub place: Place,
    pub result: Ty,
    pub params: Items<CoreParam>,
    /// The types of its variables.
    pub locals: Items<Ty>,
    pub body: Option<CoreStmt>,
}

/// What a unit keeps of a class beside the class itself: where it was first named, and the tokens of its definition, joined
/// by blanks. Of a class that is only declared there are none.
#[derive(Drop)]
pub struct CoreClass {
    pub place: Place,
    pub tokens: Text,
}

/// The head of an open-method.
#[derive(Drop)]
pub struct OpenDecl {
    pub name: Text,
    pub params: Items<Ty>,
    /// Which parameters are virtual.
    pub virtuals: Items<bool>,
    pub result: Ty,
    pub place: Place,
    pub defined: bool,
}
