// The trees of C programs in which a local is a place in its function's frame, and functions and
// arrays are numbers.

use mm_base::world::Builtin;
use mm_c::tree::{CKind, COperator};
use mm_c::value::{CCell, CValue};
use sqlite_items::Items;

/// An operand: what a local holds, or a value.
#[derive(Clone, Copy, Debug, PartialEq, Eq)]
pub enum Operand {
    Place(u32),
    Value(CValue),
}

/// The place of a cell: a pointer that a local holds, and an offset past it.
#[derive(Clone, Copy, Debug, PartialEq, Eq)]
pub struct Address {
    pub pointer: u32,
    pub offset: u32,
}

/// The index of an array: what a local holds, or a tag.
#[derive(Clone, Copy, Debug, PartialEq, Eq)]
pub enum Index {
    Place(u32),
    Tag(Address),
}

/// What an assignment stores. `Index` has the number of an array.
#[derive(Clone, Copy, Debug, PartialEq, Eq)]
pub enum Right {
    Copy(Operand),
    Binary(Operand, COperator, Operand),
    ToInt(u32),
    ToUnsigned(u32),
    Load(CCell, Address),
    Index(u32, Index),
}

/// A function of the prelude, or one of the program's by its number.
#[derive(Clone, Copy, Debug, PartialEq, Eq)]
pub enum Callee {
    Asks(Builtin),
    Trap,
    New,
    Function(u32),
}

/// What is called: a function, or the element of an array, by its number, at the index that a local
/// holds.
#[derive(Clone, Copy, Debug, PartialEq, Eq)]
pub enum Target {
    Named(Callee),
    Element(u32, u32),
}

/// A local, and the kind by which it receives a value.
#[derive(Clone, Copy, Debug, PartialEq, Eq)]
pub struct Local {
    pub place: u32,
    pub kind: CKind,
}

/// A statement.
#[derive(Drop)]
pub enum PlacedStmt {
    /// Locals are as at the entry of their block: zero or null.
    Locals(Items<Local>),
    Assign(Local, Right),
    Store(CCell, Address, Operand),
    /// A call, and the local that receives its result.
    Call(Option<Local>, Target, Items<Operand>),
    If(Operand, Items<PlacedStmt>, Items<PlacedStmt>),
    While(Items<PlacedStmt>),
    Break,
    Continue,
    Return,
    ReturnValue(Operand),
}

/// A function. Its parameters are its first places, and `slots` is the number of all its places.
#[derive(Drop)]
pub struct PlacedFunction {
    pub is_inline: bool,
    pub result: Option<CKind>,
    pub params: Items<CKind>,
    pub slots: u32,
    pub body: Items<PlacedStmt>,
}

/// An element of an array.
#[derive(Clone, Copy, Debug, PartialEq, Eq)]
pub enum Element {
    Function(Callee),
    Number(i32),
}

#[derive(Drop)]
pub struct PlacedArray {
    pub elements: Items<Element>,
}

/// A program. `main` is the number of the function that a run enters.
#[derive(Drop)]
pub struct PlacedProgram {
    pub functions: Items<PlacedFunction>,
    pub arrays: Items<PlacedArray>,
    pub main: u32,
}
