// What the parts of rules give before a tree is whole.

use crate::decl::{Base, ConstructorBody, FieldName, Member, Params};
use crate::expr::{Expr, TypeName};
use crate::name::{AssignOperator, DeclaratorMark, MemberOperator, Name, StepOperator};
use crate::stmt::Stmt;
use mm_base::place::Place;
use sqlite_items::Items;

/// An expression, and where its text begins: at its tree's place, or at a parenthesis around it.
#[derive(Drop)]
pub struct Begun {
    pub tree: Expr,
    pub start: Place,
}

/// What may end an expression after its first part.
#[derive(Drop)]
pub enum End {
    /// The place of `?`, and the branches.
    Choose(Place, Expr, Expr),
    /// The operator with its place, and the right side.
    Assign(AssignOperator, Place, Expr),
}

/// What may follow a postfix expression.
#[derive(Drop)]
pub enum Suffix {
    Called(Items<Expr>),
    Member(MemberOperator, Place, Option<Name>, Name),
    Stepped(StepOperator, Place),
}

/// The mark and the name of a parameter, which may both be left out.
#[derive(Drop)]
pub struct ParamEnd {
    pub mark: Option<DeclaratorMark>,
    pub name: Option<Name>,
}

/// What follows the mark of a function that is declared outside classes.
#[derive(Drop)]
pub enum FunctionEnd {
    Plain(Name, Params, Option<Stmt>),
    /// The class first.
    Member(Name, Name, Params, Stmt),
}

/// What follows the type of a function that is declared outside classes.
#[derive(Drop)]
pub struct Declared {
    pub mark: Option<DeclaratorMark>,
    pub end: FunctionEnd,
}

/// What follows a class's name at the start of a declaration.
#[derive(Drop)]
pub enum AfterClass {
    /// The class is a type.
    Type(Declared),
    /// A constructor's name, parameters and body.
    Constructor(Name, Params, ConstructorBody),
}

/// What follows a class's name in its definition.
#[derive(Drop)]
pub struct ClassBody {
    pub bases: Items<Base>,
    pub members: Items<Member>,
}

/// What follows the name of a member that begins with a type.
#[derive(Drop)]
pub enum MemberEnd {
    Function(Params, Option<Stmt>),
    /// Further fields.
    Fields(Items<FieldName>),
}

/// What follows the type of a member.
#[derive(Drop)]
pub struct MemberTail {
    pub mark: Option<DeclaratorMark>,
    pub name: Name,
    pub end: MemberEnd,
}

/// What follows the type of a member function.
#[derive(Drop)]
pub struct MethodTail {
    pub mark: Option<DeclaratorMark>,
    pub name: Name,
    pub params: Params,
    pub body: Option<Stmt>,
}

/// A destructor from its `~` on.
#[derive(Drop)]
pub struct DestructorTail {
    pub start: Place,
    pub name: Name,
    pub has_void: bool,
}

/// What follows `virtual` in a class.
#[derive(Drop)]
pub enum AfterVirtual {
    Method(TypeName, MethodTail),
    Destructor(DestructorTail),
}

/// What follows the name of a constructor in its class.
#[derive(Drop)]
pub struct ConstructorTail {
    pub params: Params,
    pub body: Option<ConstructorBody>,
}

/// What follows a class's name at the start of a member.
#[derive(Drop)]
pub enum AfterMemberClass {
    /// The class is a type.
    Type(MemberTail),
    Constructor(ConstructorTail),
}
