// The trees of expressions and types.

use crate::name::{
    AssignOperator, BinaryOperator, MemberOperator, Name, Number, StepOperator, UnaryOperator,
};
use mm_base::place::Place;
use mm_base::text::Text;
use sqlite_items::{Boxed, Items};

/// An expression. Parentheses leave no tree, but an operand's belong to the first token of the tree around it.
#[cycle(expr)]
#[derive(Drop)]
pub struct Expr {
    pub kind: ExprKind,
    /// Of its first token.
    pub place: Place,
}

#[cycle(expr)]
#[derive(Drop)]
pub enum ExprKind {
    Number(Number),
    True,
    False,
    This,
    Name(Text),
    /// A class and a name in it.
    Scoped(Name, Name),
    /// `dynamic_cast` to a pointer to a class.
    Cast(Name, Boxed<Expr>),
    /// The operator stands at the tree's place.
    Unary(UnaryOperator, Boxed<Expr>),
    Step(Boxed<Expr>, StepOperator, Place),
    Binary(Boxed<Expr>, BinaryOperator, Place, Boxed<Expr>),
    /// The condition, the place of `?`, and the branches.
    Choose(Boxed<Expr>, Place, Boxed<Expr>, Boxed<Expr>),
    Assign(Boxed<Expr>, AssignOperator, Place, Boxed<Expr>),
    New(Name),
    /// With arguments in parentheses, of which there may be none.
    Make(Name, Items<Expr>),
    Call(Boxed<Expr>, Items<Expr>),
    /// A class may stand before the member's name.
    Member(Boxed<Expr>, MemberOperator, Place, Option<Name>, Name),
}

/// A type, without the mark that a declarator may add.
#[derive(Drop)]
pub struct TypeName {
    pub kind: TypeNameKind,
    pub place: Place,
}

#[derive(Drop)]
pub enum TypeNameKind {
    Void,
    Bool,
    Int,
    /// Whether `int` follows.
    Unsigned(bool),
    Class(Text),
}
