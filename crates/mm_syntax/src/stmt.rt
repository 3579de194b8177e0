// The trees of statements.

use crate::expr::{Expr, TypeName};
use crate::name::{DeclaratorMark, Name};
use mm_base::place::Place;
use sqlite_items::{Boxed, Items};

/// What a declared variable begins as.
#[derive(Drop)]
pub enum Initializer {
    Nothing,
    /// After `=`.
    Value(Expr),
    /// In parentheses.
    Arguments(Items<Expr>),
}

/// A variable that is declared.
#[derive(Drop)]
pub struct Declarator {
    pub mark: Option<DeclaratorMark>,
    pub name: Name,
    pub initializer: Initializer,
}

/// The declaration of variables. It begins with its type.
#[derive(Drop)]
pub struct Variables {
    pub type_name: TypeName,
    pub names: Items<Declarator>,
}

/// What stands before the first `;` in the parentheses of `for`.
#[derive(Drop)]
pub enum ForStart {
    Nothing,
    Expr(Expr),
    Variables(Variables),
}

/// A statement.
#[cycle(stmt)]
#[derive(Drop)]
pub struct Stmt {
    pub kind: StmtKind,
    /// Of its first token.
    pub place: Place,
}

#[cycle(stmt)]
#[derive(Drop)]
pub enum StmtKind {
    Block(Items<Stmt>),
    Empty,
    Expr(Expr),
    Variables(Variables),
    If(Expr, Boxed<Stmt>),
    /// With `else`.
    Choose(Expr, Boxed<Stmt>, Boxed<Stmt>),
    While(Expr, Boxed<Stmt>),
    Do(Boxed<Stmt>, Expr),
    /// The start, the condition, the step and the body.
    For(ForStart, Option<Expr>, Option<Expr>, Boxed<Stmt>),
    Break,
    Continue,
    Return(Option<Expr>),
}
