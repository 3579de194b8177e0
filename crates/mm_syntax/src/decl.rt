// The trees of functions, classes and units.

use crate::expr::{Expr, TypeName};
use crate::name::{Access, ClassKey, DeclaratorMark, Name};
use crate::stmt::Stmt;
use mm_base::place::Place;
use mm_base::text::Text;
use sqlite_items::Items;

/// A parameter of a function.
#[derive(Drop)]
pub struct Param {
    /// Where the word `virtual` stands before it.
    pub virtual_at: Option<Place>,
    pub type_name: TypeName,
    pub mark: Option<DeclaratorMark>,
    pub name: Option<Name>,
}

/// What stands in the parentheses of a function.
#[derive(Drop)]
pub struct Params {
    /// Whether `void` stands there alone. It is no parameter.
    pub has_void: bool,
    pub list: Items<Param>,
}

/// A function's result, name and parameters.
#[derive(Drop)]
pub struct Head {
    pub type_name: TypeName,
    pub mark: Option<DeclaratorMark>,
    pub name: Name,
    pub params: Params,
}

/// An initializer of a constructor: the name of a field or a base, and the arguments.
#[derive(Drop)]
pub struct Init {
    pub name: Name,
    pub arguments: Items<Expr>,
}

/// What a constructor does: its initializers, and the block after them.
#[derive(Drop)]
pub struct ConstructorBody {
    pub inits: Items<Init>,
    pub block: Stmt,
}

/// A declaration or definition of a function. A body is a block.
#[derive(Drop)]
pub struct FnDecl {
    pub kind: FnDeclKind,
    /// Of its first token.
    pub place: Place,
}

#[derive(Drop)]
pub enum FnDeclKind {
    Declaration(Head),
    Definition(Head, Stmt),
    /// Of a member function, outside its class, which is named first.
    MemberDefinition(Name, Head, Stmt),
    /// Of a constructor, outside its class: the class, its name again, the parameters and the rest.
    ConstructorDefinition(Name, Name, Params, ConstructorBody),
    /// In a class: where `virtual` stands, the head, and the body where there is one.
    Method(Option<Place>, Head, Option<Stmt>),
    /// In a class: where `virtual` stands, the class's name, and whether `void` stands in the parentheses.
    Destructor(Option<Place>, Name, bool),
    /// In a class: the class's name, the parameters, and the rest where it is defined there.
    Constructor(Name, Params, Option<ConstructorBody>),
}

/// A direct base of a class.
#[derive(Drop)]
pub struct Base {
    /// Where the word `virtual` stands before it.
    pub virtual_at: Option<Place>,
    pub access: Option<Access>,
    pub name: Name,
}

/// The name of a field, with its mark.
#[derive(Drop)]
pub struct FieldName {
    pub mark: Option<DeclaratorMark>,
    pub name: Name,
}

/// What stands in the braces of a class.
#[derive(Drop)]
pub enum Member {
    /// The access of the members that follow.
    Access(Access),
    Fields(TypeName, Items<FieldName>),
    Function(FnDecl),
}

/// A declaration or definition of a class.
#[derive(Drop)]
pub struct ClassDecl {
    pub kind: ClassDeclKind,
    /// Of its first token.
    pub place: Place,
}

#[derive(Drop)]
pub enum ClassDeclKind {
    Declaration(ClassKey, Name),
    /// The last part is the texts of the tokens from the first to `}`, joined by blanks.
    Definition(ClassKey, Name, Items<Base>, Items<Member>, Text),
}

/// A declaration of a unit.
#[derive(Drop)]
pub struct Decl {
    pub kind: DeclKind,
    /// Of its first token.
    pub place: Place,
}

#[derive(Drop)]
pub enum DeclKind {
    Class(ClassDecl),
    Function(FnDecl),
}

/// A unit with the headers that it includes.
#[derive(Drop)]
pub struct Unit {
    pub decls: Items<Decl>,
    /// Of its first token, and of its end where there is none.
    pub place: Place,
    /// The unit's own file, and then each header in the order of first inclusion.
    pub files: Items<Text>,
    /// The bytes of all these files.
    pub bytes: u64,
}
