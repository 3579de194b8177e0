// Trees of types, variables and statements, from their tokens and parts.

ghost use Rattle.std.specs.Prelude.{◌≡◌, IfOk, option_copied};
ghost use Rattle.mm_syntax.specs.Built.{unsigned_type};
ghost use Rattle.mm_syntax.specs.BuiltStatements as bs;
ghost use Rattle.mm_parse_var.specs.Parts.{value_of, arguments_of, expr_first, variables_first};

use mm_syntax::expr::{Expr, TypeName, TypeNameKind};
use mm_syntax::name::DeclaratorMark;
use mm_syntax::part::Begun;
use mm_syntax::stmt::{Declarator, ForStart, Initializer, Stmt, StmtKind, Variables};
use mm_syntax::taken;
use mm_token::token::Token;
use sqlite_items::{Boxed, Items};
use std::alloc::{AllocError, Global};

/// The type `unsigned`, with `int` after it or without.
pub fn unsigned(word: &Token, int: Option<&Token>) -> TypeName
    ensures { result ≡ unsigned_type word.now (option_copied int.entry) }
{
    TypeName {
        kind: TypeNameKind::Unsigned(int.is_some()),
        place: word.place,
    }
}

/// What a variable begins as after `=`.
pub fn value(alloc: Global, value: Boxed<Begun>) -> Result<Boxed<Initializer>, AllocError>
    ensures { IfOk result (λ v. v ≡ value_of value) }
{
    let Begun { tree, .. } = value.into_inner();
    Boxed::new(alloc, Initializer::Value(tree))
}

/// What a variable begins as, of its arguments.
pub fn arguments(alloc: Global, args: Items<Expr>) -> Result<Boxed<Initializer>, AllocError>
    ensures { IfOk result (λ v. v ≡ arguments_of args) }
{
    Boxed::new(alloc, Initializer::Arguments(args))
}

/// A variable that is declared.
pub fn declarator(
    alloc: Global,
    mark: Option<DeclaratorMark>,
    word: &Token,
    value: Option<Boxed<Initializer>>,
) -> Result<Boxed<Declarator>, AllocError>
    ensures { IfOk result (λ v. v ≡ bs.declarator mark word.now value) }
{
    let name = taken::name(alloc, word)?;
    let initializer = match value {
        None => Initializer::Nothing,
        Some(value) => value.into_inner(),
    };
    Boxed::new(
        alloc,
        Declarator {
            mark,
            name,
            initializer,
        },
    )
}

/// The declaration of variables.
pub fn variables(
    alloc: Global,
    type_name: TypeName,
    names: Items<Declarator>,
) -> Result<Boxed<Variables>, AllocError>
    ensures { IfOk result (λ v. v ≡ bs.variables type_name names) }
{
    Boxed::new(alloc, Variables { type_name, names })
}

/// The declaration of variables as a statement.
pub fn declared(alloc: Global, variables: Boxed<Variables>) -> Result<Boxed<Stmt>, AllocError>
    ensures { IfOk result (λ v. v ≡ bs.declared variables) }
{
    let variables = variables.into_inner();
    let place = variables.type_name.place;
    Boxed::new(
        alloc,
        Stmt {
            kind: StmtKind::Variables(variables),
            place,
        },
    )
}

/// An expression as a statement.
pub fn run(alloc: Global, value: Boxed<Begun>) -> Result<Boxed<Stmt>, AllocError>
    ensures { IfOk result (λ v. v ≡ bs.run value) }
{
    let Begun { tree, start } = value.into_inner();
    Boxed::new(
        alloc,
        Stmt {
            kind: StmtKind::Expr(tree),
            place: start,
        },
    )
}

/// An expression that stands first in the parentheses of `for`.
pub fn expr_first(alloc: Global, value: Boxed<Begun>) -> Result<Boxed<ForStart>, AllocError>
    ensures { IfOk result (λ v. v ≡ expr_first value) }
{
    let Begun { tree, .. } = value.into_inner();
    Boxed::new(alloc, ForStart::Expr(tree))
}

/// Variables that are declared first in the parentheses of `for`.
pub fn variables_first(
    alloc: Global,
    variables: Boxed<Variables>,
) -> Result<Boxed<ForStart>, AllocError>
    ensures { IfOk result (λ v. v ≡ variables_first variables) }
{
    Boxed::new(alloc, ForStart::Variables(variables.into_inner()))
}
