// Declarations.

ghost use Rattle.std.specs.Prelude.{◌≡◌, ◌≤◌, length};
ghost use Rattle.mm_grammar.specs.Grammar.{name};
ghost use Rattle.mm_cursor.specs.Cursor.{Answers};
ghost use Rattle.mm_syntax.specs.Rules as rules;
ghost use Rattle.mm_parse_unit.specs.Reading.{begins, begin_decl};

use crate::build;
use mm_cursor::{Cursor, Stop};
use mm_parse_class::class::class;
use mm_parse_function::function::{after_class_name, after_type};
use mm_parse_var::types::word_type;
use mm_syntax::decl::Decl;
use mm_syntax::symbol::{Symbol, classify};
use mm_token::token::Token;
use sqlite_items::{Boxed, Items};
use std::alloc::Global;

fn begins_decl(tokens: &[Token]) -> bool
    ensures { result ≡ begins begin_decl tokens.now }
{
    match tokens {
        [] => false,
        [next, ..] => matches!(
            classify(next),
            Symbol::ClassKey
                | Symbol::StructKey
                | Symbol::Void
                | Symbol::Bool
                | Symbol::Int
                | Symbol::Unsigned
                | Symbol::Class
        ),
    }
}

/// A class; or what begins with one, a function or a constructor; or a function of another type.
fn decl(alloc: Global, cursor: &mut Cursor<'_>, nesting: usize) -> Result<Boxed<Decl>, Stop>
    ensures reads { Answers (name (rules.decl nesting)) cursor.old result cursor.new }
    ensures shorter { length cursor.new ≤ length cursor.old }
{
    let start = cursor.rest();
    if let Some(word) = cursor.eat(&[Symbol::ClassKey, Symbol::StructKey]) {
        return class(alloc, cursor, start, word, nesting);
    }
    if let Some(word) = cursor.eat(&[Symbol::Class]) {
        let end = after_class_name(alloc, cursor, nesting)?;
        return Ok(build::after(alloc, word, end)?);
    }
    let type_name = word_type(alloc, cursor)?;
    let declared = after_type(alloc, cursor, nesting)?;
    Ok(build::typed(alloc, type_name, declared)?)
}

/// The declarations up to a token that begins none. So many statements may stand one inside the other in them.
pub fn decls(alloc: Global, cursor: &mut Cursor<'_>, nesting: usize) -> Result<Items<Decl>, Stop>
    ensures reads { Answers (name (rules.unit nesting)) cursor.old result cursor.new }
    ensures shorter { length cursor.new ≤ length cursor.old }
{
    let mut list = Items::new(alloc);
    while begins_decl(cursor.rest()) {
        let next = decl(alloc, cursor, nesting)?;
        build::push(&mut list, next)?;
    }
    Ok(list)
}
