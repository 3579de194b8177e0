// What constructors do.

ghost use Rattle.std.specs.Prelude.{◌≡◌, ◌≤◌, length};
ghost use Rattle.mm_grammar.specs.Grammar.{name, opt};
ghost use Rattle.mm_cursor.specs.Cursor.{Answers};
ghost use Rattle.mm_syntax.specs.Rules as rules;
ghost use Rattle.mm_parse_function.specs.Parts.{init_list};

use crate::build;
use mm_cursor::list::{push, single};
use mm_cursor::{Cursor, Stop};
use mm_parse_expr::parser::inside;
use mm_parse_stmt::stmt::block;
use mm_syntax::decl::{ConstructorBody, Init};
use mm_syntax::symbol::Symbol;
use sqlite_items::{Boxed, Items};
use std::alloc::Global;

/// Initializers, which may be left out, and a block.
pub fn constructor_body(
    alloc: Global,
    cursor: &mut Cursor<'_>,
    nesting: usize,
) -> Result<Boxed<ConstructorBody>, Stop>
    ensures reads { Answers (rules.constructor_body nesting) cursor.old result cursor.new }
    ensures shorter { length cursor.new ≤ length cursor.old }
{
    let inits = inits(alloc, cursor)?;
    let body = block(alloc, cursor, nesting)?;
    Ok(build::constructor_body(alloc, inits, body)?)
}

/// `:` and initializers, where they stand.
fn inits(alloc: Global, cursor: &mut Cursor<'_>) -> Result<Option<Items<Init>>, Stop>
    ensures reads { Answers (opt (name rules.inits)) cursor.old result cursor.new }
    ensures shorter { length cursor.new ≤ length cursor.old }
{
    if cursor.eat(&[Symbol::Colon]).is_some() {
        let list = init_list(alloc, cursor)?;
        return Ok(Some(list));
    }
    Ok(None)
}

/// Initializers with a comma between each two.
fn init_list(alloc: Global, cursor: &mut Cursor<'_>) -> Result<Items<Init>, Stop>
    ensures reads { Answers init_list cursor.old result cursor.new }
    ensures shorter { length cursor.new ≤ length cursor.old }
{
    let first = init(alloc, cursor)?;
    let mut list = single(alloc, first)?;
    while cursor.eat(&[Symbol::Comma]).is_some() {
        let next = init(alloc, cursor)?;
        push(&mut list, next)?;
    }
    Ok(list)
}

/// The name of a field or a base, and arguments in parentheses.
fn init(alloc: Global, cursor: &mut Cursor<'_>) -> Result<Boxed<Init>, Stop>
    ensures reads { Answers (name rules.init) cursor.old result cursor.new }
    ensures shorter { length cursor.new ≤ length cursor.old }
{
    let word = cursor.take(&[Symbol::Word, Symbol::Class])?;
    cursor.take(&[Symbol::Open])?;
    let args = inside(alloc, cursor)?;
    Ok(build::init(alloc, word, args)?)
}
