// The declaration of variables.

ghost use Rattle.std.specs.Prelude.{◌≡◌, ◌≤◌, length};
ghost use Rattle.mm_grammar.specs.Grammar.{name, opt};
ghost use Rattle.mm_cursor.specs.Cursor.{Answers};
ghost use Rattle.mm_syntax.specs.Rules as rules;
ghost use Rattle.mm_parse_var.specs.Parts as parts;

use crate::{build, types};
use mm_cursor::list::{push, single};
use mm_cursor::{Cursor, Stop};
use mm_parse_expr::parser;
use mm_syntax::stmt::{Declarator, Initializer, Variables};
use mm_syntax::symbol::Symbol;
use sqlite_items::{Boxed, Items};
use std::alloc::Global;

/// A type, variables with a comma between each two, and `;`.
pub fn variables(alloc: Global, cursor: &mut Cursor<'_>) -> Result<Boxed<Variables>, Stop>
    ensures reads { Answers (name rules.var) cursor.old result cursor.new }
    ensures shorter { length cursor.new ≤ length cursor.old }
{
    let type_name = types::type_name(alloc, cursor)?;
    let names = declarators(alloc, cursor)?;
    Ok(build::variables(alloc, type_name, names)?)
}

/// Variables with a comma between each two, and `;`.
fn declarators(alloc: Global, cursor: &mut Cursor<'_>) -> Result<Items<Declarator>, Stop>
    ensures reads { Answers parts.declarators cursor.old result cursor.new }
    ensures shorter { length cursor.new ≤ length cursor.old }
{
    let first = declarator(alloc, cursor)?;
    let list = following(alloc, cursor, first)?;
    cursor.take(&[Symbol::Semicolon])?;
    Ok(list)
}

/// The first variable, and the others, each after a comma.
fn following(
    alloc: Global,
    cursor: &mut Cursor<'_>,
    first: Boxed<Declarator>,
) -> Result<Items<Declarator>, Stop>
    ensures reads { Answers (parts.following first) cursor.old result cursor.new }
    ensures shorter { length cursor.new ≤ length cursor.old }
{
    let mut list = single(alloc, first)?;
    while cursor.eat(&[Symbol::Comma]).is_some() {
        let next = declarator(alloc, cursor)?;
        push(&mut list, next)?;
    }
    Ok(list)
}

/// A mark, which may be left out, a name, and what the variable begins as.
fn declarator(alloc: Global, cursor: &mut Cursor<'_>) -> Result<Boxed<Declarator>, Stop>
    ensures reads { Answers (name rules.declarator) cursor.old result cursor.new }
    ensures shorter { length cursor.new ≤ length cursor.old }
{
    let mark = types::mark(cursor)?;
    let word = cursor.take(&[Symbol::Word])?;
    let value = initial(alloc, cursor)?;
    Ok(build::declarator(alloc, mark, word, value)?)
}

/// `=` and an expression, or arguments in parentheses, where one of them follows.
fn initial(alloc: Global, cursor: &mut Cursor<'_>) -> Result<Option<Boxed<Initializer>>, Stop>
    ensures reads { Answers (opt rules.initial) cursor.old result cursor.new }
    ensures shorter { length cursor.new ≤ length cursor.old }
{
    if cursor.eat(&[Symbol::Assign]).is_some() {
        let value = parser::expr(alloc, cursor)?;
        return Ok(Some(build::value(alloc, value)?));
    }
    if cursor.eat(&[Symbol::Open]).is_some() {
        let args = parser::args(alloc, cursor)?;
        cursor.take(&[Symbol::Close])?;
        return Ok(Some(build::arguments(alloc, args)?));
    }
    Ok(None)
}
