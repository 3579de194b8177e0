// Parameters.

ghost use Rattle.std.specs.Prelude.{◌≡◌, ◌≤◌, length};
ghost use Rattle.mm_grammar.specs.Grammar.{name, opt};
ghost use Rattle.mm_cursor.specs.Cursor.{Answers};
ghost use Rattle.mm_syntax.specs.Rules as rules;
ghost use Rattle.mm_parse_function.specs.Parts.{inside_parameters, void_first, behind};

use crate::build;
use mm_cursor::list::{push, single};
use mm_cursor::{Cursor, Stop};
use mm_parse_var::types::{mark, object_type, type_name};
use mm_syntax::decl::{Param, Params};
use mm_syntax::part::ParamEnd;
use mm_syntax::symbol::Symbol;
use mm_token::token::Token;
use sqlite_items::{Boxed, Items};
use std::alloc::Global;

/// `(`, parameters and `)`.
pub fn parameters(alloc: Global, cursor: &mut Cursor<'_>) -> Result<Boxed<Params>, Stop>
    ensures reads { Answers rules.parameters cursor.old result cursor.new }
    ensures shorter { length cursor.new ≤ length cursor.old }
{
    cursor.take(&[Symbol::Open])?;
    inside(alloc, cursor)
}

/// The parameters that follow `(`, of which there may be none, and the `)` after them.
fn inside(alloc: Global, cursor: &mut Cursor<'_>) -> Result<Boxed<Params>, Stop>
    ensures reads { Answers inside_parameters cursor.old result cursor.new }
    ensures shorter { length cursor.new ≤ length cursor.old }
{
    if cursor.eat(&[Symbol::Close]).is_some() {
        let list = Items::new(alloc);
        return Ok(build::params(alloc, list)?);
    }
    let inner = some_params(alloc, cursor)?;
    cursor.take(&[Symbol::Close])?;
    Ok(inner)
}

/// `void` and what may follow it, or other parameters.
fn some_params(alloc: Global, cursor: &mut Cursor<'_>) -> Result<Boxed<Params>, Stop>
    ensures reads { Answers rules.some_params cursor.old result cursor.new }
    ensures shorter { length cursor.new ≤ length cursor.old }
{
    if let Some(word) = cursor.eat(&[Symbol::Void]) {
        return after_void(alloc, cursor, word);
    }
    let first = other_param(alloc, cursor)?;
    let list = more_params(alloc, cursor, first)?;
    Ok(build::params(alloc, list)?)
}

/// What follows a first `void`: nothing where it stands alone, else the rest of the first parameter and the others.
fn after_void(alloc: Global, cursor: &mut Cursor<'_>, word: &Token) -> Result<Boxed<Params>, Stop>
    ensures reads { Answers (void_first word.now) cursor.old result cursor.new }
    ensures shorter { length cursor.new ≤ length cursor.old }
{
    if let Some(end) = void_end(alloc, cursor)? {
        let first = build::void_param(alloc, word, end)?;
        let list = more_params(alloc, cursor, first)?;
        return Ok(build::params(alloc, list)?);
    }
    Ok(build::void_alone(alloc)?)
}

/// The parameters that follow the first, each with its comma. The list begins with the first.
fn more_params(
    alloc: Global,
    cursor: &mut Cursor<'_>,
    first: Boxed<Param>,
) -> Result<Items<Param>, Stop>
    ensures reads { Answers (behind first) cursor.old result cursor.new }
    ensures shorter { length cursor.new ≤ length cursor.old }
{
    let mut list = single(alloc, first)?;
    while cursor.eat(&[Symbol::Comma]).is_some() {
        let next = param(alloc, cursor)?;
        push(&mut list, next)?;
    }
    Ok(list)
}

/// A parameter. `void` needs a mark or a name behind it.
fn param(alloc: Global, cursor: &mut Cursor<'_>) -> Result<Boxed<Param>, Stop>
    ensures reads { Answers (name rules.param) cursor.old result cursor.new }
    ensures shorter { length cursor.new ≤ length cursor.old }
{
    if let Some(word) = cursor.eat(&[Symbol::Void]) {
        if let Some(end) = void_end(alloc, cursor)? {
            return Ok(build::void_param(alloc, word, end)?);
        }
        return Err(Stop::Fault);
    }
    other_param(alloc, cursor)
}

/// A parameter that doesn't begin with `void`.
fn other_param(alloc: Global, cursor: &mut Cursor<'_>) -> Result<Boxed<Param>, Stop>
    ensures reads { Answers rules.other_param cursor.old result cursor.new }
    ensures shorter { length cursor.new ≤ length cursor.old }
{
    if let Some(word) = cursor.eat(&[Symbol::Virtual]) {
        let kind = type_name(alloc, cursor)?;
        let end = param_end(alloc, cursor)?;
        return Ok(build::param(alloc, Some(word), kind, end)?);
    }
    let kind = object_type(alloc, cursor)?;
    let end = param_end(alloc, cursor)?;
    Ok(build::param(alloc, None, kind, end)?)
}

/// A mark and a name, where they stand.
fn param_end(alloc: Global, cursor: &mut Cursor<'_>) -> Result<ParamEnd, Stop>
    ensures reads { Answers rules.param_end cursor.old result cursor.new }
    ensures shorter { length cursor.new ≤ length cursor.old }
{
    let before = mark(cursor)?;
    let word = cursor.eat(&[Symbol::Word]);
    Ok(build::param_end(alloc, before, word)?)
}

/// The same behind `void`, and nothing where neither stands.
fn void_end(alloc: Global, cursor: &mut Cursor<'_>) -> Result<Option<ParamEnd>, Stop>
    ensures reads { Answers (opt rules.void_end) cursor.old result cursor.new }
    ensures shorter { length cursor.new ≤ length cursor.old }
{
    if let Some(before) = cursor.eat(&[Symbol::Star, Symbol::And]) {
        let word = cursor.eat(&[Symbol::Word]);
        return Ok(Some(build::marked_end(alloc, before, word)?));
    }
    match cursor.eat(&[Symbol::Word]) {
        Some(word) => Ok(Some(build::param_end(alloc, None, Some(word))?)),
        None => Ok(None),
    }
}
