// Functions outside classes, behind what they begin with.

ghost use Rattle.std.specs.Prelude.{◌≡◌, ◌≤◌, length};
ghost use Rattle.mm_cursor.specs.Cursor.{Answers};
ghost use Rattle.mm_syntax.specs.Rules as rules;
ghost use Rattle.mm_parse_function.specs.Parts.{plain_end, member_end, constructor_tail};

use crate::build;
use crate::constructor::constructor_body;
use crate::params::parameters;
use mm_cursor::{Cursor, Stop};
use mm_parse_stmt::stmt::block;
use mm_parse_var::types::mark;
use mm_syntax::part::{AfterClass, Declared, FunctionEnd};
use mm_syntax::stmt::Stmt;
use mm_syntax::symbol::Symbol;
use mm_token::token::Token;
use sqlite_items::Boxed;
use std::alloc::Global;

/// What follows the type of a function.
pub fn after_type(
    alloc: Global,
    cursor: &mut Cursor<'_>,
    nesting: usize,
) -> Result<Boxed<Declared>, Stop>
    ensures reads { Answers (rules.after_type nesting) cursor.old result cursor.new }
    ensures shorter { length cursor.new ≤ length cursor.old }
{
    let before = mark(cursor)?;
    let end = function_end(alloc, cursor, nesting)?;
    Ok(build::declared(alloc, before, end)?)
}

/// What follows the mark of a function: a name first, or a class that the function is a member of.
fn function_end(
    alloc: Global,
    cursor: &mut Cursor<'_>,
    nesting: usize,
) -> Result<Boxed<FunctionEnd>, Stop>
    ensures reads { Answers (rules.function_end nesting) cursor.old result cursor.new }
    ensures shorter { length cursor.new ≤ length cursor.old }
{
    if let Some(word) = cursor.eat(&[Symbol::Word]) {
        return plain_end(alloc, cursor, nesting, word);
    }
    member_end(alloc, cursor, nesting)
}

/// Parameters, and a block or `;`.
fn plain_end(
    alloc: Global,
    cursor: &mut Cursor<'_>,
    nesting: usize,
    word: &Token,
) -> Result<Boxed<FunctionEnd>, Stop>
    ensures reads { Answers (plain_end nesting word.now) cursor.old result cursor.new }
    ensures shorter { length cursor.new ≤ length cursor.old }
{
    let params = parameters(alloc, cursor)?;
    let body = function_body(alloc, cursor, nesting)?;
    Ok(build::plain_end(alloc, word, params, body)?)
}

/// `;`, or a block.
fn function_body(
    alloc: Global,
    cursor: &mut Cursor<'_>,
    nesting: usize,
) -> Result<Option<Boxed<Stmt>>, Stop>
    ensures reads { Answers (rules.function_body nesting) cursor.old result cursor.new }
    ensures shorter { length cursor.new ≤ length cursor.old }
{
    if cursor.eat(&[Symbol::Semicolon]).is_some() {
        return Ok(None);
    }
    let body = block(alloc, cursor, nesting)?;
    Ok(Some(body))
}

/// A class, `::`, a name, parameters and a block.
fn member_end(
    alloc: Global,
    cursor: &mut Cursor<'_>,
    nesting: usize,
) -> Result<Boxed<FunctionEnd>, Stop>
    ensures reads { Answers (member_end nesting) cursor.old result cursor.new }
    ensures shorter { length cursor.new ≤ length cursor.old }
{
    let class = cursor.take(&[Symbol::Class])?;
    cursor.take(&[Symbol::Scope])?;
    let word = cursor.take(&[Symbol::Word])?;
    let params = parameters(alloc, cursor)?;
    let body = block(alloc, cursor, nesting)?;
    Ok(build::member_end(alloc, class, word, params, body)?)
}

/// What follows a class's name at the start of a declaration.
pub fn after_class_name(
    alloc: Global,
    cursor: &mut Cursor<'_>,
    nesting: usize,
) -> Result<Boxed<AfterClass>, Stop>
    ensures reads { Answers (rules.after_class_name nesting) cursor.old result cursor.new }
    ensures shorter { length cursor.new ≤ length cursor.old }
{
    if cursor.eat(&[Symbol::Scope]).is_some() {
        return constructor_tail(alloc, cursor, nesting);
    }
    let end = after_type(alloc, cursor, nesting)?;
    Ok(build::after_type(alloc, end)?)
}

/// A constructor behind `::`.
fn constructor_tail(
    alloc: Global,
    cursor: &mut Cursor<'_>,
    nesting: usize,
) -> Result<Boxed<AfterClass>, Stop>
    ensures reads { Answers (constructor_tail nesting) cursor.old result cursor.new }
    ensures shorter { length cursor.new ≤ length cursor.old }
{
    let class = cursor.take(&[Symbol::Class])?;
    let params = parameters(alloc, cursor)?;
    let body = constructor_body(alloc, cursor, nesting)?;
    Ok(build::constructor_tail(alloc, class, params, body)?)
}
