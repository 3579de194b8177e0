// Statements in which no other stands.

ghost use Rattle.std.specs.Prelude.{◌≡◌};
ghost use Rattle.mm_c.specs.Grammar as grammar;
ghost use Rattle.mm_c.specs.View.{stmt_view};
ghost use Rattle.mm_c_parse.specs.Steps.{Answers, seen};
ghost use Rattle.mm_c_parse_stmt.specs.Gathers.{Gathers};
ghost use Rattle.mm_c_parse_stmt.specs.Parts.{after_first_of, element_end, jump, return_end, simple_end, store_end};

use crate::places::{Places, begin};
use mm_base::text::Text;
use mm_c::tree::{CCall, CStmt};
use mm_c::value::CCell;
use mm_c_parse::operand::{address, atom};
use mm_c_parse::right::{arguments_end, right};
use mm_c_parse::step::{Stop, ident, marks, skip};
use mm_c_text::class::Class;
use mm_c_text::cursor::Cursor;
use sqlite_items::Boxed;
use std::alloc::Global;

// what follows an array and `[`
fn element_end(alloc: Global, cursor: &mut Cursor<'_>, array: Text) -> Result<CCall, Stop>
    ensures { Answers (element_end array) cursor.old result cursor.new }
{
    let index = ident(alloc, cursor)?;
    marks(cursor, &[Class::CloseBracket])?;
    marks(cursor, &[Class::Open])?;
    let list = arguments_end(alloc, cursor)?;
    Ok(CCall::Element(array, index, list))
}

// what follows the name that a statement begins with
fn after_first(alloc: Global, cursor: &mut Cursor<'_>, first: Text) -> Result<Boxed<CStmt>, Stop>
    ensures { Answers (after_first_of first) cursor.old (seen stmt_view result) cursor.new }
{
    if skip(cursor, Class::Assign) {
        let value = right(alloc, cursor)?;
        return Ok(Boxed::new(alloc, CStmt::Assign(first, value))?);
    }
    if skip(cursor, Class::Open) {
        let list = arguments_end(alloc, cursor)?;
        return Ok(Boxed::new(alloc, CStmt::Call(CCall::Named(first, list)))?);
    }
    marks(cursor, &[Class::OpenBracket])?;
    let call = element_end(alloc, cursor, first)?;
    Ok(Boxed::new(alloc, CStmt::Call(call))?)
}

/// What follows the name that a statement begins with, and the `;`.
#[inline(never)]
pub fn simple_end(alloc: Global, cursor: &mut Cursor<'_>, first: Text) -> Result<Boxed<CStmt>, Stop>
    ensures { Answers (simple_end first) cursor.old (seen stmt_view result) cursor.new }
{
    let stmt = after_first(alloc, cursor, first)?;
    marks(cursor, &[Class::Semicolon])?;
    Ok(stmt)
}

// the cell of a store
fn store_cell(cursor: &mut Cursor<'_>) -> Result<CCell, Stop>
    ensures { Answers grammar.store_cell cursor.old result cursor.new }
{
    if skip(cursor, Class::Int) {
        return Ok(CCell::Int);
    }
    if skip(cursor, Class::Unsigned) {
        if skip(cursor, Class::Short) {
            return Ok(CCell::Short);
        }
        return Ok(CCell::Unsigned);
    }
    marks(cursor, &[Class::Char, Class::Star])?;
    Ok(CCell::Pointer)
}

/// What follows the `*` of a store.
#[inline(never)]
pub fn store_end(alloc: Global, cursor: &mut Cursor<'_>) -> Result<Boxed<CStmt>, Stop>
    ensures { Answers store_end cursor.old (seen stmt_view result) cursor.new }
{
    marks(cursor, &[Class::Open])?;
    let cell = store_cell(cursor)?;
    let place = address(alloc, cursor)?;
    marks(cursor, &[Class::Assign])?;
    let value = atom(alloc, cursor)?;
    marks(cursor, &[Class::Semicolon])?;
    Ok(Boxed::new(alloc, CStmt::Store(cell, place, value))?)
}

// what follows `return`
fn return_end(alloc: Global, cursor: &mut Cursor<'_>) -> Result<Boxed<CStmt>, Stop>
    ensures { Answers return_end cursor.old (seen stmt_view result) cursor.new }
{
    if skip(cursor, Class::Semicolon) {
        return Ok(Boxed::new(alloc, CStmt::Return)?);
    }
    let value = atom(alloc, cursor)?;
    marks(cursor, &[Class::Semicolon])?;
    Ok(Boxed::new(alloc, CStmt::ReturnValue(value))?)
}

/// A `break`, a `continue` or a `return`.
#[inline(never)]
pub fn jump(
    alloc: Global,
    cursor: &mut Cursor<'_>,
    places: &mut Places,
) -> Result<Boxed<CStmt>, Stop>
    ensures { Gathers stmt_view jump cursor.old places.old result places.new cursor.new }
{
    if begin(cursor, places, Class::Break)? {
        marks(cursor, &[Class::Semicolon])?;
        return Ok(Boxed::new(alloc, CStmt::Break)?);
    }
    if begin(cursor, places, Class::Continue)? {
        marks(cursor, &[Class::Semicolon])?;
        return Ok(Boxed::new(alloc, CStmt::Continue)?);
    }
    if begin(cursor, places, Class::Return)? {
        return return_end(alloc, cursor);
    }
    Err(Stop::Fault)
}
