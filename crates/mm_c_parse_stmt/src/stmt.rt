// Statements and blocks.

ghost use Rattle.std.specs.Prelude.{◌≡◌};
ghost use Rattle.mm_grammar.specs.Grammar.{name};
ghost use Rattle.mm_c.specs.Grammar as grammar;
ghost use Rattle.mm_c.specs.View.{block_view, code_view, stmt_view};
ghost use Rattle.mm_c_text.specs.Cursor.{Sees};
ghost use Rattle.mm_c_parse.specs.Steps.{Answers};
ghost use Rattle.mm_c_parse_stmt.specs.Gathers.{Gathers};
ghost use Rattle.mm_c_parse_stmt.specs.Parts.{enclosed, if_end, stmt_firsts, stmts, while_end};

use crate::build;
use crate::local::locals;
use crate::places::{Places, begin};
use crate::simple::{jump, simple_end, store_end};
use mm_c::tree::{CAtom, CBlock, CStmt};
use mm_c_parse::operand::atom;
use mm_c_parse::step::{Stop, eat_name, marks, skip, text_of};
use mm_c_text::class::Class;
use mm_c_text::cursor::Cursor;
use sqlite_items::{Boxed, Items};
use std::alloc::Global;

/// Whether a statement stands next.
pub fn sees_stmt(cursor: &Cursor<'_>) -> bool
    ensures { Sees stmt_firsts cursor.now result }
{
    cursor.sees(&[
        Class::Name,
        Class::Put,
        Class::Get,
        Class::More,
        Class::Trap,
        Class::New,
        Class::Star,
        Class::If,
        Class::While,
        Class::Break,
        Class::Continue,
        Class::Return,
    ])
}

// an operand in parentheses
#[inline(never)]
fn enclosed(alloc: Global, cursor: &mut Cursor<'_>) -> Result<CAtom, Stop>
    ensures { Answers enclosed cursor.old result cursor.new }
{
    marks(cursor, &[Class::Open])?;
    let value = atom(alloc, cursor)?;
    marks(cursor, &[Class::Close])?;
    Ok(value)
}

/// A block. So many may stand one inside the other, this one counted; at 0 none is read.
#[cycle(block)]
pub fn block(
    alloc: Global,
    cursor: &mut Cursor<'_>,
    places: &mut Places,
    depth: usize,
) -> Result<Boxed<CBlock>, Stop>
    ensures { Gathers block_view (name (grammar.block depth)) cursor.old places.old result places.new cursor.new }
{
    if depth == 0 {
        return Err(Stop::Fault);
    }
    marks(cursor, &[Class::OpenBrace])?;
    let locals = locals(alloc, cursor)?;
    let body = stmts(alloc, cursor, places, depth - 1)?;
    marks(cursor, &[Class::CloseBrace])?;
    Ok(build::block(alloc, locals, body)?)
}

/// Statements, one after another, in which so many blocks may stand one inside the other.
#[cycle(block)]
fn stmts(
    alloc: Global,
    cursor: &mut Cursor<'_>,
    places: &mut Places,
    depth: usize,
) -> Result<Items<CStmt>, Stop>
    ensures { Gathers code_view (stmts depth) cursor.old places.old result places.new cursor.new }
{
    let mut list = Items::new(alloc);
    while sees_stmt(cursor) {
        let next = stmt(alloc, cursor, places, depth)?;
        build::push(&mut list, next)?;
    }
    Ok(list)
}

/// A statement.
#[cycle(block)]
fn stmt(
    alloc: Global,
    cursor: &mut Cursor<'_>,
    places: &mut Places,
    depth: usize,
) -> Result<Boxed<CStmt>, Stop>
    ensures { Gathers stmt_view (name (grammar.stmt depth)) cursor.old places.old result places.new cursor.new }
{
    if let Some(word) = eat_name(cursor) {
        places.push(word.place)?;
        let first = text_of(alloc, word)?;
        return simple_end(alloc, cursor, first);
    }
    if begin(cursor, places, Class::Star)? {
        return store_end(alloc, cursor);
    }
    if begin(cursor, places, Class::If)? {
        return if_end(alloc, cursor, places, depth);
    }
    if begin(cursor, places, Class::While)? {
        return while_end(alloc, cursor, places, depth);
    }
    jump(alloc, cursor, places)
}

/// What follows `if`.
#[cycle(block)]
fn if_end(
    alloc: Global,
    cursor: &mut Cursor<'_>,
    places: &mut Places,
    depth: usize,
) -> Result<Boxed<CStmt>, Stop>
    ensures { Gathers stmt_view (if_end depth) cursor.old places.old result places.new cursor.new }
{
    let test = enclosed(alloc, cursor)?;
    let body = block(alloc, cursor, places, depth)?;
    if skip(cursor, Class::Else) {
        let other = block(alloc, cursor, places, depth)?;
        return Ok(build::if_else(alloc, test, body, other)?);
    }
    Ok(build::if_only(alloc, test, body)?)
}

/// What follows `while`.
#[cycle(block)]
fn while_end(
    alloc: Global,
    cursor: &mut Cursor<'_>,
    places: &mut Places,
    depth: usize,
) -> Result<Boxed<CStmt>, Stop>
    ensures { Gathers stmt_view (while_end depth) cursor.old places.old result places.new cursor.new }
{
    marks(cursor, &[Class::Open, Class::One, Class::Close])?;
    let body = block(alloc, cursor, places, depth)?;
    Ok(build::forever(alloc, body)?)
}
