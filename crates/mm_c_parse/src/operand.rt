// Operands, their operators, and the places of cells.

ghost use Rattle.std.specs.Prelude.{◌≡◌};
ghost use Rattle.mm_c.specs.Grammar as grammar;
ghost use Rattle.mm_c_parse.specs.Steps.{Answers};

use crate::step::{Stop, eat_name, eat_number, ident, marks, number, skip, text_of, value_of};
use mm_c::tree::{CAddress, CAtom};
use mm_c::value::CCell;
use mm_c_text::class::Class;
use mm_c_text::cursor::Cursor;
use std::alloc::Global;

/// An operand.
pub fn atom(alloc: Global, cursor: &mut Cursor<'_>) -> Result<CAtom, Stop>
    ensures { Answers grammar.atom cursor.old result cursor.new }
{
    if let Some(word) = eat_name(cursor) {
        return Ok(CAtom::Name(text_of(alloc, word)?));
    }
    if let Some(word) = eat_number(cursor) {
        return Ok(CAtom::Number(value_of(word)));
    }
    if skip(cursor, Class::Minus) {
        let value = number(cursor)?;
        return Ok(CAtom::Negative(value));
    }
    marks(
        cursor,
        &[
            Class::Open,
            Class::Minus,
            Class::Largest,
            Class::Minus,
            Class::One,
            Class::Close,
        ],
    )?;
    Ok(CAtom::Least)
}

/// What follows the cell of a load or a store: a pointer and an offset past it.
pub fn address(alloc: Global, cursor: &mut Cursor<'_>) -> Result<CAddress, Stop>
    ensures { Answers grammar.address cursor.old result cursor.new }
{
    marks(cursor, &[Class::Star, Class::Close, Class::Open])?;
    let pointer = ident(alloc, cursor)?;
    marks(cursor, &[Class::Plus])?;
    let offset = number(cursor)?;
    marks(cursor, &[Class::Close])?;
    Ok(CAddress { pointer, offset })
}

/// A tag: an address behind the type of its cell.
pub fn tag(alloc: Global, cursor: &mut Cursor<'_>) -> Result<CAddress, Stop>
    ensures { Answers grammar.tag cursor.old result cursor.new }
{
    marks(
        cursor,
        &[Class::Star, Class::Open, Class::Unsigned, Class::Short],
    )?;
    address(alloc, cursor)
}

/// The cell of a load.
pub fn load_cell(cursor: &mut Cursor<'_>) -> Result<CCell, Stop>
    ensures { Answers grammar.load_cell cursor.old result cursor.new }
{
    if skip(cursor, Class::Int) {
        return Ok(CCell::Int);
    }
    if skip(cursor, Class::Unsigned) {
        return Ok(CCell::Unsigned);
    }
    marks(cursor, &[Class::Char, Class::Star])?;
    Ok(CCell::Pointer)
}
