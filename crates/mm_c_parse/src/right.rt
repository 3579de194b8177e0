// Right sides of assignments, and calls.

ghost use Rattle.std.specs.Prelude.{◌≡◌};
ghost use Rattle.mm_grammar.specs.Grammar.{name};
ghost use Rattle.mm_c.specs.Grammar as grammar;
ghost use Rattle.mm_c.specs.Grammar.{listed};
ghost use Rattle.mm_c_text.specs.Cursor.{Eats};
ghost use Rattle.mm_c_parse.specs.Steps.{Answers};
ghost use Rattle.mm_c_parse.specs.Parts.{arguments_end, after_name_of, closed_name, closed_tag, index_end, indexed_of, negated, operated_of, signs, operator_of};

use crate::list::{push, single};
use crate::operand::{address, atom, load_cell, tag};
use crate::step::{Stop, eat_name, eat_number, ident, marks, number, skip, text_of, value_of};
use mm_base::text::Text;
use mm_c::tree::{CAddress, CAtom, CCall, CExpr, CIndex, COperator};
use mm_c_text::class::Class;
use mm_c_text::cursor::{Cursor, Lexeme};
use sqlite_items::Items;
use std::alloc::Global;

/// Takes the next token where it is an operator.
pub fn eat_sign<'a>(cursor: &mut Cursor<'a>) -> Option<Lexeme<'a>>
    ensures { Eats signs cursor.old result cursor.new }
{
    cursor.eat(&[
        Class::Star,
        Class::Plus,
        Class::Minus,
        Class::Slash,
        Class::Percent,
        Class::Less,
        Class::Greater,
        Class::LessEqual,
        Class::GreaterEqual,
        Class::EqualEqual,
        Class::NotEqual,
    ])
}

/// The operator of this class, `!=` where it is none.
pub fn operator(class: Class) -> COperator
    ensures { result ≡ operator_of class }
{
    match class {
        Class::Star => COperator::Multiply,
        Class::Plus => COperator::Add,
        Class::Minus => COperator::Subtract,
        Class::Slash => COperator::Divide,
        Class::Percent => COperator::Remainder,
        Class::Less => COperator::Less,
        Class::Greater => COperator::Greater,
        Class::LessEqual => COperator::LessEqual,
        Class::GreaterEqual => COperator::GreaterEqual,
        Class::EqualEqual => COperator::Equal,
        _ => COperator::NotEqual,
    }
}

// operands, joined by commas
fn list(alloc: Global, cursor: &mut Cursor<'_>) -> Result<Items<CAtom>, Stop>
    ensures { Answers (listed grammar.atom) cursor.old result cursor.new }
{
    let first = atom(alloc, cursor)?;
    let mut list = single(alloc, first)?;
    while skip(cursor, Class::Comma) {
        let next = atom(alloc, cursor)?;
        push(&mut list, next)?;
    }
    Ok(list)
}

/// Arguments behind a `(`, and the `)`.
pub fn arguments_end(alloc: Global, cursor: &mut Cursor<'_>) -> Result<Items<CAtom>, Stop>
    ensures { Answers arguments_end cursor.old result cursor.new }
{
    if skip(cursor, Class::Close) {
        let none = Items::new(alloc);
        return Ok(none);
    }
    let list = list(alloc, cursor)?;
    marks(cursor, &[Class::Close])?;
    Ok(list)
}

/// What may follow a first operand that is no name.
pub fn operated(alloc: Global, cursor: &mut Cursor<'_>, first: CAtom) -> Result<CExpr, Stop>
    ensures { Answers (operated_of first) cursor.old result cursor.new }
{
    if let Some(sign) = eat_sign(cursor) {
        let second = atom(alloc, cursor)?;
        return Ok(CExpr::Binary(first, operator(sign.class), second));
    }
    Ok(CExpr::Atom(first))
}

// a tag and the `]` behind it
fn closed_tag(alloc: Global, cursor: &mut Cursor<'_>) -> Result<CAddress, Stop>
    ensures { Answers closed_tag cursor.old result cursor.new }
{
    let place = tag(alloc, cursor)?;
    marks(cursor, &[Class::CloseBracket])?;
    Ok(place)
}

// what follows an array and an index in brackets
fn index_end(
    alloc: Global,
    cursor: &mut Cursor<'_>,
    array: Text,
    index: Text,
) -> Result<CExpr, Stop>
    ensures { Answers (index_end array index) cursor.old result cursor.new }
{
    if skip(cursor, Class::Open) {
        let list = arguments_end(alloc, cursor)?;
        return Ok(CExpr::Call(CCall::Element(array, index, list)));
    }
    Ok(CExpr::Index(array, CIndex::Name(index)))
}

/// What follows the `[` behind a name.
pub fn indexed(alloc: Global, cursor: &mut Cursor<'_>, array: Text) -> Result<CExpr, Stop>
    ensures { Answers (indexed_of array) cursor.old result cursor.new }
{
    if let Some(word) = eat_name(cursor) {
        let index = text_of(alloc, word)?;
        marks(cursor, &[Class::CloseBracket])?;
        return index_end(alloc, cursor, array, index);
    }
    let place = closed_tag(alloc, cursor)?;
    Ok(CExpr::Index(array, CIndex::Tag(place)))
}

/// What may follow a name on a right side.
pub fn after_name(alloc: Global, cursor: &mut Cursor<'_>, first: Text) -> Result<CExpr, Stop>
    ensures { Answers (after_name_of first) cursor.old result cursor.new }
{
    if let Some(sign) = eat_sign(cursor) {
        let second = atom(alloc, cursor)?;
        return Ok(CExpr::Binary(CAtom::Name(first), operator(sign.class), second));
    }
    if skip(cursor, Class::Open) {
        let list = arguments_end(alloc, cursor)?;
        return Ok(CExpr::Call(CCall::Named(first, list)));
    }
    if skip(cursor, Class::OpenBracket) {
        return indexed(alloc, cursor, first);
    }
    Ok(CExpr::Atom(CAtom::Name(first)))
}

// what follows a type in parentheses, up to the name that is converted
fn closed_name(alloc: Global, cursor: &mut Cursor<'_>) -> Result<Text, Stop>
    ensures { Answers closed_name cursor.old result cursor.new }
{
    marks(cursor, &[Class::Close])?;
    ident(alloc, cursor)
}

/// What may follow a `(` on a right side.
pub fn after_open(alloc: Global, cursor: &mut Cursor<'_>) -> Result<CExpr, Stop>
    ensures { Answers grammar.after_open cursor.old result cursor.new }
{
    if skip(cursor, Class::Int) {
        let signed = closed_name(alloc, cursor)?;
        return Ok(CExpr::ToInt(signed));
    }
    if skip(cursor, Class::Unsigned) {
        let unsigned = closed_name(alloc, cursor)?;
        return Ok(CExpr::ToUnsigned(unsigned));
    }
    marks(
        cursor,
        &[
            Class::Minus,
            Class::Largest,
            Class::Minus,
            Class::One,
            Class::Close,
        ],
    )?;
    operated(alloc, cursor, CAtom::Least)
}

// what follows a `-` on a right side
fn negated(alloc: Global, cursor: &mut Cursor<'_>) -> Result<CExpr, Stop>
    ensures { Answers negated cursor.old result cursor.new }
{
    let value = number(cursor)?;
    operated(alloc, cursor, CAtom::Negative(value))
}

/// The right side of an assignment.
pub fn right(alloc: Global, cursor: &mut Cursor<'_>) -> Result<CExpr, Stop>
    ensures { Answers (name grammar.right) cursor.old result cursor.new }
{
    if let Some(word) = eat_name(cursor) {
        let first = text_of(alloc, word)?;
        return after_name(alloc, cursor, first);
    }
    if let Some(word) = eat_number(cursor) {
        return operated(alloc, cursor, CAtom::Number(value_of(word)));
    }
    if skip(cursor, Class::Minus) {
        return negated(alloc, cursor);
    }
    if skip(cursor, Class::Open) {
        return after_open(alloc, cursor);
    }
    marks(cursor, &[Class::Star, Class::Open])?;
    let cell = load_cell(cursor)?;
    let place = address(alloc, cursor)?;
    Ok(CExpr::Load(cell, place))
}
