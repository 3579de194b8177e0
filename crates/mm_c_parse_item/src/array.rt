// Arrays.

ghost use Rattle.std.specs.Prelude.{◌≡◌};
ghost use Rattle.mm_c.specs.Grammar as grammar;
ghost use Rattle.mm_c.specs.Grammar.{listed};
ghost use Rattle.mm_c.specs.View.{item_view};
ghost use Rattle.mm_c_parse.specs.Steps.{Answers, seen};
ghost use Rattle.mm_c_parse_item.specs.Parts.{array_length, array_type, elements};

use mm_base::text::Text;
use mm_c::tree::{CArray, CElement, CItem, CNumber};
use mm_c_parse::list::{push, single};
use mm_c_parse::step::{Stop, eat_name, eat_number, ident, marks, number, skip, text_of, value_of};
use mm_c_text::class::Class;
use mm_c_text::cursor::Cursor;
use sqlite_items::Items;
use std::alloc::Global;

// an element
fn element(alloc: Global, cursor: &mut Cursor<'_>) -> Result<CElement, Stop>
    ensures { Answers grammar.element cursor.old result cursor.new }
{
    if let Some(word) = eat_name(cursor) {
        return Ok(CElement::Name(text_of(alloc, word)?));
    }
    if let Some(word) = eat_number(cursor) {
        return Ok(CElement::Number(value_of(word)));
    }
    marks(cursor, &[Class::Minus])?;
    let value = number(cursor)?;
    Ok(CElement::Negative(value))
}

// elements, joined by commas
fn element_list(alloc: Global, cursor: &mut Cursor<'_>) -> Result<Items<CElement>, Stop>
    ensures { Answers (listed grammar.element) cursor.old result cursor.new }
{
    let first = element(alloc, cursor)?;
    let mut list = single(alloc, first)?;
    while skip(cursor, Class::Comma) {
        let next = element(alloc, cursor)?;
        push(&mut list, next)?;
    }
    Ok(list)
}

// the name of the type of functions, or `long`
fn array_type(alloc: Global, cursor: &mut Cursor<'_>) -> Result<Option<Text>, Stop>
    ensures { Answers array_type cursor.old result cursor.new }
{
    if skip(cursor, Class::Long) {
        return Ok(None);
    }
    let name = ident(alloc, cursor)?;
    Ok(Some(name))
}

// a number in brackets
fn array_length(cursor: &mut Cursor<'_>) -> Result<CNumber, Stop>
    ensures { Answers array_length cursor.old result cursor.new }
{
    marks(cursor, &[Class::OpenBracket])?;
    let length = number(cursor)?;
    marks(cursor, &[Class::CloseBracket])?;
    Ok(length)
}

// elements in braces
fn elements(alloc: Global, cursor: &mut Cursor<'_>) -> Result<Items<CElement>, Stop>
    ensures { Answers elements cursor.old result cursor.new }
{
    marks(cursor, &[Class::Assign, Class::OpenBrace])?;
    let list = element_list(alloc, cursor)?;
    marks(cursor, &[Class::CloseBrace, Class::Semicolon])?;
    Ok(list)
}

/// What follows `static const`.
pub fn array(alloc: Global, cursor: &mut Cursor<'_>) -> Result<CItem, Stop>
    ensures { Answers grammar.array_rule cursor.old (seen item_view result) cursor.new }
{
    let functions = array_type(alloc, cursor)?;
    let name = ident(alloc, cursor)?;
    let length = array_length(cursor)?;
    let elements = elements(alloc, cursor)?;
    Ok(CItem::Array(CArray {
        functions,
        name,
        length,
        elements,
    }))
}
