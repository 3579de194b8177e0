// Kinds, results, and what stands in parentheses behind a function's name.

ghost use Rattle.std.specs.Prelude.{◌≡◌};
ghost use Rattle.mm_c.specs.Grammar as grammar;
ghost use Rattle.mm_c.specs.Grammar.{listed};
ghost use Rattle.mm_c_parse.specs.Steps.{Answers, seen};
ghost use Rattle.mm_c_parse_item.specs.Seen.{head_of, kind_place, result_place};

use mm_base::text::Text;
use mm_c::tree::{CKind, CLocal};
use mm_c_parse::list::{push, single};
use mm_c_parse::step::{Stop, ident, marks, skip};
use mm_c_text::class::Class;
use mm_c_text::cursor::Cursor;
use mm_c_text::place::Place;
use sqlite_items::Items;
use std::alloc::Global;

/// A kind, and where it begins.
#[derive(Clone, Copy)]
pub struct PlacedKind {
    pub kind: CKind,
    pub place: Place,
}

/// The kind of a result, which is none for `void`, and where it begins.
#[derive(Clone, Copy)]
pub struct PlacedResult {
    pub kind: Option<CKind>,
    pub place: Place,
}

/// The name and the parameters of a function.
#[derive(Drop)]
pub struct FunctionHead {
    pub name: Text,
    pub params: Items<CLocal>,
}

/// A kind, and where it begins.
pub fn kind_at(cursor: &mut Cursor<'_>) -> Result<PlacedKind, Stop>
    ensures { Answers grammar.kind_at cursor.old (seen kind_place result) cursor.new }
{
    if let Some(word) = cursor.eat(&[Class::Int]) {
        return Ok(PlacedKind {
            kind: CKind::Int,
            place: word.place,
        });
    }
    if let Some(word) = cursor.eat(&[Class::Unsigned]) {
        return Ok(PlacedKind {
            kind: CKind::Unsigned,
            place: word.place,
        });
    }
    if let Some(word) = cursor.eat(&[Class::Long]) {
        return Ok(PlacedKind {
            kind: CKind::Long,
            place: word.place,
        });
    }
    let Some(word) = cursor.eat(&[Class::Char]) else {
        return Err(Stop::Fault);
    };
    marks(cursor, &[Class::Star])?;
    Ok(PlacedKind {
        kind: CKind::Pointer,
        place: word.place,
    })
}

/// A kind.
pub fn kind(cursor: &mut Cursor<'_>) -> Result<CKind, Stop>
    ensures { Answers grammar.kind cursor.old result cursor.new }
{
    let placed = kind_at(cursor)?;
    Ok(placed.kind)
}

/// The kind of a result, and where it begins.
pub fn result_at(cursor: &mut Cursor<'_>) -> Result<PlacedResult, Stop>
    ensures { Answers grammar.result_at cursor.old (seen result_place result) cursor.new }
{
    if let Some(word) = cursor.eat(&[Class::Void]) {
        return Ok(PlacedResult {
            kind: None,
            place: word.place,
        });
    }
    let placed = kind_at(cursor)?;
    Ok(PlacedResult {
        kind: Some(placed.kind),
        place: placed.place,
    })
}

/// The kind of a result.
pub fn result(cursor: &mut Cursor<'_>) -> Result<Option<CKind>, Stop>
    ensures { Answers grammar.result cursor.old result cursor.new }
{
    let placed = result_at(cursor)?;
    Ok(placed.kind)
}

// kinds, joined by commas
fn kind_list(alloc: Global, cursor: &mut Cursor<'_>) -> Result<Items<CKind>, Stop>
    ensures { Answers (listed grammar.kind) cursor.old result cursor.new }
{
    let first = kind(cursor)?;
    let mut list = single(alloc, first)?;
    while skip(cursor, Class::Comma) {
        let next = kind(cursor)?;
        push(&mut list, next)?;
    }
    Ok(list)
}

/// What stands between the parentheses of a typedef.
pub fn kinds(alloc: Global, cursor: &mut Cursor<'_>) -> Result<Items<CKind>, Stop>
    ensures { Answers grammar.kinds cursor.old result cursor.new }
{
    if skip(cursor, Class::Void) {
        return Ok(Items::new(alloc));
    }
    kind_list(alloc, cursor)
}

// a parameter
fn named(alloc: Global, cursor: &mut Cursor<'_>) -> Result<CLocal, Stop>
    ensures { Answers grammar.named cursor.old result cursor.new }
{
    let kind = kind(cursor)?;
    let name = ident(alloc, cursor)?;
    Ok(CLocal { kind, name })
}

// parameters, joined by commas
fn named_list(alloc: Global, cursor: &mut Cursor<'_>) -> Result<Items<CLocal>, Stop>
    ensures { Answers (listed grammar.named) cursor.old result cursor.new }
{
    let first = named(alloc, cursor)?;
    let mut list = single(alloc, first)?;
    while skip(cursor, Class::Comma) {
        let next = named(alloc, cursor)?;
        push(&mut list, next)?;
    }
    Ok(list)
}

/// Parameters, or `void`.
pub fn params(alloc: Global, cursor: &mut Cursor<'_>) -> Result<Items<CLocal>, Stop>
    ensures { Answers grammar.params cursor.old result cursor.new }
{
    if skip(cursor, Class::Void) {
        return Ok(Items::new(alloc));
    }
    named_list(alloc, cursor)
}

/// The name and the parameters of a function.
pub fn head(alloc: Global, cursor: &mut Cursor<'_>) -> Result<FunctionHead, Stop>
    ensures { Answers grammar.head cursor.old (seen head_of result) cursor.new }
{
    let name = ident(alloc, cursor)?;
    marks(cursor, &[Class::Open])?;
    let params = params(alloc, cursor)?;
    marks(cursor, &[Class::Close])?;
    Ok(FunctionHead { name, params })
}
