// Items.

ghost use Rattle.std.specs.Prelude.{◌≡◌};
ghost use Rattle.mm_grammar.specs.Grammar.{name};
ghost use Rattle.mm_c.specs.Grammar as grammar;
ghost use Rattle.mm_c.specs.View.{item_view};
ghost use Rattle.mm_c_text.specs.Cursor.{Sees};
ghost use Rattle.mm_c_parse.specs.Steps.{Answers, seen};
ghost use Rattle.mm_c_parse_stmt.specs.Gathers.{Gathers};
ghost use Rattle.mm_c_parse_item.specs.Parts.{after_head, item_firsts, public_function, static_end, static_or_inline};
ghost use Rattle.mm_c_parse_item.specs.Seen.{head_of};

use crate::array::array;
use crate::kind::{FunctionHead, head, kinds, result, result_at};
use mm_base::limits::MAX_C_NESTING;
use mm_c::tree::{CFn, CItem, CKind, CLinkage, CProto, CTypedef};
use mm_c_parse::step::{Stop, ident, marks, skip};
use mm_c_parse_stmt::places::{Places, begin};
use mm_c_parse_stmt::stmt::block;
use mm_c_text::class::Class;
use mm_c_text::cursor::Cursor;
use std::alloc::Global;

/// Whether an item stands next.
pub fn sees_item(cursor: &Cursor<'_>) -> bool
    ensures { Sees item_firsts cursor.now result }
{
    cursor.sees(&[
        Class::Typedef,
        Class::Static,
        Class::Void,
        Class::Int,
        Class::Unsigned,
        Class::Long,
        Class::Char,
    ])
}

// what follows `typedef`
fn typedef(alloc: Global, cursor: &mut Cursor<'_>) -> Result<CItem, Stop>
    ensures { Answers grammar.typedef_rule cursor.old (seen item_view result) cursor.new }
{
    let result = result(cursor)?;
    marks(cursor, &[Class::Open, Class::Star])?;
    let name = ident(alloc, cursor)?;
    marks(cursor, &[Class::Close])?;
    marks(cursor, &[Class::Open])?;
    let kinds = kinds(alloc, cursor)?;
    marks(cursor, &[Class::Close, Class::Semicolon])?;
    Ok(CItem::Typedef(CTypedef {
        result,
        name,
        kinds,
    }))
}

// the words before a function with `static`
fn static_linkage(is_inline: bool) -> CLinkage
    ensures { result ≡ static_or_inline is_inline }
{
    if is_inline {
        CLinkage::StaticInline
    } else {
        CLinkage::Static
    }
}

// what follows the head of a function behind `static`
fn after_head(
    alloc: Global,
    cursor: &mut Cursor<'_>,
    places: &mut Places,
    is_inline: bool,
    kind: Option<CKind>,
    head: FunctionHead,
) -> Result<CItem, Stop>
    ensures { Gathers item_view (after_head is_inline kind (head_of head)) cursor.old places.old result places.new cursor.new }
{
    let FunctionHead { name, params } = head;
    if skip(cursor, Class::Semicolon) {
        return Ok(CItem::Proto(CProto {
            is_inline,
            result: kind,
            name,
            params,
        }));
    }
    let body = block(alloc, cursor, places, MAX_C_NESTING)?;
    let linkage = static_linkage(is_inline);
    Ok(CItem::Function(CFn {
        linkage,
        result: kind,
        name,
        params,
        body: body.into_inner(),
    }))
}

// what follows `static`
fn static_end(alloc: Global, cursor: &mut Cursor<'_>, places: &mut Places) -> Result<CItem, Stop>
    ensures { Gathers item_view static_end cursor.old places.old result places.new cursor.new }
{
    if skip(cursor, Class::Const) {
        return array(alloc, cursor);
    }
    let is_inline = skip(cursor, Class::Inline);
    let kind = result(cursor)?;
    let head = head(alloc, cursor)?;
    after_head(alloc, cursor, places, is_inline, kind, head)
}

// a function without `static`
fn public_function(
    alloc: Global,
    cursor: &mut Cursor<'_>,
    places: &mut Places,
) -> Result<CItem, Stop>
    ensures { Gathers item_view public_function cursor.old places.old result places.new cursor.new }
{
    let result = result_at(cursor)?;
    let FunctionHead { name, params } = head(alloc, cursor)?;
    places.push(result.place)?;
    let body = block(alloc, cursor, places, MAX_C_NESTING)?;
    Ok(CItem::Function(CFn {
        linkage: CLinkage::Public,
        result: result.kind,
        name,
        params,
        body: body.into_inner(),
    }))
}

/// An item. Its place is added before those of the statements in it.
pub fn item(alloc: Global, cursor: &mut Cursor<'_>, places: &mut Places) -> Result<CItem, Stop>
    ensures { Gathers item_view (name grammar.item) cursor.old places.old result places.new cursor.new }
{
    if begin(cursor, places, Class::Typedef)? {
        return typedef(alloc, cursor);
    }
    if begin(cursor, places, Class::Static)? {
        return static_end(alloc, cursor, places);
    }
    public_function(alloc, cursor, places)
}
