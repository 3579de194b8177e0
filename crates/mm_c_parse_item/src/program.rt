// Whole programs.

ghost use Rattle.std.specs.Prelude.{◌≡◌};
ghost use Rattle.mm_grammar.specs.Grammar.{name};
ghost use Rattle.mm_c.specs.Grammar as grammar;
ghost use Rattle.mm_c_parse.specs.Steps.{Answers, Passes};
ghost use Rattle.mm_c_parse_stmt.specs.Gathers.{Gathers};
ghost use Rattle.mm_c_parse_item.specs.Parsed.{placed_in};
ghost use Rattle.mm_c_parse_item.specs.Parts.{items, prelude_classes};
ghost use Rattle.mm_c_parse_item.specs.Seen.{items_view};

use crate::item::{item, sees_item};
use mm_c::tree::{CItem, CProgram};
use mm_c_parse::list::push;
use mm_c_parse::step::{Stop, marks};
use mm_c_parse_stmt::places::Places;
use mm_c_text::class::Class;
use mm_c_text::cursor::Cursor;
use sqlite_items::Items;
use std::alloc::Global;

/// A program, and the places of the first tokens of its items and statements, in the order of the text. An item
/// stands before the statements in it, and a statement before those inside it.
#[derive(Drop)]
pub struct Parsed {
    pub program: CProgram,
    pub places: Places,
}

/// The tokens of the prelude: the heads of `put`, `get`, `more`, `trap` and `new`.
const PRELUDE: [Class; 36] = [
    Class::Extern,
    Class::Void,
    Class::Put,
    Class::Open,
    Class::Int,
    Class::Close,
    Class::Semicolon,
    Class::Extern,
    Class::Int,
    Class::Get,
    Class::Open,
    Class::Void,
    Class::Close,
    Class::Semicolon,
    Class::Extern,
    Class::Int,
    Class::More,
    Class::Open,
    Class::Void,
    Class::Close,
    Class::Semicolon,
    Class::Extern,
    Class::Void,
    Class::Trap,
    Class::Open,
    Class::Int,
    Class::Close,
    Class::Semicolon,
    Class::Extern,
    Class::Char,
    Class::Star,
    Class::New,
    Class::Open,
    Class::Unsigned,
    Class::Close,
    Class::Semicolon,
];

// the functions that a program is given
fn prelude(cursor: &mut Cursor<'_>) -> Result<(), Stop>
    ensures { Passes prelude_classes cursor.old result cursor.new }
{
    marks(cursor, &PRELUDE)
}

// items, one after another
fn items(alloc: Global, cursor: &mut Cursor<'_>, places: &mut Places) -> Result<Items<CItem>, Stop>
    ensures { Gathers items_view items cursor.old places.old result places.new cursor.new }
{
    let mut list = Items::new(alloc);
    while sees_item(cursor) {
        let next = item(alloc, cursor, places)?;
        push(&mut list, next)?;
    }
    Ok(list)
}

/// Reads the longest front of a program. A program may stand before further tokens, which are left then.
pub fn program(alloc: Global, cursor: &mut Cursor<'_>) -> Result<Parsed, Stop>
    ensures { Answers (name grammar.program) cursor.old (placed_in result) cursor.new }
{
    prelude(cursor)?;
    let mut places = Places::new(alloc);
    let items = items(alloc, cursor, &mut places)?;
    Ok(Parsed {
        program: CProgram { items },
        places,
    })
}
