// The locals of a block.

ghost use Rattle.std.specs.Prelude.{◌≡◌};
ghost use Rattle.mm_grammar.specs.Grammar.{many};
ghost use Rattle.mm_c.specs.Grammar as grammar;
ghost use Rattle.mm_c_text.specs.Classes.{number_of};
ghost use Rattle.mm_c_text.specs.Cursor.{Sees};
ghost use Rattle.mm_c_parse.specs.Steps.{Answers};
ghost use Rattle.mm_c_parse_stmt.specs.Parts.{kinds, local_end};

use mm_c::tree::{CKind, CLocal};
use mm_c_parse::list::push;
use mm_c_parse::step::{Stop, ident, marks, skip};
use mm_c_text::class::Class;
use mm_c_text::cursor::Cursor;
use sqlite_items::Items;
use std::alloc::Global;

/// Whether a kind stands next.
pub fn sees_kind(cursor: &Cursor<'_>) -> bool
    ensures { Sees kinds cursor.now result }
{
    cursor.sees(&[Class::Int, Class::Unsigned, Class::Long, Class::Char])
}

// what follows a kind, whose zero is of this class
fn local_end(
    alloc: Global,
    cursor: &mut Cursor<'_>,
    kind: CKind,
    zero: Class,
) -> Result<CLocal, Stop>
    ensures { Answers (local_end kind (number_of zero)) cursor.old result cursor.new }
{
    let name = ident(alloc, cursor)?;
    marks(cursor, &[Class::Assign, zero, Class::Semicolon])?;
    Ok(CLocal { kind, name })
}

/// A local, with its first value.
pub fn local(alloc: Global, cursor: &mut Cursor<'_>) -> Result<CLocal, Stop>
    ensures { Answers grammar.local cursor.old result cursor.new }
{
    if skip(cursor, Class::Int) {
        return local_end(alloc, cursor, CKind::Int, Class::Zero);
    }
    if skip(cursor, Class::Unsigned) {
        return local_end(alloc, cursor, CKind::Unsigned, Class::ZeroUnsigned);
    }
    if skip(cursor, Class::Long) {
        return local_end(alloc, cursor, CKind::Long, Class::Zero);
    }
    marks(cursor, &[Class::Char, Class::Star])?;
    local_end(alloc, cursor, CKind::Pointer, Class::Zero)
}

/// Locals, one after another.
#[inline(never)]
pub fn locals(alloc: Global, cursor: &mut Cursor<'_>) -> Result<Items<CLocal>, Stop>
    ensures { Answers (many grammar.local) cursor.old result cursor.new }
{
    let mut list = Items::new(alloc);
    while sees_kind(cursor) {
        let next = local(alloc, cursor)?;
        push(&mut list, next)?;
    }
    Ok(list)
}
