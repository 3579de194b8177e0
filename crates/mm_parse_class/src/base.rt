// The bases of classes.

ghost use Rattle.std.specs.Prelude.{◌≡◌, ◌≤◌, length};
ghost use Rattle.mm_cursor.specs.Cursor.{Answers};
ghost use Rattle.mm_syntax.specs.Rules as rules;
ghost use Rattle.mm_parse_class.specs.Parts.{base_list, virtual_base, access_base};

use crate::{ahead, build};
use mm_cursor::{Cursor, Stop};
use mm_syntax::decl::Base;
use mm_syntax::symbol::Symbol;
use mm_syntax::taken;
use mm_token::token::Token;
use sqlite_items::{Boxed, Items};
use std::alloc::Global;

/// A class, with `virtual` and an access before it in either order, each of which may be left out.
fn base(alloc: Global, cursor: &mut Cursor<'_>) -> Result<Boxed<Base>, Stop>
    ensures reads { Answers rules.base cursor.old result cursor.new }
    ensures shorter { length cursor.new ≤ length cursor.old }
{
    if let Some(class) = cursor.eat(&[Symbol::Class]) {
        return Ok(build::base(alloc, None, None, class)?);
    }
    if let Some(word) = cursor.eat(&[Symbol::Virtual]) {
        return virtual_base(alloc, cursor, word);
    }
    access_base(alloc, cursor)
}

/// What follows a `virtual` that comes first.
fn virtual_base(alloc: Global, cursor: &mut Cursor<'_>, word: &Token) -> Result<Boxed<Base>, Stop>
    ensures reads { Answers (virtual_base word.now) cursor.old result cursor.new }
    ensures shorter { length cursor.new ≤ length cursor.old }
{
    let access = ahead::access(cursor);
    let class = cursor.take(&[Symbol::Class])?;
    Ok(build::base(alloc, Some(word.place), access, class)?)
}

/// A base that begins with its access.
fn access_base(alloc: Global, cursor: &mut Cursor<'_>) -> Result<Boxed<Base>, Stop>
    ensures reads { Answers access_base cursor.old result cursor.new }
    ensures shorter { length cursor.new ≤ length cursor.old }
{
    let word = cursor.take(&[Symbol::Public, Symbol::Protected, Symbol::Private])?;
    let virtual_at = ahead::virtual_word(cursor);
    let class = cursor.take(&[Symbol::Class])?;
    Ok(build::base(alloc, virtual_at, Some(taken::access_word(word)), class)?)
}

/// Bases with a comma between each two.
pub fn base_list(alloc: Global, cursor: &mut Cursor<'_>) -> Result<Items<Base>, Stop>
    ensures reads { Answers base_list cursor.old result cursor.new }
    ensures shorter { length cursor.new ≤ length cursor.old }
{
    let first = base(alloc, cursor)?;
    let mut list = build::single_base(alloc, first)?;
    while cursor.eat(&[Symbol::Comma]).is_some() {
        let next = base(alloc, cursor)?;
        build::push_base(&mut list, next)?;
    }
    Ok(list)
}
