// What stands in the braces of a class.

ghost use Rattle.std.specs.Prelude.{◌≡◌, ◌≤◌, length};
ghost use Rattle.mm_grammar.specs.Grammar.{name, give};
ghost use Rattle.mm_cursor.specs.Cursor.{Answers};
ghost use Rattle.mm_syntax.specs.BuiltDeclarations as bd;
ghost use Rattle.mm_syntax.specs.Rules as rules;
ghost use Rattle.mm_parse_class.specs.Parts.{access_item, virtual_item, destructor_item, class_item, typed_item, members};

use crate::{build, ending, member};
use mm_cursor::{Cursor, Stop};
use mm_parse_var::types;
use mm_syntax::decl::Member;
use mm_syntax::symbol::Symbol;
use mm_token::token::Token;
use sqlite_items::{Boxed, Items};
use std::alloc::Global;

/// What follows an access that begins a part of the class.
fn access_item(alloc: Global, cursor: &mut Cursor<'_>, word: &Token) -> Result<Boxed<Member>, Stop>
    ensures reads { Answers (access_item word.now) cursor.old result cursor.new }
    ensures shorter { length cursor.new ≤ length cursor.old }
{
    cursor.take(&[Symbol::Colon])?;
    Ok(build::access_member(alloc, word)?)
}

/// What follows `virtual` at the start of a member.
fn virtual_item(
    alloc: Global,
    cursor: &mut Cursor<'_>,
    word: &Token,
    nesting: usize,
) -> Result<Boxed<Member>, Stop>
    ensures reads { Answers (virtual_item word.now nesting) cursor.old result cursor.new }
    ensures shorter { length cursor.new ≤ length cursor.old }
{
    let tail = member::after_virtual(alloc, cursor, nesting)?;
    Ok(build::virtual_member(alloc, word, tail)?)
}

/// What follows `~` at the start of a member.
fn destructor_item(
    alloc: Global,
    cursor: &mut Cursor<'_>,
    tilde: &Token,
) -> Result<Boxed<Member>, Stop>
    ensures reads { Answers (destructor_item tilde.now) cursor.old result cursor.new }
    ensures shorter { length cursor.new ≤ length cursor.old }
{
    let tail = ending::destructor(alloc, cursor, tilde)?;
    Ok(build::destructor(alloc, tail)?)
}

/// What follows a class at the start of a member.
fn class_item(
    alloc: Global,
    cursor: &mut Cursor<'_>,
    class: &Token,
    nesting: usize,
) -> Result<Boxed<Member>, Stop>
    ensures reads { Answers (class_item class.now nesting) cursor.old result cursor.new }
    ensures shorter { length cursor.new ≤ length cursor.old }
{
    let tail = member::after_member_class(alloc, cursor, nesting)?;
    Ok(build::after_in_class(alloc, class, tail)?)
}

/// A member that begins with a type that is no class.
fn typed_item(alloc: Global, cursor: &mut Cursor<'_>, nesting: usize) -> Result<Boxed<Member>, Stop>
    ensures reads { Answers (typed_item nesting) cursor.old result cursor.new }
    ensures shorter { length cursor.new ≤ length cursor.old }
{
    let type_name = types::word_type(alloc, cursor)?;
    let tail = member::member_tail(alloc, cursor, nesting)?;
    Ok(build::typed_member(alloc, type_name, tail)?)
}

/// An access and `:`, or a member. Its first token decides.
fn item(alloc: Global, cursor: &mut Cursor<'_>, nesting: usize) -> Result<Boxed<Member>, Stop>
    ensures reads { Answers (name (rules.item nesting)) cursor.old result cursor.new }
    ensures shorter { length cursor.new ≤ length cursor.old }
{
    if let Some(word) = cursor.eat(&[Symbol::Public, Symbol::Protected, Symbol::Private]) {
        return access_item(alloc, cursor, word);
    }
    if let Some(word) = cursor.eat(&[Symbol::Virtual]) {
        return virtual_item(alloc, cursor, word, nesting);
    }
    if let Some(tilde) = cursor.eat(&[Symbol::Tilde]) {
        return destructor_item(alloc, cursor, tilde);
    }
    if let Some(class) = cursor.eat(&[Symbol::Class]) {
        return class_item(alloc, cursor, class, nesting);
    }
    typed_item(alloc, cursor, nesting)
}

/// What stands in the braces of a class, and `}`.
pub fn members(
    alloc: Global,
    cursor: &mut Cursor<'_>,
    nesting: usize,
) -> Result<Items<Member>, Stop>
    ensures reads { Answers (members nesting) cursor.old result cursor.new }
    ensures shorter { length cursor.new ≤ length cursor.old }
{
    let mut list = Items::new(alloc);
    while cursor.eat(&[Symbol::CloseBrace]).is_none() {
        let next = item(alloc, cursor, nesting)?;
        build::push_member(&mut list, next)?;
    }
    Ok(list)
}

/// `{`, members and `}`.
pub fn items(alloc: Global, cursor: &mut Cursor<'_>, nesting: usize) -> Result<Items<Member>, Stop>
    ensures reads { Answers (rules.items nesting) cursor.old result cursor.new }
    ensures shorter { length cursor.new ≤ length cursor.old }
{
    cursor.take(&[Symbol::OpenBrace])?;
    members(alloc, cursor, nesting)
}
