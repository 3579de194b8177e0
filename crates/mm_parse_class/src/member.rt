// Members behind what they begin with.

ghost use Rattle.std.specs.Prelude.{◌≡◌, ◌≤◌, length};
ghost use Rattle.mm_cursor.specs.Cursor.{Answers};
ghost use Rattle.mm_syntax.specs.Rules as rules;
ghost use Rattle.mm_parse_class.specs.Parts.{field, fields, function_end};

use crate::{ahead, build, ending};
use mm_cursor::{Cursor, Stop};
use mm_parse_function::params;
use mm_parse_var::types;
use mm_syntax::decl::FieldName;
use mm_syntax::part::{AfterMemberClass, AfterVirtual, MemberEnd, MemberTail, MethodTail};
use mm_syntax::symbol::Symbol;
use sqlite_items::{Boxed, Items};
use std::alloc::Global;

/// A mark, which may be left out, and a name.
fn field(alloc: Global, cursor: &mut Cursor<'_>) -> Result<Boxed<FieldName>, Stop>
    ensures reads { Answers field cursor.old result cursor.new }
    ensures shorter { length cursor.new ≤ length cursor.old }
{
    let mark = types::mark(cursor)?;
    let word = cursor.take(&[Symbol::Word])?;
    Ok(build::field(alloc, mark, word)?)
}

/// Further fields, each behind a comma, and `;`.
fn fields(alloc: Global, cursor: &mut Cursor<'_>) -> Result<Items<FieldName>, Stop>
    ensures reads { Answers fields cursor.old result cursor.new }
    ensures shorter { length cursor.new ≤ length cursor.old }
{
    let mut list = Items::new(alloc);
    while cursor.eat(&[Symbol::Comma]).is_some() {
        let next = field(alloc, cursor)?;
        build::push_field(&mut list, next)?;
    }
    cursor.take(&[Symbol::Semicolon])?;
    Ok(list)
}

/// The parameters and the body of a member function.
fn function_end(
    alloc: Global,
    cursor: &mut Cursor<'_>,
    nesting: usize,
) -> Result<Boxed<MemberEnd>, Stop>
    ensures reads { Answers (function_end nesting) cursor.old result cursor.new }
    ensures shorter { length cursor.new ≤ length cursor.old }
{
    let params = params::parameters(alloc, cursor)?;
    let body = ending::method_rest(alloc, cursor, nesting)?;
    Ok(build::function_end(alloc, params, body)?)
}

/// What follows the name of a member.
fn member_end(
    alloc: Global,
    cursor: &mut Cursor<'_>,
    nesting: usize,
) -> Result<Boxed<MemberEnd>, Stop>
    ensures reads { Answers (rules.member_end nesting) cursor.old result cursor.new }
    ensures shorter { length cursor.new ≤ length cursor.old }
{
    if ahead::is_open_next(cursor) {
        return function_end(alloc, cursor, nesting);
    }
    let list = fields(alloc, cursor)?;
    Ok(build::fields(alloc, list)?)
}

/// What follows the type of a member.
pub fn member_tail(
    alloc: Global,
    cursor: &mut Cursor<'_>,
    nesting: usize,
) -> Result<Boxed<MemberTail>, Stop>
    ensures reads { Answers (rules.member_tail nesting) cursor.old result cursor.new }
    ensures shorter { length cursor.new ≤ length cursor.old }
{
    let mark = types::mark(cursor)?;
    let word = cursor.take(&[Symbol::Word])?;
    let end = member_end(alloc, cursor, nesting)?;
    Ok(build::member_tail(alloc, mark, word, end)?)
}

/// What follows the type of a member function that begins with `virtual`.
fn method_tail(
    alloc: Global,
    cursor: &mut Cursor<'_>,
    nesting: usize,
) -> Result<Boxed<MethodTail>, Stop>
    ensures reads { Answers (rules.method_tail nesting) cursor.old result cursor.new }
    ensures shorter { length cursor.new ≤ length cursor.old }
{
    let mark = types::mark(cursor)?;
    let word = cursor.take(&[Symbol::Word])?;
    let params = params::parameters(alloc, cursor)?;
    let body = ending::method_rest(alloc, cursor, nesting)?;
    Ok(build::method_tail(alloc, mark, word, params, body)?)
}

/// What follows `virtual` at the start of a member.
pub fn after_virtual(
    alloc: Global,
    cursor: &mut Cursor<'_>,
    nesting: usize,
) -> Result<Boxed<AfterVirtual>, Stop>
    ensures reads { Answers (rules.after_virtual nesting) cursor.old result cursor.new }
    ensures shorter { length cursor.new ≤ length cursor.old }
{
    if let Some(tilde) = cursor.eat(&[Symbol::Tilde]) {
        let tail = ending::destructor(alloc, cursor, tilde)?;
        return Ok(build::virtual_destructor(alloc, tail)?);
    }
    let type_name = types::type_name(alloc, cursor)?;
    let tail = method_tail(alloc, cursor, nesting)?;
    Ok(build::virtual_method(alloc, type_name, tail)?)
}

/// What follows a class at the start of a member.
pub fn after_member_class(
    alloc: Global,
    cursor: &mut Cursor<'_>,
    nesting: usize,
) -> Result<Boxed<AfterMemberClass>, Stop>
    ensures reads { Answers (rules.after_member_class nesting) cursor.old result cursor.new }
    ensures shorter { length cursor.new ≤ length cursor.old }
{
    if ahead::is_open_next(cursor) {
        let tail = ending::constructor_tail(alloc, cursor, nesting)?;
        return Ok(build::constructor_member(alloc, tail)?);
    }
    let tail = member_tail(alloc, cursor, nesting)?;
    Ok(build::type_member(alloc, tail)?)
}
