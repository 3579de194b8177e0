// Types, and the marks before declared names.

ghost use Rattle.std.specs.Prelude.{◌≡◌, ◌≤◌, length};
ghost use Rattle.mm_grammar.specs.Grammar.{name, alt, opt};
ghost use Rattle.mm_cursor.specs.Cursor.{Answers};
ghost use Rattle.mm_syntax.specs.Rules as rules;

use crate::build;
use mm_cursor::{Cursor, Stop};
use mm_syntax::expr::TypeName;
use mm_syntax::name::DeclaratorMark;
use mm_syntax::symbol::Symbol;
use mm_syntax::taken;
use std::alloc::Global;

/// A type.
pub fn type_name(alloc: Global, cursor: &mut Cursor<'_>) -> Result<TypeName, Stop>
    ensures reads { Answers (name rules.type_name) cursor.old result cursor.new }
    ensures shorter { length cursor.new ≤ length cursor.old }
{
    if let Some(word) = cursor.eat(&[Symbol::Void]) {
        return Ok(taken::word_type_name(word));
    }
    object_type(alloc, cursor)
}

/// A type that is no class.
pub fn word_type(alloc: Global, cursor: &mut Cursor<'_>) -> Result<TypeName, Stop>
    ensures reads { Answers (alt rules.void_type rules.number_type) cursor.old result cursor.new }
    ensures shorter { length cursor.new ≤ length cursor.old }
{
    if let Some(word) = cursor.eat(&[Symbol::Void]) {
        return Ok(taken::word_type_name(word));
    }
    number_type(cursor)
}

/// A type that isn't `void`.
pub fn object_type(alloc: Global, cursor: &mut Cursor<'_>) -> Result<TypeName, Stop>
    ensures reads { Answers (alt rules.number_type rules.class_type) cursor.old result cursor.new }
    ensures shorter { length cursor.new ≤ length cursor.old }
{
    if let Some(class) = cursor.eat(&[Symbol::Class]) {
        return Ok(taken::class_type_name(alloc, class)?);
    }
    number_type(cursor)
}

/// `bool`, `int`, or `unsigned`, which `int` may follow.
fn number_type(cursor: &mut Cursor<'_>) -> Result<TypeName, Stop>
    ensures reads { Answers rules.number_type cursor.old result cursor.new }
    ensures shorter { length cursor.new ≤ length cursor.old }
{
    if let Some(word) = cursor.eat(&[Symbol::Bool, Symbol::Int]) {
        return Ok(taken::word_type_name(word));
    }
    let word = cursor.take(&[Symbol::Unsigned])?;
    let int = cursor.eat(&[Symbol::Int]);
    Ok(build::unsigned(word, int))
}

/// `*` or `&`, where one of them stands.
pub fn mark(cursor: &mut Cursor<'_>) -> Result<Option<DeclaratorMark>, Stop>
    ensures reads { Answers (opt rules.mark) cursor.old result cursor.new }
    ensures shorter { length cursor.new ≤ length cursor.old }
{
    match cursor.eat(&[Symbol::Star, Symbol::And]) {
        Some(mark) => Ok(Some(taken::declarator_mark(mark))),
        None => Ok(None),
    }
}
