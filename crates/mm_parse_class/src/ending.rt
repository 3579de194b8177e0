// What ends a member that is a function.

ghost use Rattle.std.specs.Prelude.{◌≡◌, ◌≤◌, length};
ghost use Rattle.mm_grammar.specs.Grammar.{give};
ghost use Rattle.mm_cursor.specs.Cursor.{Answers};
ghost use Rattle.mm_syntax.specs.Built as b;
ghost use Rattle.mm_syntax.specs.Rules as rules;
ghost use Rattle.mm_parse_class.specs.Parts.{method_rest, inner_constructor, constructor_rest, after_destructor, destructor_from};

use crate::{ahead, build};
use mm_cursor::{Cursor, Stop};
use mm_parse_function::{constructor, params};
use mm_parse_stmt::stmt;
use mm_syntax::decl::ConstructorBody;
use mm_syntax::part::{ConstructorTail, DestructorTail};
use mm_syntax::stmt::Stmt;
use mm_syntax::symbol::Symbol;
use mm_token::token::Token;
use sqlite_items::Boxed;
use std::alloc::Global;

/// A block, and a `;` that may follow it.
fn method_body(alloc: Global, cursor: &mut Cursor<'_>, nesting: usize) -> Result<Boxed<Stmt>, Stop>
    ensures reads { Answers (rules.method_body nesting) cursor.old result cursor.new }
    ensures shorter { length cursor.new ≤ length cursor.old }
{
    let body = stmt::block(alloc, cursor, nesting)?;
    ahead::semicolon(cursor);
    Ok(body)
}

/// `;`, or a block.
pub fn method_rest(
    alloc: Global,
    cursor: &mut Cursor<'_>,
    nesting: usize,
) -> Result<Option<Boxed<Stmt>>, Stop>
    ensures reads { Answers (method_rest nesting) cursor.old result cursor.new }
    ensures shorter { length cursor.new ≤ length cursor.old }
{
    if cursor.eat(&[Symbol::Semicolon]).is_some() {
        return Ok(None);
    }
    let body = method_body(alloc, cursor, nesting)?;
    Ok(Some(body))
}

/// What a constructor does, and a `;` that may follow it.
fn inner_constructor(
    alloc: Global,
    cursor: &mut Cursor<'_>,
    nesting: usize,
) -> Result<Boxed<ConstructorBody>, Stop>
    ensures reads { Answers (inner_constructor nesting) cursor.old result cursor.new }
    ensures shorter { length cursor.new ≤ length cursor.old }
{
    let body = constructor::constructor_body(alloc, cursor, nesting)?;
    ahead::semicolon(cursor);
    Ok(body)
}

/// `;`, or what a constructor does.
fn constructor_rest(
    alloc: Global,
    cursor: &mut Cursor<'_>,
    nesting: usize,
) -> Result<Option<Boxed<ConstructorBody>>, Stop>
    ensures reads { Answers (constructor_rest nesting) cursor.old result cursor.new }
    ensures shorter { length cursor.new ≤ length cursor.old }
{
    if cursor.eat(&[Symbol::Semicolon]).is_some() {
        return Ok(None);
    }
    let body = inner_constructor(alloc, cursor, nesting)?;
    Ok(Some(body))
}

/// What follows the name of a constructor in its class.
pub fn constructor_tail(
    alloc: Global,
    cursor: &mut Cursor<'_>,
    nesting: usize,
) -> Result<Boxed<ConstructorTail>, Stop>
    ensures reads { Answers (rules.constructor_tail nesting) cursor.old result cursor.new }
    ensures shorter { length cursor.new ≤ length cursor.old }
{
    let params = params::parameters(alloc, cursor)?;
    let body = constructor_rest(alloc, cursor, nesting)?;
    Ok(build::constructor_tail(alloc, params, body)?)
}

/// The parentheses and the braces of a destructor, in which nothing stands but a `void`. It says whether that does.
fn after_destructor(cursor: &mut Cursor<'_>) -> Result<bool, Stop>
    ensures reads { Answers (give b.is_given after_destructor) cursor.old result cursor.new }
    ensures shorter { length cursor.new ≤ length cursor.old }
{
    cursor.take(&[Symbol::Open])?;
    let has_void = cursor.eat(&[Symbol::Void]).is_some();
    cursor.take(&[Symbol::Close])?;
    cursor.take(&[Symbol::OpenBrace])?;
    cursor.take(&[Symbol::CloseBrace])?;
    ahead::semicolon(cursor);
    Ok(has_void)
}

/// A destructor behind its `~`.
pub fn destructor(
    alloc: Global,
    cursor: &mut Cursor<'_>,
    tilde: &Token,
) -> Result<Boxed<DestructorTail>, Stop>
    ensures reads { Answers (destructor_from tilde.now) cursor.old result cursor.new }
    ensures shorter { length cursor.new ≤ length cursor.old }
{
    let class = cursor.take(&[Symbol::Class])?;
    let has_void = after_destructor(cursor)?;
    Ok(build::destructor_tail(alloc, tilde, class, has_void)?)
}
