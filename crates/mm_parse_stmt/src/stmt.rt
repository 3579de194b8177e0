// Statements and blocks.

ghost use Rattle.std.specs.Prelude.{◌≡◌, ◌≤◌, length};
ghost use Rattle.mm_grammar.specs.Grammar.{name};
ghost use Rattle.mm_cursor.specs.Cursor.{Answers};
ghost use Rattle.mm_syntax.specs.Rules as rules;
ghost use Rattle.mm_parse_stmt.specs.Parts.{Closes, block_end, do_end, for_end, for_open, if_end, plain, until, while_end};

use crate::build;
use mm_cursor::list::push;
use mm_cursor::{Cursor, Stop};
use mm_parse_expr::parser;
use mm_parse_var::simple;
use mm_syntax::part::Begun;
use mm_syntax::stmt::{ForStart, Stmt, StmtKind};
use mm_syntax::symbol::Symbol;
use mm_token::token::Token;
use sqlite_items::{Boxed, Items};
use std::alloc::Global;

/// A block, in which so many statements may stand one inside the other.
pub fn block(alloc: Global, cursor: &mut Cursor<'_>, nesting: usize) -> Result<Boxed<Stmt>, Stop>
    ensures reads { Answers (name (rules.block nesting)) cursor.old result cursor.new }
    ensures shorter { length cursor.new ≤ length cursor.old }
{
    let brace = cursor.take(&[Symbol::OpenBrace])?;
    block_end(alloc, cursor, brace, nesting)
}

/// What follows the brace of a block: statements, and `}`.
#[cycle(stmt)]
fn block_end(
    alloc: Global,
    cursor: &mut Cursor<'_>,
    brace: &Token,
    nesting: usize,
) -> Result<Boxed<Stmt>, Stop>
    ensures reads { Answers (block_end brace.now nesting) cursor.old result cursor.new }
    ensures shorter { length cursor.new ≤ length cursor.old }
{
    let mut stmts = Items::new(alloc);
    while cursor.eat(&[Symbol::CloseBrace]).is_none() {
        let next = stmt(alloc, cursor, nesting)?;
        push(&mut stmts, next)?;
    }
    Ok(build::block(alloc, brace, stmts)?)
}

/// A statement, where so many may stand one inside the other, this one counted. At 0 none is read.
#[cycle(stmt)]
fn stmt(alloc: Global, cursor: &mut Cursor<'_>, nesting: usize) -> Result<Boxed<Stmt>, Stop>
    ensures reads { Answers (name (rules.stmt nesting)) cursor.old result cursor.new }
    ensures shorter { length cursor.new ≤ length cursor.old }
{
    if nesting == 0 {
        return Err(Stop::Fault);
    }
    let inside = nesting - 1;
    if let Some(brace) = cursor.eat(&[Symbol::OpenBrace]) {
        return block_end(alloc, cursor, brace, inside);
    }
    if let Some(word) = cursor.eat(&[Symbol::If]) {
        return if_end(alloc, cursor, word, inside);
    }
    if let Some(word) = cursor.eat(&[Symbol::While]) {
        return while_end(alloc, cursor, word, inside);
    }
    if let Some(word) = cursor.eat(&[Symbol::Do]) {
        return do_end(alloc, cursor, word, inside);
    }
    if let Some(word) = cursor.eat(&[Symbol::For]) {
        return for_end(alloc, cursor, word, inside);
    }
    plain(alloc, cursor)
}

/// What follows `if`. An `else` that stands after the first branch is this one's: the branch took each that it could.
#[cycle(stmt)]
fn if_end(
    alloc: Global,
    cursor: &mut Cursor<'_>,
    word: &Token,
    nesting: usize,
) -> Result<Boxed<Stmt>, Stop>
    ensures reads { Answers (if_end word.now nesting) cursor.old result cursor.new }
    ensures shorter { length cursor.new ≤ length cursor.old }
{
    let condition = enclosed(alloc, cursor)?;
    let body = stmt(alloc, cursor, nesting)?;
    if cursor.eat(&[Symbol::Else]).is_some() {
        let other = stmt(alloc, cursor, nesting)?;
        return Ok(build::chosen(alloc, word, condition, body, other)?);
    }
    Ok(build::branched(alloc, word, condition, body)?)
}

/// What follows `while`.
#[cycle(stmt)]
fn while_end(
    alloc: Global,
    cursor: &mut Cursor<'_>,
    word: &Token,
    nesting: usize,
) -> Result<Boxed<Stmt>, Stop>
    ensures reads { Answers (while_end word.now nesting) cursor.old result cursor.new }
    ensures shorter { length cursor.new ≤ length cursor.old }
{
    let condition = enclosed(alloc, cursor)?;
    let body = stmt(alloc, cursor, nesting)?;
    Ok(build::looped(alloc, word, condition, body)?)
}

/// What follows `do`.
#[cycle(stmt)]
fn do_end(
    alloc: Global,
    cursor: &mut Cursor<'_>,
    word: &Token,
    nesting: usize,
) -> Result<Boxed<Stmt>, Stop>
    ensures reads { Answers (do_end word.now nesting) cursor.old result cursor.new }
    ensures shorter { length cursor.new ≤ length cursor.old }
{
    let body = stmt(alloc, cursor, nesting)?;
    let condition = until(alloc, cursor)?;
    Ok(build::done_while(alloc, word, body, condition)?)
}

/// What follows `for`.
#[cycle(stmt)]
fn for_end(
    alloc: Global,
    cursor: &mut Cursor<'_>,
    word: &Token,
    nesting: usize,
) -> Result<Boxed<Stmt>, Stop>
    ensures reads { Answers (for_end word.now nesting) cursor.old result cursor.new }
    ensures shorter { length cursor.new ≤ length cursor.old }
{
    let start = for_open(alloc, cursor)?;
    let condition = maybe_expr(alloc, cursor, Symbol::Semicolon)?;
    let step = maybe_expr(alloc, cursor, Symbol::Close)?;
    let head = build::head(alloc, start, condition, step)?;
    let body = stmt(alloc, cursor, nesting)?;
    Ok(build::repeated(alloc, word, head, body)?)
}

/// An expression in parentheses.
fn enclosed(alloc: Global, cursor: &mut Cursor<'_>) -> Result<Boxed<Begun>, Stop>
    ensures reads { Answers rules.enclosed cursor.old result cursor.new }
    ensures shorter { length cursor.new ≤ length cursor.old }
{
    cursor.take(&[Symbol::Open])?;
    parser::closed(alloc, cursor)
}

/// What ends `do`: `while`, its condition, and `;`.
fn until(alloc: Global, cursor: &mut Cursor<'_>) -> Result<Boxed<Begun>, Stop>
    ensures reads { Answers until cursor.old result cursor.new }
    ensures shorter { length cursor.new ≤ length cursor.old }
{
    cursor.take(&[Symbol::While])?;
    let condition = enclosed(alloc, cursor)?;
    cursor.take(&[Symbol::Semicolon])?;
    Ok(condition)
}

/// `(` and what stands in the parentheses of `for` up to the first `;`.
fn for_open(alloc: Global, cursor: &mut Cursor<'_>) -> Result<Boxed<ForStart>, Stop>
    ensures reads { Answers for_open cursor.old result cursor.new }
    ensures shorter { length cursor.new ≤ length cursor.old }
{
    cursor.take(&[Symbol::Open])?;
    simple::for_start(alloc, cursor)
}

/// An expression, where one stands, and this mark.
fn maybe_expr(
    alloc: Global,
    cursor: &mut Cursor<'_>,
    close: Symbol,
) -> Result<Option<Boxed<Begun>>, Stop>
    requires { Closes close }
    ensures reads { Answers (rules.maybe_expr close) cursor.old result cursor.new }
    ensures shorter { length cursor.new ≤ length cursor.old }
{
    if cursor.eat(&[close]).is_some() {
        return Ok(None);
    }
    let value = parser::expr(alloc, cursor)?;
    cursor.take(&[close])?;
    Ok(Some(value))
}

/// A statement in which no other stands.
fn plain(alloc: Global, cursor: &mut Cursor<'_>) -> Result<Boxed<Stmt>, Stop>
    ensures reads { Answers plain cursor.old result cursor.new }
    ensures shorter { length cursor.new ≤ length cursor.old }
{
    if let Some(mark) = cursor.eat(&[Symbol::Semicolon]) {
        return Ok(build::at_token(alloc, StmtKind::Empty, mark)?);
    }
    if let Some(word) = cursor.eat(&[Symbol::Break]) {
        cursor.take(&[Symbol::Semicolon])?;
        return Ok(build::at_token(alloc, StmtKind::Break, word)?);
    }
    if let Some(word) = cursor.eat(&[Symbol::Continue]) {
        cursor.take(&[Symbol::Semicolon])?;
        return Ok(build::at_token(alloc, StmtKind::Continue, word)?);
    }
    if let Some(word) = cursor.eat(&[Symbol::Return]) {
        let value = maybe_expr(alloc, cursor, Symbol::Semicolon)?;
        return Ok(build::returned(alloc, word, value)?);
    }
    simple::simple(alloc, cursor)
}
