// Statements that are one expression or one declaration, and what stands first in the parentheses of `for`.

ghost use Rattle.std.specs.Prelude.{◌≡◌, ◌≤◌, length};
ghost use Rattle.mm_cursor.specs.Cursor.{Answers};
ghost use Rattle.mm_syntax.specs.Rules as rules;
ghost use Rattle.mm_parse_var.specs.Parts.{begins_scope, begins_variables};

use crate::{build, vars};
use mm_cursor::{Cursor, Stop};
use mm_parse_expr::parser;
use mm_syntax::part::Begun;
use mm_syntax::stmt::{ForStart, Stmt};
use mm_syntax::symbol::{Symbol, classify};
use mm_token::token::Token;
use sqlite_items::Boxed;
use std::alloc::Global;

/// An expression and `;`, or the declaration of variables. Where a class comes first, the token after it decides.
pub fn simple(alloc: Global, cursor: &mut Cursor<'_>) -> Result<Boxed<Stmt>, Stop>
    ensures reads { Answers rules.simple_stmt cursor.old result cursor.new }
    ensures shorter { length cursor.new ≤ length cursor.old }
{
    if begins_variables(cursor.rest()) {
        let variables = vars::variables(alloc, cursor)?;
        return Ok(build::declared(alloc, variables)?);
    }
    let value = expr_stmt(alloc, cursor)?;
    Ok(build::run(alloc, value)?)
}

/// What stands in the parentheses of `for` up to the first `;`.
pub fn for_start(alloc: Global, cursor: &mut Cursor<'_>) -> Result<Boxed<ForStart>, Stop>
    ensures reads { Answers rules.for_start cursor.old result cursor.new }
    ensures shorter { length cursor.new ≤ length cursor.old }
{
    if cursor.eat(&[Symbol::Semicolon]).is_some() {
        return Ok(Boxed::new(alloc, ForStart::Nothing)?);
    }
    if begins_variables(cursor.rest()) {
        let variables = vars::variables(alloc, cursor)?;
        return Ok(build::variables_first(alloc, variables)?);
    }
    let value = expr_stmt(alloc, cursor)?;
    Ok(build::expr_first(alloc, value)?)
}

/// An expression and `;`.
fn expr_stmt(alloc: Global, cursor: &mut Cursor<'_>) -> Result<Boxed<Begun>, Stop>
    ensures reads { Answers rules.expr_stmt cursor.old result cursor.new }
    ensures shorter { length cursor.new ≤ length cursor.old }
{
    let value = parser::expr(alloc, cursor)?;
    cursor.take(&[Symbol::Semicolon])?;
    Ok(value)
}

/// Whether a declaration of variables is to be read, and else an expression.
fn begins_variables(tokens: &[Token]) -> bool
    ensures { result ≡ begins_variables tokens.now }
{
    match tokens {
        [] => false,
        [next, rest @ ..] => match classify(next) {
            Symbol::Void | Symbol::Bool | Symbol::Int | Symbol::Unsigned => true,
            Symbol::Class => !begins_scope(rest),
            _ => false,
        },
    }
}

fn begins_scope(tokens: &[Token]) -> bool
    ensures { result ≡ begins_scope tokens.now }
{
    match tokens {
        [] => false,
        [next, ..] => match classify(next) {
            Symbol::Scope => true,
            _ => false,
        },
    }
}
