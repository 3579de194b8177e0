//! A parser of expressions.
#![tactic(auto)]

ghost use Rattle.std.specs.Prelude.{◌≡◌, ◌<◌, ◌≤◌, ◌+◌, ◌^◌, length, take};
ghost use Rattle.mm_parse_expr.specs.Longest.{IsPlaceAt, OneTree, Parses, ParsesFrom, place_of};

mod build;
pub mod limit;
pub mod parser;

use mm_base::code::Code;
use mm_base::limits::MAX_TOKEN_RUN;
use mm_base::place::Place;
use mm_cursor::{Cursor, Stop};
use mm_syntax::expr::Expr;
use mm_syntax::part::Begun;
use mm_token::token::{Token, Tokens};
use std::alloc::Global;

/// Why there is no expression: a fault at a place, or want of memory.
#[derive(Clone, Copy)]
pub enum ParseEnd {
    Fault(Code, Place),
    NoMemory,
}

/// The expression that begins at a token, and the index after it.
pub fn expr(alloc: Global, tokens: &Tokens, at: usize) -> Result<(Expr, usize), ParseEnd>
    requires { at ≤ length tokens.now.list }
    ensures { Parses tokens.now.list tokens.now.end at result }
{
    let list = tokens.list.as_slice();
    let room = limit::room(list, at);
    expr_from(alloc, &list[at..], room, tokens.end, at)
}

/// The same of the tokens that are left, of which so many are within the limit. The first one past it is still read.
fn expr_from(
    alloc: Global,
    tokens: &[Token],
    room: usize,
    end: Place,
    at: usize,
) -> Result<(Expr, usize), ParseEnd>
    requires within { room ≤ MAX_TOKEN_RUN }
    requires fits { at + length tokens.now < 2 ^ 64 }
    ensures { ParsesFrom tokens.now room end at result }
{
    let read = first(tokens, room + 1);
    let is_cut = room < tokens.len();
    let mut cursor = Cursor::new(read);
    match parser::expr(alloc, &mut cursor) {
        Ok(begun) => {
            let left = cursor.rest().len();
            if is_cut && left == 0 {
                return Err(ParseEnd::Fault(Code::Y2, place_at(tokens, room)));
            }
            let Begun { tree, .. } = begun.into_inner();
            Ok((tree, at + (read.len() - left)))
        }
        Err(Stop::Fault) => {
            let rest = cursor.rest();
            if is_cut && rest.len() <= 1 {
                return Err(ParseEnd::Fault(Code::Y2, place_at(tokens, room)));
            }
            Err(ParseEnd::Fault(Code::Y1, first_place(rest, end)))
        }
        Err(Stop::NoMemory) => Err(ParseEnd::NoMemory),
    }
}

fn first(tokens: &[Token], count: usize) -> &[Token]
    ensures { result.now ≡ take count tokens.now }
{
    if count < tokens.len() {
        &tokens[..count]
    } else {
        tokens
    }
}

fn first_place(tokens: &[Token], end: Place) -> Place
    ensures { result ≡ place_of tokens.now end }
{
    match tokens {
        [] => end,
        [next, ..] => next.place,
    }
}

fn place_at(tokens: &[Token], at: usize) -> Place
    requires { at < length tokens.now }
    ensures { IsPlaceAt tokens.now at result }
{
    tokens[at].place
}

/// Tokens are the text of at most one expression.
pub fn one_tree()
    ensures { OneTree }
{}
