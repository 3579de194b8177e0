//! A parser of units.
#![tactic(auto)]

ghost use Rattle.std.specs.Prelude.{◌≡◌, ◌<◌, ◌≤◌, ◌^◌, IfOk, length, take};
ghost use Rattle.mm_parse_expr.specs.Longest.{place_of};
ghost use Rattle.mm_parse_unit.specs.Units.{nesting, Parses};
ghost use Rattle.mm_parse_unit.specs.Reading.{unit_of, Faults, GoesOn, IsFirstPast, IsNoText, IsReading, StopsBefore};

pub mod bounds;
mod build;
mod count;
mod decls;
pub mod law;

use count::first_past;
use decls::decls;
use mm_base::code::Code;
use mm_base::limits::{MAX_NESTING, MAX_UNIT_BYTES};
use mm_base::place::Place;
use mm_base::text::Text;
use mm_cursor::{Cursor, Stop};
use mm_parse_expr::ParseEnd;
use mm_syntax::decl::{Decl, Unit};
use mm_token::token::{Token, Tokens};
use sqlite_items::Items;
use std::alloc::{AllocError, Global};

/// As many as there are bytes in the longest unit; no unit has more one inside the other.
const UNLIMITED: usize = MAX_UNIT_BYTES as usize;

/// The tree of a unit, or its first syntax fault.
pub fn unit(alloc: Global, tokens: &Tokens) -> Result<Unit, ParseEnd>
    ensures { Parses tokens.now result }
{
    let list = tokens.list.as_slice();
    let at = first_past(list);
    let mut cursor = Cursor::new(&list[..at]);
    match decls(alloc, &mut cursor, MAX_NESTING) {
        Ok(decls) => {
            let left = cursor.rest().len();
            if left == 0 && at == list.len() {
                let Ok(tree) = tree(alloc, tokens, decls) else {
                    return Err(ParseEnd::NoMemory);
                };
                return Ok(tree);
            }
            Err(first_fault(alloc, list, at, left, tokens.end))
        }
        Err(Stop::Fault) => {
            let left = cursor.rest().len();
            Err(first_fault(alloc, list, at, left, tokens.end))
        }
        Err(Stop::NoMemory) => Err(ParseEnd::NoMemory),
    }
}

/// The fault of tokens of which those up to an index are within the limit on their count, where this many of these are
/// left after the longest front of a unit.
fn first_fault(alloc: Global, tokens: &[Token], at: usize, left: usize, end: Place) -> ParseEnd
    requires short { length tokens.now ≤ 2 ^ 20 }
    requires first { IsFirstPast tokens.now at }
    requires reading { IsReading (take at tokens.now) left }
    requires no_text { left ≡ 0 → at ≡ length tokens.now → IsNoText tokens.now }
    ensures { Faults tokens.now end result }
{
    if left > 0 {
        return fault_at(alloc, tokens, at - left);
    }
    if at < tokens.len() {
        return ParseEnd::Fault(Code::Y2, tokens[at].place);
    }
    ParseEnd::Fault(Code::Y1, end)
}

/// The fault at a token with which no unit within the limits goes on.
fn fault_at(alloc: Global, tokens: &[Token], at: usize) -> ParseEnd
    requires short { length tokens.now ≤ 2 ^ 20 }
    requires within { at < length tokens.now }
    requires stops { StopsBefore tokens.now at }
    ensures { (end : Place) → Faults tokens.now end result }
{
    let place = tokens[at].place;
    match goes_on(alloc, &tokens[..at + 1]) {
        Ok(true) => ParseEnd::Fault(Code::Y2, place),
        Ok(false) => ParseEnd::Fault(Code::Y1, place),
        Err(_) => ParseEnd::NoMemory,
    }
}

/// Whether a unit may begin with the tokens, where as many statements may stand one inside the other as there are. The last
/// token alone may be past the limit, so that they nest one deeper at most than a unit does.
fn goes_on(alloc: Global, tokens: &[Token]) -> Result<bool, Stop>
    ensures { IfOk result (λ v. GoesOn tokens.now v) }
{
    let mut cursor = Cursor::new(tokens);
    match decls(alloc, &mut cursor, UNLIMITED) {
        Ok(_) => Ok(cursor.rest().is_empty()),
        Err(Stop::Fault) => Ok(cursor.rest().is_empty()),
        Err(Stop::NoMemory) => Err(Stop::NoMemory),
    }
}

/// The tree of these declarations and the tokens' files.
fn tree(alloc: Global, tokens: &Tokens, decls: Items<Decl>) -> Result<Unit, AllocError>
    ensures { IfOk result (λ v. v ≡ unit_of tokens.now decls) }
{
    let files = copies(alloc, tokens.files.as_slice())?;
    Ok(Unit {
        decls,
        place: first_place(tokens.list.as_slice(), tokens.end),
        files,
        bytes: tokens.bytes,
    })
}

fn first_place(tokens: &[Token], end: Place) -> Place
    ensures { result ≡ place_of tokens.now end }
{
    match tokens {
        [] => end,
        [next, ..] => next.place,
    }
}

fn copies(alloc: Global, texts: &[Text]) -> Result<Items<Text>, AllocError>
    ensures { IfOk result (λ v. v ≡ texts.now) }
{
    let mut copies = Items::new(alloc);
    for text in texts {
        copies.push(Text::from_str(alloc, text.as_str())?)?;
    }
    Ok(copies)
}
