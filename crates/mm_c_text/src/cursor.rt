// A cursor over the tokens of a text.

ghost use Rattle.std.specs.Prelude.{◌≡◌, ◌≤◌, ◌^◌, length, map, IsTrue};
ghost use Rattle.mm_grammar.specs.Grammar.{has};
ghost use Rattle.mm_c.specs.Tokens.{tokens_from, tokens_of};
ghost use Rattle.mm_c_text.specs.Places.{at, Fits};
ghost use Rattle.mm_c_text.specs.Classes.{number_of};
ghost use Rattle.mm_c_text.specs.Scan.{Dark};
ghost use Rattle.mm_c_text.specs.Cursor.{Eats, Sees, class_at, left_of, IsAt, IsNext, IsPlaceOf};

use crate::class::{Class, classify, number};
use crate::place::{Place, end, first};
use crate::scan::{skip_white, token_length};
use std::marker::Model;

/// A token: its bytes, where it begins, and its class.
#[derive(Clone, Copy)]
pub struct Lexeme<'a> {
    pub text: &'a [u8],
    pub place: Place,
    pub class: Class,
}

/// The tokens that are left to read, which contracts see as their list. They are taken from the bytes one by one.
#[derive(Drop)]
pub struct Cursor<'a> {
    /// The next token; its text is empty at the end.
    next: Lexeme<'a>,
    /// The bytes behind it.
    rest: &'a [u8],
    /// Where they begin.
    after: Place,
}

impl<'a> Model for Cursor<'a> {
    ghost use Rattle.std.specs.Prelude.{List};
    ghost use Rattle.mm_c.specs.Tokens.{Token};
    ghost use Rattle.mm_c_text.specs.Cursor.{IsAt, left_of};
    ghost use Rattle.mm_c_text.specs.Places.{at};

    ghost Value = { List Token };

    ghost view = { λ c. left_of c.next.text.now (at c.next.place) (at c.after) c.rest.now };

    ghost invariant = { λ c. IsAt c.next.text.now c.next.class c.after c.rest.now };
}

#[tactic(auto, using(crate::proofs::Left::class_some, crate::proofs::Left::class_none))]
fn class_of(text: &[u8]) -> Class
    ensures { number_of result ≡ class_at text.now }
{
    if text.is_empty() {
        Class::End
    } else {
        classify(text)
    }
}

fn is_among(next: u32, classes: &[Class]) -> bool
    ensures { result ≡ has next (map number_of classes.now) }
{
    for class in classes {
        if next == number(*class) {
            return true;
        }
    }
    false
}

// how many bytes the next token has, which stands in front if there is one
fn next_length(text: &[u8]) -> usize
    requires { Dark text.now }
    ensures within { result ≤ length text.now }
    ensures first { IsNext result text.now }
{
    if text.is_empty() {
        0
    } else {
        token_length(text)
    }
}

fn cursor_at<'a>(next: Lexeme<'a>, rest: &'a [u8], after: Place) -> Cursor<'a>
    requires { IsAt next.text.now next.class after rest.now }
    ensures { result ≡ left_of next.entry.text.now (at next.entry.place) (at after) rest.now }
{
    Cursor { next, rest, after }
}

fn before(bytes: &[u8], place: Place) -> Cursor<'_>
    requires { Fits place (length bytes.now) }
    ensures { result ≡ tokens_from (at place) bytes.now }
{
    let left = skip_white(bytes, place);
    let count = next_length(left.bytes);
    let text = &left.bytes[..count];
    let rest = &left.bytes[count..];
    let after = end(left.place, text, rest.len());
    let next = Lexeme {
        text,
        place: left.place,
        class: class_of(text),
    };
    cursor_at(next, rest, after)
}

impl<'a> Cursor<'a> {
    /// A cursor before the tokens of a text.
    pub fn new(text: &'a [u8]) -> Cursor<'a>
        requires { length text.now ≤ 2 ^ 27 }
        ensures { result ≡ tokens_of text.now }
    {
        before(text, first())
    }

    #[tactic(auto, using(crate::proofs::Left::left_none))]
    /// Where the next token begins; none at the end.
    pub fn place(&self) -> Option<Place>
        ensures { IsPlaceOf result self.now }
    {
        if self.next.text.is_empty() {
            None
        } else {
            Some(self.next.place)
        }
    }

    /// Whether the next token is of one of these classes.
    pub fn sees(&self, classes: &[Class]) -> bool
        ensures { Sees (map number_of classes.now) self.now result }
    {
        !self.next.text.is_empty() && is_among(number(self.next.class), classes)
    }

    /// Takes the next token where it is of one of these classes.
    pub fn eat(&mut self, classes: &[Class]) -> Option<Lexeme<'a>>
        ensures { Eats (map number_of classes.now) self.old result self.new }
    {
        if self.next.text.is_empty() {
            return None;
        }
        if !is_among(number(self.next.class), classes) {
            return None;
        }
        let next = self.next;
        *self = before(self.rest, self.after);
        Some(next)
    }
}
