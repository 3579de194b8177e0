// A text, one piece after another.

ghost use Rattle.std.specs.Prelude.{◌≡◌, ◌+◌, ◌*◌, ◌<◌, ◌^◌, length, IfOk, IfErr, IsTrue, MatchOption};
ghost use Rattle.std.specs.Char.{len_utf8};
ghost use Rattle.mm_token.specs.Characters.{place_after, is_text};
ghost use Rattle.mm_token.specs.Words.{is_directive};
ghost use Rattle.mm_token.specs.Cut.{fresh_after, code_of as coded, IsGood, IsTrouble, IsFault, IsTaken, IsSpoiledAt};
ghost use Rattle.mm_token.specs.declared.words.Wrong.TheVariants.{NoToken};

use crate::piece::{Shape, piece};
use crate::words::{Wrong, included_name, is_pragma_once, number, text_len};
use mm_base::code::Code;
use mm_base::place::Place;

impl Wrong {
    ghost use Rattle.std.specs.Prelude.{◌≡◌};
    ghost use Rattle.mm_token.specs.Cut.{code_of};

    /// Its code.
    pub fn code(self) -> Code
        ensures { result ≡ code_of self }
    {
        match self {
            Wrong::NoToken => Code::L1,
            Wrong::Unclosed => Code::L2,
            Wrong::Range => Code::L3,
            Wrong::Directive => Code::L5,
        }
    }
}

/// The place after a text that begins here.
pub fn after(at: Place, text: &[u32]) -> Place
    requires line { at.line + length text.now < 2 ^ 32 }
    requires col { at.col + 4 * length text.now < 2 ^ 32 }
    ensures { result ≡ place_after at text.now }
{
    let mut place = at;
    for c in text {
        if *c == 10 {
            place = Place {
                file: place.file,
                line: place.line + 1,
                col: 1,
            };
        } else {
            place = Place {
                file: place.file,
                line: place.line,
                col: place.col + width(*c),
            };
        }
    }
    place
}

/// How many bytes a character takes.
fn width(c: u32) -> u32
    ensures { result ≡ len_utf8 c }
{
    if c < 0x80 {
        1
    } else if c < 0x800 {
        2
    } else if c < 0x1_0000 {
        3
    } else {
        4
    }
}

/// What is wrong with a comment that has an end.
fn comment_trouble(text: &[u32], at: Place) -> Option<(Wrong, Place)>
    requires line { at.line + length text.now < 2 ^ 32 }
    requires col { at.col + 4 * length text.now < 2 ^ 32 }
    ensures { MatchOption result (IsTrue (is_text text.now)) (λ w. (w.0 ≡ NoToken) × IsSpoiledAt text.now at w.1) }
{
    let n = text_len(text);
    if n == text.len() {
        return None;
    }
    Some((Wrong::NoToken, after(at, &text[..n])))
}

fn is_known(line: &[u32]) -> bool
    requires { 0 < length line.now }
    ensures { result ≡ is_directive line.now }
{
    included_name(line).is_some() || is_pragma_once(line)
}

/// What is wrong with a longest piece.
fn trouble(shape: Shape, text: &[u32], at: Place) -> Option<(Wrong, Place)>
    requires some { 0 < length text.now }
    requires line { at.line + length text.now < 2 ^ 32 }
    requires col { at.col + 4 * length text.now < 2 ^ 32 }
    ensures { MatchOption result (IsGood shape text.now) (λ w. IsTrouble shape text.now at w.0 w.1) }
{
    match shape {
        Shape::Open => Some((Wrong::Unclosed, at)),
        Shape::Line | Shape::Block => comment_trouble(text, at),
        Shape::Number => match number(text) {
            Ok(_) => None,
            Err(wrong) => Some((wrong, at)),
        },
        Shape::Directive => {
            if is_known(text) {
                None
            } else {
                Some((Wrong::Directive, at))
            }
        }
        Shape::Blank | Shape::Word | Shape::Mark => None,
    }
}

/// Whether only white space stands on the line behind a piece.
fn is_fresh_after(fresh: bool, shape: Shape, text: &[u32]) -> bool
    requires { 0 < length text.now }
    ensures { result ≡ fresh_after fresh shape text.now }
{
    match shape {
        Shape::Blank => text[0] == 10 || fresh,
        _ => false,
    }
}

/// A piece of a text, and where it stands.
#[derive(Drop)]
pub struct Piece<'a> {
    pub shape: Shape,
    pub text: &'a [u32],
    pub place: Place,
}

/// What is left of a text.
#[derive(Drop)]
pub struct Scanner<'a> {
    pub rest: &'a [u32],
    pub place: Place,
    /// Whether only white space stands before on the line.
    pub fresh: bool,
}

impl<'a> Scanner<'a> {
    /// Takes the longest piece off.
    pub fn next(&mut self) -> Result<Piece<'a>, (Wrong, Place)>
        requires some { 0 < length self.old.rest.now }
        requires line { self.old.place.line + length self.old.rest.now < 2 ^ 32 }
        requires col { self.old.place.col + 4 * length self.old.rest.now < 2 ^ 32 }
        ensures ok { IfOk result (λ p. IsTaken self.old.fresh self.old.rest.now self.old.place p.shape p.text.now p.place self.new.fresh self.new.rest.now self.new.place) }
        ensures err { IfErr result (λ e. IsFault self.old.fresh self.old.rest.now self.old.place e.0 e.1) }
    {
        let place = self.place;
        let Some((shape, rest)) = piece(self.rest, self.fresh) else {
            return Err((Wrong::NoToken, place));
        };
        let text = &self.rest[..self.rest.len() - rest.len()];
        if let Some(wrong) = trouble(shape, text, place) {
            return Err(wrong);
        }
        self.place = after(place, text);
        self.fresh = is_fresh_after(self.fresh, shape, text);
        self.rest = rest;
        Ok(Piece { shape, text, place })
    }
}
