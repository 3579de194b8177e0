//! C texts read: the program that a text spells, or the place where it is refused.
#![tactic(auto)]

ghost use Rattle.std.specs.Prelude.{◌≡◌, ◌≤◌, length, IfOk, MatchResult};
ghost use Rattle.mm_c.specs.Spelling.{SpellsProgram, place_of};
ghost use Rattle.mm_c.specs.View.{program_view};
ghost use Rattle.mm_c_text.specs.Places.{at};
ghost use Rattle.mm_c_read.specs.Refusals.{HasPlaces, IsJudged, IsRefusal, IsText};
ghost use Rattle.mm_c_read.specs.declared.ReadEnd.TheVariants.{NoMemory};

use mm_base::limits::MAX_C_BYTES;
use mm_c::tree::CProgram;
use mm_c_parse::step::Stop;
use mm_c_parse_item::program::{Parsed, program};
use mm_c_rules::{defines_main, first_break};
use mm_c_text::cursor::Cursor;
use mm_c_text::place::{Place, end, first};
use std::alloc::{AllocError, Global};

/// Why a text gives no program.
#[derive(Clone, Copy)]
pub enum ReadEnd {
    /// The place where it is refused.
    Refused(Place),
    NoMemory,
}

impl From<AllocError> for ReadEnd {
    ghost from_gives = { λ _ e. e ≡ NoMemory };

    fn from(_: AllocError) -> ReadEnd {
        ReadEnd::NoMemory
    }
}

// where the first of the tokens that are left begins, or the text ends
fn next_place(text: &[u8], cursor: &Cursor<'_>) -> Place
    requires { length text.now ≤ MAX_C_BYTES }
    ensures { at result ≡ place_of text.now cursor.now }
{
    match cursor.place() {
        Some(place) => place,
        None => end(first(), text, 0),
    }
}

// the program of a text of the grammar, and its places
fn parse(alloc: Global, text: &[u8]) -> Result<Parsed, ReadEnd>
    requires { length text.now ≤ MAX_C_BYTES }
    ensures { MatchResult result (IsText text.now) (IsRefusal text.now) }
{
    let mut cursor = Cursor::new(text);
    match program(alloc, &mut cursor) {
        Ok(parsed) => match cursor.place() {
            None => Ok(parsed),
            Some(place) => Err(ReadEnd::Refused(place)),
        },
        Err(Stop::Fault) => Err(ReadEnd::Refused(next_place(text, &cursor))),
        Err(Stop::NoMemory) => Err(ReadEnd::NoMemory),
    }
}

// the place of the first broken rule beside the grammar; none where all are kept
fn broken_at(alloc: Global, parsed: &Parsed) -> Result<Option<Place>, AllocError>
    requires { HasPlaces parsed.now }
    ensures { IfOk result (IsJudged parsed.now) }
{
    let broken = first_break(alloc, &parsed.program, parsed.places.len())?;
    match broken {
        Some(number) => Ok(parsed.places.get(number)),
        None => {
            if defines_main(&parsed.program) {
                Ok(None)
            } else {
                Ok(Some(first()))
            }
        }
    }
}

/// The program that a text spells; or the place where the text is refused: of the first token with
/// which no text of the grammar goes on, else of the first item or statement that breaks a rule
/// beside the grammar, else, where `main` is missing, the first of all.
pub fn read(alloc: Global, text: &[u8]) -> Result<CProgram, ReadEnd>
    requires { length text.now ≤ MAX_C_BYTES }
    ensures { MatchResult result (λ p. SpellsProgram text.now (program_view p)) (IsRefusal text.now) }
{
    let parsed = parse(alloc, text)?;
    match broken_at(alloc, &parsed)? {
        Some(place) => Err(ReadEnd::Refused(place)),
        None => Ok(parsed.program),
    }
}
