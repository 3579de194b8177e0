// The files of a unit, read one in the other.

ghost use Rattle.std.specs.Prelude.{◌≡◌, ◌+◌, ◌<◌, ◌≤◌, length, IsTrue, IfErr, MatchResult};
ghost use Rattle.mm_token.specs.Characters.{place_after};
ghost use Rattle.mm_token.specs.Pieces.{IsPiece};
ghost use Rattle.mm_token.specs.Cut.{IsGood};
ghost use Rattle.mm_token.specs.Tokens.{unit_start, nothing_read, Fits, KeepsOut, Puts, PutsFile, Reads, IsRefused};
ghost use Rattle.mm_token.specs.Causes.{HasCause, AreKept};
ghost use Rattle.mm_token.specs.Unit.{state_of, Agrees, HasRoom};
ghost use Rattle.mm_token.specs.Clauses.{Ended, Went, IsText, IncludesFile, RefusesFile, RefusesPiece, PutsWhole, StopsWhole, PutsBytes, StopsBytes};
ghost use Rattle.mm_token.specs.declared.token.TokenEnd.TheVariants.{NoMemory};

use crate::piece::Shape;
use crate::scan::{Piece, Scanner};
use crate::text::{characters, encoded};
use crate::token::{TokenEnd, Tokens};
use crate::unit::Unit;
use crate::words::included_name;
use mm_base::code::Code;
use mm_base::limits::{MAX_INCLUDE_DEPTH, MAX_UNIT_BYTES};
use mm_base::outside::{FileEnd, Files};
use mm_base::place::Place;
use mm_base::text::Text;
use std::alloc::Global;

/// A copy of a name.
fn copied(alloc: Global, name: &str) -> Result<Text, TokenEnd>
    ensures { MatchResult result (λ t. t ≡ name.now) (λ e. e ≡ NoMemory) }
{
    Ok(Text::from_str(alloc, name)?)
}

/// The bytes of a file that a directive at `at` of the file `from` names.
fn open_file<F: Files>(
    alloc: Global,
    files: &mut F,
    unit: &Unit,
    name: &str,
    from: &str,
    at: Place,
) -> Result<Vec<u8>, TokenEnd>
    requires { unit.now.bytes ≤ MAX_UNIT_BYTES }
    ensures reads { MatchResult result (λ v. Fits (F.seen files.old).held name.now v.items (state_of unit.now))
        (λ e. Ended (KeepsOut (F.seen files.old).held name.now from.now at (state_of unit.now) e) e
        (F.seen files.old) (F.seen files.new)) }
    ensures files { AreKept (F.seen files.old) (F.seen files.new) }
{
    let mut bytes = Vec::new(alloc);
    match files.read(name, MAX_UNIT_BYTES, &mut bytes) {
        FileEnd::Done => {}
        FileEnd::Absent => return Err(TokenEnd::Absent(copied(alloc, name)?, at)),
        FileEnd::TooLong => return Err(TokenEnd::TooLong(copied(alloc, name)?)),
        FileEnd::Failed => return Err(TokenEnd::Failed(copied(alloc, name)?)),
        FileEnd::NoMemory => return Err(TokenEnd::NoMemory),
    }
    if unit.bytes + bytes.len() as u64 > MAX_UNIT_BYTES {
        return Err(TokenEnd::Fault(Code::L6, at, copied(alloc, from)?));
    }
    Ok(bytes)
}

/// Reads the file that a directive at `at` of the file `from` names, unless one did before.
#[cycle(reading)]
fn include<F: Files>(
    alloc: Global,
    files: &mut F,
    unit: &mut Unit,
    left: u32,
    name: &str,
    from: &str,
    at: Place,
) -> Result<(), TokenEnd>
    requires agrees { Agrees unit.old }
    requires room { HasRoom (state_of unit.old) 1 }
    ensures reads { MatchResult result (λ _. Went (state_of unit.old) unit.new 1 (IncludesFile (F.seen files.old).held left name.now (state_of unit.old)))
        (λ e. Ended (RefusesFile (F.seen files.old).held left from.now name.now at (state_of unit.old) e) e
        (F.seen files.old) (F.seen files.new)) }
    ensures files { AreKept (F.seen files.old) (F.seen files.new) }
{
    if unit.has(name) {
        return Ok(());
    }
    if left == 0 {
        return Err(TokenEnd::Fault(Code::L4, at, copied(alloc, from)?));
    }
    let bytes = open_file(alloc, files, unit, name, from, at)?;
    let _end = read_file(alloc, files, unit, left - 1, name, &bytes)?;
    Ok(())
}

/// Reads a file of these bytes. Answers the place after its last byte.
#[cycle(reading)]
fn read_file<F: Files>(
    alloc: Global,
    files: &mut F,
    unit: &mut Unit,
    left: u32,
    name: &str,
    bytes: &[u8],
) -> Result<Place, TokenEnd>
    requires agrees { Agrees unit.old }
    requires room { HasRoom (state_of unit.old) 1 }
    requires fits { unit.old.bytes + length bytes.now ≤ MAX_UNIT_BYTES }
    ensures reads { MatchResult result (λ end. Went (state_of unit.old) unit.new 1 (PutsBytes (F.seen files.old).held left name.now bytes.now (state_of unit.old) end))
        (λ e. Ended (StopsBytes (F.seen files.old).held left name.now bytes.now (state_of unit.old) e) e
        (F.seen files.old) (F.seen files.new)) }
    ensures files { AreKept (F.seen files.old) (F.seen files.new) }
{
    let start = unit.start();
    let text = characters(alloc, bytes)?;
    unit.begin(alloc, name, bytes.len() as u64)?;
    read_text(alloc, files, unit, left, name, &text, start)
}

/// Reads a text that begins at `start`. Answers the place after its last byte.
#[cycle(reading)]
fn read_text<F: Files>(
    alloc: Global,
    files: &mut F,
    unit: &mut Unit,
    left: u32,
    name: &str,
    text: &[u32],
    start: Place,
) -> Result<Place, TokenEnd>
    requires agrees { Agrees unit.old }
    requires room { HasRoom (state_of unit.old) (length text.now) }
    requires short { length text.now ≤ MAX_UNIT_BYTES }
    requires line { start.line ≡ 1 }
    requires col { start.col ≡ 1 }
    ensures reads { MatchResult result (λ end. Went (state_of unit.old) unit.new (length text.now) (PutsWhole (F.seen files.old).held left text.now start (state_of unit.old) end))
        (λ e. Ended (StopsWhole (F.seen files.old).held left name.now text.now start (state_of unit.old) e) e
        (F.seen files.old) (F.seen files.new)) }
    ensures files { AreKept (F.seen files.old) (F.seen files.new) }
{
    let mut scanner = Scanner {
        rest: text,
        place: start,
        fresh: true,
    };
    'pieces: while !scanner.rest.is_empty() {
        let piece = match scanner.next() {
            Ok(piece) => piece,
            Err((wrong, place)) => {
                return Err(TokenEnd::Fault(wrong.code(), place, copied(alloc, name)?));
            }
        };
        put(alloc, files, unit, left, name, &piece)?;
    }
    Ok(scanner.place)
}

/// Adds what a piece of the file `from` puts.
#[cycle(reading)]
fn put<F: Files>(
    alloc: Global,
    files: &mut F,
    unit: &mut Unit,
    left: u32,
    from: &str,
    piece: &Piece,
) -> Result<(), TokenEnd>
    requires agrees { Agrees unit.old }
    requires room { HasRoom (state_of unit.old) (length piece.now.text.now) }
    requires some { 0 < length piece.now.text.now }
    requires good { IsGood piece.now.shape piece.now.text.now }
    requires token { IsText piece.now.shape piece.now.text.now }
    ensures reads { MatchResult result (λ _. Went (state_of unit.old) unit.new (length piece.now.text.now) (Puts (PutsFile (F.seen files.old).held left) piece.now.shape piece.now.text.now piece.now.place (state_of unit.old)))
        (λ e. Ended (RefusesPiece (F.seen files.old).held left from.now piece.now.shape piece.now.text.now piece.now.place (state_of unit.old) e) e
        (F.seen files.old) (F.seen files.new)) }
    ensures files { AreKept (F.seen files.old) (F.seen files.new) }
{
    match piece.shape {
        Shape::Directive => {
            let Some(name) = included_name(piece.text) else {
                return Ok(());
            };
            let name = encoded(alloc, name)?;
            include(alloc, files, unit, left, name.as_str(), from, piece.place)
        }
        Shape::Word | Shape::Number | Shape::Mark => {
            Ok(unit.push(alloc, piece.shape, piece.text, piece.place)?)
        }
        Shape::Blank | Shape::Line | Shape::Block | Shape::Open => Ok(()),
    }
}

/// The tokens of a unit and of the headers that it includes.
pub fn get_tokens<F: Files>(alloc: Global, files: &mut F, unit: &str) -> Result<Tokens, TokenEnd>
    ensures reads { MatchResult result (Reads (F.seen files.old).held unit.now) (IsRefused (F.seen files.old).held unit.now) }
    ensures causes { IfErr result (λ e. HasCause e (F.seen files.old) (F.seen files.new)) }
    ensures files { AreKept (F.seen files.old) (F.seen files.new) }
{
    let mut read = Unit::new(alloc);
    let start = read.start();
    let bytes = open_file(alloc, files, &read, unit, "", start)?;
    let end = read_file(alloc, files, &mut read, MAX_INCLUDE_DEPTH, unit, &bytes)?;
    let Unit {
        files,
        list,
        bytes,
        included: _,
        classes: _,
        awaiting: _,
    } = read;
    Ok(Tokens {
        files,
        list,
        end,
        bytes,
    })
}
