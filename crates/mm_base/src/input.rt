// The input of a run: lines, each an `int`.

ghost use Rattle.std.specs.Prelude.{◌≡◌, ◌∷◌, ◌+◌, ◌<◌, ◌≤◌, length};
ghost use Rattle.std.specs.List.{position};
ghost use Rattle.std.specs.Option.{SomeIff};
ghost use Rattle.mm_base.specs.Input.{is_end, lines, line_value, IsIntLine, ReadsNumbers, TakesWhole, TakesSome, ReadsInput};

use crate::limits::MAX_INPUT_BYTES;
use crate::num::read_decimal;
use crate::outside::{Source, TakeEnd};
use std::alloc::{AllocError, Global};

/// Why an input gives no numbers.
#[derive(Clone, Copy, Debug, PartialEq, Eq)]
pub enum InputEnd {
    /// The first line, counted from 1, that is no `int`.
    BadLine(usize),
    /// More than 2^20 bytes.
    TooLong,
    Failed,
    NoMemory,
}

impl From<AllocError> for InputEnd {
    ghost use Rattle.mm_base.specs.declared.input.InputEnd.TheVariants.{NoMemory};

    ghost from_gives = { λ _ end. end ≡ NoMemory };

    fn from(_error: AllocError) -> InputEnd {
        InputEnd::NoMemory
    }
}

/// The `int` that a line says: digits, with a `-` in front or without. Leading zeros are fine, and
/// so is `-0`; blanks and `+` are not.
pub fn read_int(line: &[u8]) -> Option<i32>
    ensures { SomeIff result (IsIntLine line.now) (line_value line.now) }
{
    let negative = !line.is_empty() && line[0] == b'-';
    let digits = if negative { &line[1..] } else { line };
    let value = i64::from(read_decimal(digits)?);
    i32::try_from(if negative { -value } else { value }).ok()
}

// Where the first LF stands.
fn end_of_line(text: &[u8]) -> Option<usize>
    ensures { result ≡ position is_end text.now }
{
    text.iter().position(|b| *b == b'\n')
}

// The first line of a text, without its LF, and what stands behind that.
fn first_line(text: &[u8]) -> (&[u8], &[u8])
    requires { 0 < length text.now }
    ensures cut { lines text.now ≡ result.0.now ∷ lines result.1.now }
    ensures less { length result.1.now < length text.now }
{
    match end_of_line(text) {
        Some(end) => (&text[..end], &text[end + 1..]),
        None => (text, &[]),
    }
}

/// The numbers of an input that was read, or its first bad line.
pub fn read_numbers(alloc: Global, bytes: &[u8]) -> Result<Vec<i32>, InputEnd>
    ensures { ReadsNumbers result bytes.now }
{
    let mut numbers = Vec::new(alloc);
    let mut rest = bytes;
    while !rest.is_empty() {
        let (line, behind) = first_line(rest);
        match read_int(line) {
            Some(number) => numbers.push(number).map_err(AllocError::from)?,
            None => return Err(InputEnd::BadLine(numbers.len() + 1)),
        }
        rest = behind;
    }
    Ok(numbers)
}

// Takes an input to its end, or until it has given one byte more than the limit.
fn take_whole<I: Source>(alloc: Global, input: &mut I) -> Result<Vec<u8>, InputEnd>
    ensures content { TakesWhole result (I.seen input.old) (I.seen input.new) }
    ensures front { TakesSome (I.seen input.old) (I.seen input.new) }
    ensures later { (I.seen input.old).faults ≤ (I.seen input.new).faults }
{
    let mut bytes = Vec::new(alloc);
    let mut buffer = [0u8; 4096];
    while bytes.len() <= MAX_INPUT_BYTES {
        let room = buffer.len().min(MAX_INPUT_BYTES + 1 - bytes.len());
        let count = match input.take(&mut buffer[..room]) {
            TakeEnd::Took(count) => count,
            TakeEnd::Failed => return Err(InputEnd::Failed),
        };
        if count == 0 {
            return Ok(bytes);
        }
        bytes.extend_from_slice(&buffer[..count])?;
    }
    Err(InputEnd::TooLong)
}

/// Takes a whole input, at most 2^20 bytes, and gives its numbers. Whether it failed or is too long
/// comes first: a bad line is looked for once all of it was taken.
pub fn read_input<I: Source>(alloc: Global, input: &mut I) -> Result<Vec<i32>, InputEnd>
    ensures content { ReadsInput result (I.seen input.old) (I.seen input.new) }
    ensures front { TakesSome (I.seen input.old) (I.seen input.new) }
    ensures later { (I.seen input.old).faults ≤ (I.seen input.new).faults }
{
    let bytes = take_whole(alloc, input)?;
    read_numbers(alloc, &bytes)
}
