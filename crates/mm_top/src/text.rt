// `exec`: from a C text to what its run tells.

ghost use Rattle.std.specs.Prelude.{◌≤◌, Some, IfOk, length};
ghost use Rattle.mm_base.specs.Input.{TakesSome};
ghost use Rattle.mm_base.specs.declared.limits.TheConstants.{MAX_C_BYTES};
ghost use Rattle.mm_token.specs.Causes.{AreKept};
ghost use Rattle.mm_command.specs.declared.words.Command.TheVariants.{Exec};
ghost use Rattle.mm_top.specs.Messages as messages;
ghost use Rattle.mm_top.specs.Steps.{ComesTo};
ghost use Rattle.mm_top.specs.Texts.{RefusesText, RunsBytes};

use crate::message::{bad_text, no_file, read_failed, too_long};
use crate::outcome::refusal;
use crate::running::run_program;
use mm_base::code::NoMemory;
use mm_base::limits::MAX_C_BYTES;
use mm_base::outside::{FileEnd, Files, Source};
use mm_c_read::{ReadEnd, read};
use mm_command::writing::Outcome;
use std::alloc::Global;

// The outcome of a text that gives no program.
fn refuse_text(alloc: Global, name: &str, end: ReadEnd) -> Result<Outcome, NoMemory>
    ensures { IfOk result (λ x. RefusesText name.now end x) }
{
    match end {
        ReadEnd::Refused(place) => {
            let message = bad_text(alloc, name, place.line, place.column)?;
            Ok(refusal(alloc, 7, message))
        }
        ReadEnd::NoMemory => Err(NoMemory),
    }
}

// Runs the program that a text spells, or refuses the text.
fn run_text<I: Source>(
    alloc: Global,
    name: &str,
    text: &[u8],
    input: &mut I,
    steps: u64,
) -> Result<Outcome, NoMemory>
    requires { length text.now ≤ MAX_C_BYTES }
    ensures content { IfOk result (λ x. RunsBytes name.now text.now steps
        (record { old = I.seen input.old; new = I.seen input.new }) x) }
    ensures front { TakesSome (I.seen input.old) (I.seen input.new) }
    ensures later { (I.seen input.old).faults ≤ (I.seen input.new).faults }
{
    match read(alloc, text) {
        Ok(program) => run_program(alloc, &program, input, steps),
        Err(end) => refuse_text(alloc, name, end),
    }
}

/// Runs the C text of a file on the input; or says why it can't be run.
pub fn exec<F: Files, I: Source>(
    alloc: Global,
    name: &str,
    steps: u64,
    files: &mut F,
    input: &mut I,
) -> Result<Outcome, NoMemory>
    ensures content { IfOk result (λ x. ComesTo (Some (Exec name.now steps))
        (record { old = F.seen files.old; new = F.seen files.new })
        (record { old = I.seen input.old; new = I.seen input.new }) x) }
    ensures files { AreKept (F.seen files.old) (F.seen files.new) }
    ensures front { TakesSome (I.seen input.old) (I.seen input.new) }
    ensures later { (I.seen input.old).faults ≤ (I.seen input.new).faults }
{
    let mut text = Vec::new(alloc);
    match files.read(name, MAX_C_BYTES, &mut text) {
        FileEnd::Done => run_text(alloc, name, text.as_slice(), input, steps),
        FileEnd::Absent => Ok(refusal(alloc, 3, no_file(alloc, name)?)),
        FileEnd::Failed => Ok(refusal(alloc, 3, read_failed(alloc, name)?)),
        FileEnd::TooLong => Ok(refusal(alloc, 13, too_long(alloc, name, MAX_C_BYTES)?)),
        FileEnd::NoMemory => Err(NoMemory),
    }
}
