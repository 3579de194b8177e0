// From a C program to what its run tells.

ghost use Rattle.std.specs.Prelude.{◌≡◌, ◌≤◌, true, IfOk, string_bytes};
ghost use Rattle.mm_base.specs.Input.{TakesSome};
ghost use Rattle.mm_c.specs.CRun.{c_run};
ghost use Rattle.mm_c.specs.View.{program_view};
ghost use Rattle.mm_c.specs.WellFormed.{well_formed};
ghost use Rattle.mm_command.specs.Due.{Ran, last_line, status_of_run};
ghost use Rattle.mm_command.specs.Writing.{IsOutcome};
ghost use Rattle.mm_c_machine.specs.Runs.{finish_of};
ghost use Rattle.mm_top.specs.Runs.{outcome_with, RefusesInput, RunsTo};

use crate::message::{bad_line, too_long};
use crate::outcome::refusal;
use mm_base::code::NoMemory;
use mm_base::input::{InputEnd, read_input};
use mm_base::limits::MAX_INPUT_BYTES;
use mm_base::outside::Source;
use mm_base::world::World;
use mm_c::tree::CProgram;
use mm_c_machine::run::{End, run};
use mm_c_resolve::program::resolve;
use mm_command::lines::add_lines;
use mm_command::writing::Outcome;
use std::alloc::{AllocError, Global};

// How a run ended, on a line.
fn last_line(alloc: Global, end: End) -> Result<String, AllocError>
    ensures { IfOk result (λ text. string_bytes text ≡ last_line (finish_of end)) }
{
    match end {
        End::Ended(value) => format!(in alloc; "result {}\n", value),
        End::Trapped(trap) => format!(in alloc; "trap {}\n", trap),
        End::GoesOn => String::from_str(alloc, "steps spent\n"),
        End::Stuck => String::from_str(alloc, "stuck\n"),
    }
}

fn status(end: End) -> u8
    ensures { result ≡ status_of_run (finish_of end) }
{
    match end {
        End::Ended(_) => 0,
        End::Trapped(_) => 5,
        End::GoesOn => 6,
        End::Stuck => 12,
    }
}

// What a run tells.
fn told(alloc: Global, put: &[i32], end: End) -> Result<Outcome, AllocError>
    ensures { IfOk result (λ x. IsOutcome (Ran (outcome_with end put.now)) x) }
{
    let last = last_line(alloc, end)?;
    let mut text = Vec::new(alloc);
    add_lines(alloc, &mut text, put)?;
    text.extend_from_slice(last.as_bytes())?;
    Ok(Outcome {
        status: status(end),
        text,
        message: Vec::new(alloc),
    })
}

// The run of a program on these numbers.
fn run_on(
    alloc: Global,
    program: &CProgram,
    numbers: Vec<i32>,
    steps: u64,
) -> Result<Outcome, AllocError>
    requires { well_formed (program_view program.now) ≡ true }
    ensures { IfOk result (λ x. IsOutcome (Ran (c_run (program_view program.now) numbers.items steps)) x) }
{
    let placed = resolve(alloc, program)?;
    let mut world = World::new(alloc, numbers);
    let end = run(alloc, &placed, &mut world, steps)?;
    told(alloc, world.put.as_slice(), end)
}

// The outcome of an input that gives no numbers.
fn refuse_input(alloc: Global, end: InputEnd) -> Result<Outcome, NoMemory>
    ensures { IfOk result (λ x. RefusesInput end x) }
{
    match end {
        InputEnd::BadLine(number) => Ok(refusal(alloc, 10, bad_line(alloc, number)?)),
        InputEnd::TooLong => {
            let message = too_long(alloc, "input", MAX_INPUT_BYTES as u64)?;
            Ok(refusal(alloc, 13, message))
        }
        InputEnd::Failed => {
            let message = Vec::from_slice(alloc, b"mmc: input failed\n")?;
            Ok(refusal(alloc, 11, message))
        }
        InputEnd::NoMemory => Err(NoMemory),
    }
}

/// Runs a program on the input.
pub fn run_program<I: Source>(
    alloc: Global,
    program: &CProgram,
    input: &mut I,
    steps: u64,
) -> Result<Outcome, NoMemory>
    requires { well_formed (program_view program.now) ≡ true }
    ensures content { IfOk result (λ x. RunsTo (λ ns. c_run (program_view program.now) ns steps)
        (record { old = I.seen input.old; new = I.seen input.new }) x) }
    ensures front { TakesSome (I.seen input.old) (I.seen input.new) }
    ensures later { (I.seen input.old).faults ≤ (I.seen input.new).faults }
{
    match read_input(alloc, input) {
        Ok(numbers) => Ok(run_on(alloc, program, numbers, steps)?),
        Err(end) => refuse_input(alloc, end),
    }
}
