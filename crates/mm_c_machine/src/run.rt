// A run of a program, one step after another.

ghost use Rattle.std.specs.Prelude.{◌≡◌, [], List, Option, IfOk, OnErr};
ghost use Rattle.mm_base.specs.Calls.{world_view};
ghost use Rattle.mm_c.specs.Memory as c;
ghost use Rattle.mm_c_memory.specs.Held.{Holds};
ghost use Rattle.mm_c_placed.specs.View.{program_view, function_view};
ghost use Rattle.mm_c_placed.specs.Ready.{IsReady};
ghost use Rattle.mm_c_placed.specs.Meaning.{run_of};
ghost use Rattle.mm_c_machine.specs.Answers.{state};
ghost use Rattle.mm_c_machine.specs.State.{seen};
ghost use Rattle.mm_c_machine.specs.Ready.{IsReadyCore};
ghost use Rattle.mm_c_machine.specs.Goes.{Grows, means};
ghost use Rattle.mm_c_machine.specs.Runs.{EndsAs, end_by, IsFirst};

use crate::frame;
use crate::machine::{Ending, Frame, Here, Machine, function};
use mm_base::world::World;
use mm_c::value::CValue;
use mm_c_memory::memory::Memory;
use mm_c_placed::tree::{PlacedFunction, PlacedProgram};
use std::alloc::{AllocError, Global};

/// How a run ends: with the result of `main`, with a trap, where a step past the bound is due, or
/// stuck.
#[derive(Clone, Copy, Debug, PartialEq, Eq)]
pub enum End {
    Ended(i32),
    Trapped(u8),
    GoesOn,
    Stuck,
}

// What the end of the machine is for the run: `main` returns an `int`.
fn end_of(ending: Ending) -> End
    ensures { result ≡ end_by ending }
{
    match ending {
        Ending::Returned(value) => match value {
            Some(v) => match v {
                CValue::Int(z) => End::Ended(z),
                _ => End::Stuck,
            },
            None => End::Stuck,
        },
        Ending::Trapped(t) => End::Trapped(t),
        Ending::Stuck => End::Stuck,
    }
}

// The machine behind the entry of `main`.
fn first<'a>(alloc: Global, f: &'a PlacedFunction) -> Result<Machine<'a>, AllocError>
    ensures core { IfOk result (λ machine. IsFirst (function_view f.now) (seen machine)) }
    ensures memory { IfOk result (λ machine. Holds [] machine.memory) }
{
    let mut values = Vec::new(alloc);
    frame::fill(&mut values, f.slots as usize)?;
    let here = if f.params.len() == 0 {
        Here::Code(f.body.as_slice())
    } else {
        Here::Stuck
    };
    Ok(Machine {
        here,
        pending: Vec::new(alloc),
        values,
        frame: Frame {
            base: 0,
            result: f.result,
            is_inline: f.is_inline,
        },
        memory: Memory::new(alloc),
    })
}

// Steps, at most as many as are left.
fn steps<'a>(
    alloc: Global,
    program: &'a PlacedProgram,
    world: &mut World,
    machine: &mut Machine<'a>,
    bound: u64,
) -> Result<End, AllocError>
    requires fits { IsReadyCore (seen machine.old) }
    requires ready { IsReady (program_view program.now) }
    requires held { (m : List c.Block) × Holds m machine.old.memory }
    ensures ok { IfOk result (λ e. (m : List c.Block) → Holds m machine.old.memory → EndsAs e (world_view world.new) (means (program_view program.now) (seen machine.old) (state m (world_view world.old)) bound)) }
    ensures err { OnErr result (Grows (world_view world.old) (world_view world.new)) }
{
    let mut left = bound;
    loop {
        if let Some(e) = machine.until_step(alloc, program, world)? {
            return Ok(end_of(e));
        }
        if left == 0 {
            return Ok(End::GoesOn);
        }
        left -= 1;
    }
}

fn run_on(
    alloc: Global,
    program: &PlacedProgram,
    world: &mut World,
    bound: u64,
) -> Result<End, AllocError>
    requires { IsReady (program_view program.now) }
    ensures ok { IfOk result (λ e. EndsAs e (world_view world.new) (run_of (program_view program.now) bound (state [] (world_view world.old)))) }
    ensures err { OnErr result (Grows (world_view world.old) (world_view world.new)) }
{
    let Some(main) = function(program, program.main) else {
        return Ok(End::Stuck);
    };
    if main.is_inline {
        let mut machine = first(alloc, main)?;
        return steps(alloc, program, world, &mut machine, bound);
    }
    if bound == 0 {
        return Ok(End::GoesOn);
    }
    let mut machine = first(alloc, main)?;
    steps(alloc, program, world, &mut machine, bound - 1)
}

/// Runs the program from `main` with a bound on its steps, without a block in its memory: how the
/// run ends, and the world that it leaves. The world is as before where memory was refused.
pub fn run(
    alloc: Global,
    program: &PlacedProgram,
    world: &mut World,
    bound: u64,
) -> Result<End, AllocError>
    requires { IsReady (program_view program.now) }
    ensures ok { IfOk result (λ e. EndsAs e (world_view world.new) (run_of (program_view program.now) bound (state [] (world_view world.old)))) }
    ensures err { OnErr result (world_view world.new ≡ world_view world.old) }
{
    let taken = world.taken;
    let put = world.put.len();
    match run_on(alloc, program, world, bound) {
        Ok(e) => Ok(e),
        Err(e) => {
            world.taken = taken;
            world.put.truncate(put);
            Err(e)
        }
    }
}
