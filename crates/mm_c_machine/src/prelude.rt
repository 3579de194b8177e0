// The functions of the prelude, on values.

ghost use Rattle.std.specs.Prelude.{◌≡◌, ℤ, List, Option, IfOk, IsTrue};
ghost use Rattle.mm_base.specs.World as plain;
ghost use Rattle.mm_base.specs.Calls.{world_view, IsAskedWith};
ghost use Rattle.mm_c.specs.Memory as c;
ghost use Rattle.mm_c_memory.specs.Held.{Holds};
ghost use Rattle.mm_c_machine.specs.Answers.{Answers, Asks, PutsInt, are_ints};

use mm_base::world::{Builtin, World, WorldEnd};
use mm_c::value::CValue;
use mm_c_memory::memory::Memory;
use std::alloc::{AllocError, Global};

/// A function of the prelude.
#[derive(Clone, Copy, Debug, PartialEq, Eq)]
pub enum Prelude {
    Asks(Builtin),
    Trap,
    New,
}

/// Why a call of one gives nothing.
#[derive(Clone, Copy, Debug, PartialEq, Eq)]
pub enum Refusal {
    Trapped(u8),
    Stuck,
    NoMemory,
}

impl From<AllocError> for Refusal {
    ghost use Rattle.mm_c_machine.specs.declared.prelude.Refusal.TheVariants.{NoMemory};

    ghost from_gives = { λ _ refusal. refusal ≡ NoMemory };

    fn from(_error: AllocError) -> Refusal {
        Refusal::NoMemory
    }
}

fn all_ints(values: &[CValue]) -> bool
    ensures { result ≡ are_ints values.now }
{
    for v in values {
        match *v {
            CValue::Int(_) => {}
            _ => return false,
        }
    }
    true
}

// What the world answers.
fn call(world: &mut World, which: Builtin, args: &[i32]) -> Result<Option<CValue>, Refusal>
    requires { IsAskedWith which args.now }
    ensures { Asks result which args.now (world_view world.old) (world_view world.new) }
{
    match world.call(which, args) {
        Ok(given) => Ok(given.map(CValue::Int)),
        Err(WorldEnd::Trap(trap)) => Err(Refusal::Trapped(trap.code())),
        Err(WorldEnd::NoMemory) => Err(Refusal::NoMemory),
    }
}

fn put_one(world: &mut World, value: CValue) -> Result<Option<CValue>, Refusal>
    ensures { PutsInt result value (world_view world.old) (world_view world.new) }
{
    match value {
        CValue::Int(n) => call(world, Builtin::Put, &[n]),
        _ => Err(Refusal::Stuck),
    }
}

fn put(world: &mut World, values: &[CValue]) -> Result<Option<CValue>, Refusal>
    requires { IsTrue (are_ints values.now) }
    ensures { (m : List c.Block) (held : Memory) → Holds m held → Answers result (Prelude.Asks Builtin.Put) values.now m (world_view world.old) held (world_view world.new) }
{
    if values.is_empty() {
        return Ok(None);
    }
    put_one(world, values[0])
}

fn ask(world: &mut World, which: Builtin, values: &[CValue]) -> Result<Option<CValue>, Refusal>
    ensures { (m : List c.Block) (held : Memory) → Holds m held → Answers result (Prelude.Asks which) values.now m (world_view world.old) held (world_view world.new) }
{
    if !all_ints(values) {
        return Err(Refusal::Stuck);
    }
    match which {
        Builtin::Put => put(world, values),
        Builtin::Get => call(world, Builtin::Get, &[]),
        Builtin::More => call(world, Builtin::More, &[]),
    }
}

fn trap(values: &[CValue]) -> Refusal
    ensures { (m : List c.Block) (w : plain.World) (held : Memory) → Answers (Err result) Prelude.Trap values.now m w held w }
{
    if values.len() != 1 {
        return Refusal::Stuck;
    }
    match values[0] {
        CValue::Int(k) if k > 0 && k < 256 => Refusal::Trapped(k as u8),
        _ => Refusal::Stuck,
    }
}

fn allocate(
    alloc: Global,
    memory: &mut Memory,
    values: &[CValue],
) -> Result<Option<CValue>, Refusal>
    ensures { (m : List c.Block) (w : plain.World) → Holds m memory.old → Answers result Prelude.New values.now m w memory.new w }
{
    match values {
        [CValue::Unsigned(size)] if *size > 0 => Ok(Some(memory.allocate(alloc, *size)?)),
        _ => Err(Refusal::Stuck),
    }
}

/// Calls a function of the prelude.
pub fn answer(
    alloc: Global,
    memory: &mut Memory,
    world: &mut World,
    which: Prelude,
    values: &[CValue],
) -> Result<Option<CValue>, Refusal>
    ensures { (m : List c.Block) → Holds m memory.old → Answers result which values.now m (world_view world.old) memory.new (world_view world.new) }
{
    match which {
        Prelude::Asks(which) => ask(world, which, values),
        Prelude::Trap => Err(trap(values)),
        Prelude::New => allocate(alloc, memory, values),
    }
}
