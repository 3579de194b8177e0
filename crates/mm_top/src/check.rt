// `check`: from a unit to the word that it has no listed fault.

ghost use Rattle.std.specs.Prelude.{Some, IfOk};
ghost use Rattle.mm_base.specs.Outside.{SourceSeen};
ghost use Rattle.mm_token.specs.Causes.{AreKept};
ghost use Rattle.mm_command.specs.declared.words.Command.TheVariants.{Check};
ghost use Rattle.mm_command.specs.Outside.{Change};
ghost use Rattle.mm_command.specs.Due.{Accepted};
ghost use Rattle.mm_command.specs.Writing.{IsOutcome};
ghost use Rattle.mm_top.specs.Steps.{ComesTo};

use crate::outcome::refused;
use mm_base::code::NoMemory;
use mm_base::outside::Files;
use mm_command::writing::Outcome;
use mm_verdict::forms::unbuilt_in_check;
use mm_verdict::unit::sound_unit;
use std::alloc::Global;

// The outcome of a unit without a listed fault.
fn accepted(alloc: Global) -> Result<Outcome, NoMemory>
    ensures { IfOk result (λ x. IsOutcome Accepted x) }
{
    let text = Vec::from_slice(alloc, b"ok\n")?;
    Ok(Outcome {
        status: 0,
        text,
        message: Vec::new(alloc),
    })
}

/// That a unit has no listed fault, or its first one.
pub fn check<F: Files>(alloc: Global, name: &str, files: &mut F) -> Result<Outcome, NoMemory>
    ensures content { IfOk result (λ x. (input : Change SourceSeen) →
        ComesTo (Some (Check name.now))
        (record { old = F.seen files.old; new = F.seen files.new }) input x) }
    ensures files { AreKept (F.seen files.old) (F.seen files.new) }
{
    match sound_unit(alloc, name, unbuilt_in_check(), files) {
        Ok(_) => accepted(alloc),
        Err(reason) => refused(alloc, &reason),
    }
}
