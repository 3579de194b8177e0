// Faults of units, and why a unit gives no program.

use mm_base::code::Code;
use mm_base::place::Place;
use mm_base::text::Text;
use std::alloc::AllocError;

/// A fault of a unit.
#[derive(Drop)]
pub struct Fault {
    pub code: Code,
    /// Where it stands in its file.
    pub place: Place,
    /// The name of that file.
    pub file: Text,
    /// What it names: the token there, or what the program lacks; empty where it names nothing.
    pub text: Text,
}

/// Why a unit gives no program.
#[derive(Drop)]
pub enum Refusal {
    /// No file of this name is held: the unit's own, or one that it includes.
    Missing(Text),
    /// The read of this file failed.
    Unread(Text),
    /// This file is past its limit.
    Long(Text),
    /// The first fault.
    Faulty(Fault),
    NoMemory,
}

impl From<AllocError> for Refusal {
    ghost use Rattle.std.specs.Prelude.{◌≡◌};
    ghost use Rattle.mm_verdict.specs.declared.fault.Refusal.TheVariants.{NoMemory};

    ghost from_gives = { λ _ r. r ≡ NoMemory };

    fn from(_error: AllocError) -> Refusal {
        Refusal::NoMemory
    }
}
