// The outcomes of refusals.

ghost use Rattle.std.specs.Prelude.{◌≡◌, [], IfOk};
ghost use Rattle.mm_command.specs.Due.{Refused};
ghost use Rattle.mm_command.specs.Writing.{IsOutcome};
ghost use Rattle.mm_top.specs.Steps.{IsRefusal};

use crate::message::{fault_message, no_file, read_failed, too_long};
use mm_base::code::NoMemory;
use mm_base::limits::MAX_UNIT_BYTES;
use mm_command::writing::Outcome;
use mm_verdict::fault::Refusal;
use std::alloc::Global;

/// The outcome of a refusal with this status and message.
pub fn refusal(alloc: Global, status: u8, message: Vec<u8>) -> Outcome
    ensures { IsOutcome (Refused status message.items) result }
{
    Outcome {
        status,
        text: Vec::new(alloc),
        message,
    }
}

/// The outcome of a unit that is refused.
pub fn refused(alloc: Global, reason: &Refusal) -> Result<Outcome, NoMemory>
    ensures { IfOk result (λ x. IsRefusal reason.now x) }
{
    match reason {
        Refusal::Missing(file) => Ok(refusal(alloc, 3, no_file(alloc, file.as_str())?)),
        Refusal::Unread(file) => Ok(refusal(alloc, 3, read_failed(alloc, file.as_str())?)),
        Refusal::Long(file) => {
            let message = too_long(alloc, file.as_str(), MAX_UNIT_BYTES)?;
            Ok(refusal(alloc, 13, message))
        }
        Refusal::Faulty(fault) => Ok(refusal(alloc, 1, fault_message(alloc, fault)?)),
        Refusal::NoMemory => Err(NoMemory),
    }
}
