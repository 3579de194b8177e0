// How what a command comes to is written.

ghost use Rattle.std.specs.Prelude.{◌≡◌, ◌≤◌};
ghost use Rattle.mm_command.specs.Due.{no_memory};
ghost use Rattle.mm_command.specs.Writing.{WritesText, Reports, Finishes};

use mm_base::outside::{PutEnd, Sink};
use mm_base::writing::WriteEnd;

/// What a command comes to, in memory: its status, the text that is due on the output, and the
/// message; one of the two is empty.
#[derive(Drop)]
pub struct Outcome {
    pub status: u8,
    pub text: Vec<u8>,
    pub message: Vec<u8>,
}

// Puts all of the bytes, in as many parts as the sink takes them.
fn put_text<S: Sink>(sink: &mut S, bytes: &[u8]) -> WriteEnd
    ensures content { WritesText result bytes.now (record { old = S.seen sink.old; new = S.seen sink.new }) }
    ensures later { (S.seen sink.old).faults ≤ (S.seen sink.new).faults }
{
    let mut done = 0;
    while done < bytes.len() {
        match sink.put(&bytes[done..]) {
            PutEnd::Took(count) => done += count,
            PutEnd::Failed => return WriteEnd::Failed,
            PutEnd::NoMemory => return WriteEnd::NoMemory,
        }
    }
    WriteEnd::Done
}

// Puts the message of a status.
fn say<E: Sink>(err: &mut E, status: u8, message: &[u8]) -> u8
    ensures content { Reports status message.now result (record { old = E.seen err.old; new = E.seen err.new }) }
    ensures later { (E.seen err.old).faults ≤ (E.seen err.new).faults }
{
    match put_text(err, message) {
        WriteEnd::Done => status,
        WriteEnd::Failed => status,
        WriteEnd::NoMemory => 9,
    }
}

/// Says that memory ran out.
pub fn say_no_memory<E: Sink>(err: &mut E) -> u8
    ensures content { Reports 9 no_memory result (record { old = E.seen err.old; new = E.seen err.new }) }
    ensures later { (E.seen err.old).faults ≤ (E.seen err.new).faults }
{
    say(err, 9, b"mmc: no memory\n")
}

/// Writes what a command comes to, and answers the status.
pub fn finish<O: Sink, E: Sink>(outcome: &Outcome, out: &mut O, err: &mut E) -> u8
    ensures content { Finishes outcome.now result
        (record { old = O.seen out.old; new = O.seen out.new })
        (record { old = E.seen err.old; new = E.seen err.new }) }
    ensures out { (O.seen out.old).faults ≤ (O.seen out.new).faults }
    ensures err { (E.seen err.old).faults ≤ (E.seen err.new).faults }
{
    match put_text(out, outcome.text.as_slice()) {
        WriteEnd::Done => say(err, outcome.status, outcome.message.as_slice()),
        WriteEnd::Failed => say(err, 4, b"mmc: write failed\n"),
        WriteEnd::NoMemory => say_no_memory(err),
    }
}
