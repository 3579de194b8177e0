// The top call.

ghost use Rattle.std.specs.Prelude.{IfOk, map, string_bytes};
ghost use Rattle.mm_token.specs.Causes.{AreKept};
ghost use Rattle.mm_command.specs.Command.{command};
ghost use Rattle.mm_command.specs.Answers.{InputKept, Answers};
ghost use Rattle.mm_top.specs.Comes.{Comes};
ghost use Rattle.mm_top.specs.Steps.{ComesTo};

use crate::check::check;
use crate::link::link;
use crate::outcome::refusal;
use crate::text::exec;
use crate::unit::run;
use mm_base::code::NoMemory;
use mm_base::outside::{Files, Sink, Source};
use mm_command::words::{Command, read_words};
use mm_command::writing::{Outcome, finish, say_no_memory};
use std::alloc::Global;

// What is asked comes to this.
fn outcome<F: Files, I: Source>(
    alloc: Global,
    asked: &Option<Command>,
    files: &mut F,
    input: &mut I,
) -> Result<Outcome, NoMemory>
    ensures content { IfOk result (λ x. ComesTo asked.now
        (record { old = F.seen files.old; new = F.seen files.new })
        (record { old = I.seen input.old; new = I.seen input.new }) x) }
    ensures files { AreKept (F.seen files.old) (F.seen files.new) }
    ensures input { InputKept asked.now (record { old = I.seen input.old; new = I.seen input.new }) }
{
    match asked {
        None => {
            let message = Vec::from_slice(alloc, b"mmc: usage\n")?;
            Ok(refusal(alloc, 2, message))
        }
        Some(Command::Check(name)) => check(alloc, name.as_str(), files),
        Some(Command::Link(name)) => link(alloc, name.as_str(), files),
        Some(Command::Run(name, steps)) => run(alloc, name.as_str(), *steps, files, input),
        Some(Command::Exec(name, steps)) => exec(alloc, name.as_str(), *steps, files, input),
    }
}

/// Does what the words ask, and answers the exit status.
///
/// `words` are those after the program's name. The text that is asked for goes to `out`, once it is
/// whole; messages go to `err`; `input` is what a program that is run reads. The statuses: 0 done,
/// 1 the unit is refused, 2 the words are no command, 3 a file could not be read, 4 the text could
/// not be written, 5 a run trapped, 6 a run has no steps left, 7 the C text is refused, 9 no memory,
/// 10 a line of the input is no number, 11 the input could not be read, 12 a run of a C text is
/// stuck, 13 a file or the input is too long.
pub fn mm_main<F: Files, I: Source, O: Sink, E: Sink>(
    alloc: Global,
    words: &[String],
    files: &mut F,
    input: &mut I,
    out: &mut O,
    err: &mut E,
) -> u8
    ensures answers { Answers
        (Comes (command (map string_bytes words.now))
        (record { old = F.seen files.old; new = F.seen files.new })
        (record { old = I.seen input.old; new = I.seen input.new }))
        result (command (map string_bytes words.now))
        (record {
          files = record { old = F.seen files.old; new = F.seen files.new };
          input = record { old = I.seen input.old; new = I.seen input.new };
          out = record { old = O.seen out.old; new = O.seen out.new };
          err = record { old = E.seen err.old; new = E.seen err.new };
        }) }
{
    let Ok(asked) = read_words(alloc, words) else {
        return say_no_memory(err);
    };
    match outcome(alloc, &asked, files, input) {
        Ok(outcome) => finish(&outcome, out, err),
        Err(_) => say_no_memory(err),
    }
}
