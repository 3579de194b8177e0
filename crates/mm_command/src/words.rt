// The words of the command line.

ghost use Rattle.std.specs.Prelude.{◌≡◌, ℕ, true, false, IfOk, List, ◌∷◌, Option, Some, map, string_bytes};
ghost use Rattle.std.specs.Option.{option_copied};
ghost use Rattle.mm_command.specs.declared.words.Next.TheVariants as next;
ghost use Rattle.mm_command.specs.Command.{is_option, gives_steps, kind_of, told, nothing_told, onto, plain_word, value, goes_on, is_record_name, only_name, bound_of, bound_among, unit_of, bounded_of, command};

use mm_base::limits::{DEFAULT_STEPS, MAX_STEPS};
use mm_base::num::read_decimal;
use mm_base::text::Text;
use sqlite_items::Items;
use std::alloc::{AllocError, Global};

/// What is asked of the program.
#[derive(Drop)]
pub enum Command {
    /// To say that the unit in this file has no listed fault, or its first.
    Check(Text),
    /// To write the C text of the unit in this file.
    Link(Text),
    /// To run the unit in this file, with this bound on its steps.
    Run(Text, u64),
    /// To run the C text in this file, with this bound on its steps.
    Exec(Text, u64),
}

/// What a word is, in front of `--`.
#[derive(Clone, Copy)]
pub enum WordKind {
    /// `--`, behind which all words are plain.
    Dashes,
    /// `--steps`, which takes the next word.
    Steps,
    /// `--steps=N`.
    StepsEqual,
    /// Another option.
    Unknown,
    Plain,
}

/// What the next word is read as.
#[derive(Clone, Copy)]
pub enum Next {
    /// As one in front of `--`.
    Word,
    /// As the bound on the steps.
    Value,
    /// As a plain one.
    Plain,
}

/// What the words behind a command tell: the plain ones, and what each word says that is given as
/// a bound.
#[derive(Drop)]
pub struct Told {
    pub plain: Items<Text>,
    pub steps: Items<Option<u64>>,
}

fn option_word(word: &str) -> bool
    ensures { result ≡ is_option word.now }
{
    match word.as_bytes() {
        [] => false,
        [first, rest @ ..] => *first == b'-' && !rest.is_empty(),
    }
}

fn gives_steps(word: &str) -> bool
    ensures { result ≡ gives_steps word.now }
{
    let bytes = word.as_bytes();
    &bytes[..bytes.len().min(8)] == b"--steps=".as_slice()
}

fn kind(word: &str, bounded: bool) -> WordKind
    ensures { result ≡ kind_of bounded word.now }
{
    if word == "--" {
        WordKind::Dashes
    } else if bounded && word == "--steps" {
        WordKind::Steps
    } else if bounded && gives_steps(word) {
        WordKind::StepsEqual
    } else if option_word(word) {
        WordKind::Unknown
    } else {
        WordKind::Plain
    }
}

// The bound that a word says.
fn read_bound(word: &[u8]) -> Option<u64>
    ensures { result ≡ bound_of word.now }
{
    let steps = u64::from(read_decimal(word)?);
    if word[0] != b'0' && steps <= MAX_STEPS {
        Some(steps)
    } else {
        None
    }
}

// Takes a word as a plain one.
fn add_plain(alloc: Global, told: &mut Told, word: &str) -> Result<(), AllocError>
    ensures { IfOk result (λ _. (t : Option Told) → onto told.new t ≡ onto told.old (onto (plain_word word.now) t)) }
{
    let word = Text::from_str(alloc, word)?;
    told.plain.push(word)?;
    Ok(())
}

// Takes a word as a bound.
fn add_bound(told: &mut Told, word: &[u8]) -> Result<(), AllocError>
    ensures { IfOk result (λ _. (t : Option Told) → onto told.new t ≡ onto told.old (onto (value word.now) t)) }
{
    told.steps.push(read_bound(word))?;
    Ok(())
}

// Takes a word in front of `--`: what the next is read as, or none where the word is refused.
fn take_word(
    alloc: Global,
    told: &mut Told,
    word: &str,
    bounded: bool,
) -> Result<Option<Next>, AllocError>
    ensures { IfOk result (λ n. (ws : List (List ℕ)) → goes_on bounded told.old (Some next.Word) (word.now ∷ ws) ≡ goes_on bounded told.new n ws) }
{
    match kind(word, bounded) {
        WordKind::Dashes => Ok(Some(Next::Plain)),
        WordKind::Steps => Ok(Some(Next::Value)),
        WordKind::StepsEqual => {
            let bytes = word.as_bytes();
            add_bound(told, &bytes[bytes.len().min(8)..])?;
            Ok(Some(Next::Word))
        }
        WordKind::Unknown => Ok(None),
        WordKind::Plain => {
            add_plain(alloc, told, word)?;
            Ok(Some(Next::Word))
        }
    }
}

// Takes a word: what the next is read as, or none where the word is refused.
fn take(
    alloc: Global,
    told: &mut Told,
    word: &str,
    next: Next,
    bounded: bool,
) -> Result<Option<Next>, AllocError>
    ensures { IfOk result (λ n. (ws : List (List ℕ)) → goes_on bounded told.old (Some next) (word.now ∷ ws) ≡ goes_on bounded told.new n ws) }
{
    match next {
        Next::Word => take_word(alloc, told, word, bounded),
        Next::Value => {
            add_bound(told, word.as_bytes())?;
            Ok(Some(Next::Word))
        }
        Next::Plain => {
            add_plain(alloc, told, word)?;
            Ok(Some(Next::Plain))
        }
    }
}

// What the words behind a command tell, of one that takes a bound or takes none.
fn read_told(alloc: Global, words: &[String], bounded: bool) -> Result<Option<Told>, AllocError>
    ensures { IfOk result (λ t. t ≡ told bounded next.Word (map string_bytes words.now)) }
{
    let mut told = Told {
        plain: Items::new(alloc),
        steps: Items::new(alloc),
    };
    let mut next = Next::Word;
    for word in words {
        match take(alloc, &mut told, word.as_str(), next, bounded)? {
            Some(now) => next = now,
            None => return Ok(None),
        }
    }
    match next {
        Next::Value => Ok(None),
        Next::Word | Next::Plain => Ok(Some(told)),
    }
}

fn record_name(word: &str) -> bool
    ensures { result ≡ is_record_name word.now }
{
    let bytes = word.as_bytes();
    &bytes[bytes.len().saturating_sub(4)..] == b".mmu".as_slice()
}

// The one name among plain words.
fn name(words: &[Text], of_unit: bool) -> Option<&Text>
    ensures { option_copied result ≡ only_name of_unit words.now }
{
    match words {
        [word] => {
            if word.as_bytes().is_empty() || of_unit && record_name(word.as_str()) {
                None
            } else {
                Some(word)
            }
        }
        [] => None,
        [_, _, ..] => None,
    }
}

fn bound(steps: &[Option<u64>]) -> Option<u64>
    ensures { result ≡ bound_among steps.now }
{
    match steps {
        [] => Some(DEFAULT_STEPS),
        [only] => *only,
        [_, _, ..] => None,
    }
}

// A copy of a name, where there is one.
fn copied(alloc: Global, name: Option<&Text>) -> Result<Option<Text>, AllocError>
    ensures { IfOk result (λ n. n ≡ option_copied name.entry) }
{
    match name {
        Some(name) => Ok(Some(Text::from_str(alloc, name.as_str())?)),
        None => Ok(None),
    }
}

// The file of a unit, of a command that takes nothing else.
fn read_unit(alloc: Global, words: &[String]) -> Result<Option<Text>, AllocError>
    ensures { IfOk result (λ n. n ≡ unit_of (told false next.Word (map string_bytes words.now))) }
{
    match read_told(alloc, words, false)? {
        Some(told) => copied(alloc, name(told.plain.as_slice(), true)),
        None => Ok(None),
    }
}

// The file of a run and the bound on its steps.
fn read_bounded(
    alloc: Global,
    words: &[String],
    of_unit: bool,
) -> Result<Option<(Text, u64)>, AllocError>
    ensures { IfOk result (λ r. r ≡ bounded_of of_unit (told true next.Word (map string_bytes words.now))) }
{
    let Some(told) = read_told(alloc, words, true)? else {
        return Ok(None);
    };
    let name = copied(alloc, name(told.plain.as_slice(), of_unit))?;
    match (name, bound(told.steps.as_slice())) {
        (Some(name), Some(steps)) => Ok(Some((name, steps))),
        (_, _) => Ok(None),
    }
}

/// What the words ask for, which are those after the program's name; none where they are no command.
pub fn read_words(alloc: Global, words: &[String]) -> Result<Option<Command>, AllocError>
    ensures { IfOk result (λ c. c ≡ command (map string_bytes words.now)) }
{
    let Some((first, rest)) = words.split_first() else {
        return Ok(None);
    };
    let first = first.as_str();
    if first == "check" {
        match read_unit(alloc, rest)? {
            Some(name) => Ok(Some(Command::Check(name))),
            None => Ok(None),
        }
    } else if first == "link" {
        match read_unit(alloc, rest)? {
            Some(name) => Ok(Some(Command::Link(name))),
            None => Ok(None),
        }
    } else if first == "run" {
        match read_bounded(alloc, rest, true)? {
            Some((name, steps)) => Ok(Some(Command::Run(name, steps))),
            None => Ok(None),
        }
    } else if first == "exec" {
        match read_bounded(alloc, rest, false)? {
            Some((name, steps)) => Ok(Some(Command::Exec(name, steps))),
            None => Ok(None),
        }
    } else {
        Ok(None)
    }
}
