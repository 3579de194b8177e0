// Single tokens, and why a reader stops.

ghost use Rattle.std.specs.Prelude.{◌≡◌, IsTrue, IfOk, map};
ghost use Rattle.mm_grammar.specs.Grammar.{has};
ghost use Rattle.mm_c.specs.Tokens.{class_of, names, numbers, number_in};
ghost use Rattle.mm_c.specs.Grammar as grammar;
ghost use Rattle.mm_c_text.specs.Classes.{number_of};
ghost use Rattle.mm_c_text.specs.Cursor.{Eats, token_of};
ghost use Rattle.mm_c_parse.specs.Steps.{Answers, Marks, Passes, Skips};
ghost use Rattle.mm_c_parse.specs.declared.step.Stop.TheVariants.{NoMemory};

use mm_base::text::Text;
use mm_c::tree::CNumber;
use mm_c_text::class::Class;
use mm_c_text::cursor::{Cursor, Lexeme};
use mm_c_text::number::read_number;
use std::alloc::{AllocError, Global};

/// Why a reader stops: at the first token that it leaves, or for want of memory.
#[derive(Clone, Copy)]
pub enum Stop {
    Fault,
    NoMemory,
}

impl From<AllocError> for Stop {
    ghost from_gives = { λ _ e. e ≡ NoMemory };

    fn from(_: AllocError) -> Stop {
        Stop::NoMemory
    }
}

/// Passes over the next token where it is of this class.
pub fn skip(cursor: &mut Cursor<'_>, class: Class) -> bool
    ensures { Skips (number_of class) cursor.old result cursor.new }
{
    cursor.eat(&[class]).is_some()
}

/// Passes over one token of each of these classes.
pub fn marks(cursor: &mut Cursor<'_>, classes: &[Class]) -> Result<(), Stop>
    ensures { Passes (map number_of classes.now) cursor.old result cursor.new }
{
    for class in classes {
        if !skip(cursor, *class) {
            return Err(Stop::Fault);
        }
    }
    Ok(())
}

/// Takes the next token where it is a name.
pub fn eat_name<'a>(cursor: &mut Cursor<'a>) -> Option<Lexeme<'a>>
    ensures { Eats names cursor.old result cursor.new }
{
    cursor.eat(&[
        Class::Name,
        Class::Put,
        Class::Get,
        Class::More,
        Class::Trap,
        Class::New,
    ])
}

/// Takes the next token where it is a number.
pub fn eat_number<'a>(cursor: &mut Cursor<'a>) -> Option<Lexeme<'a>>
    ensures { Eats numbers cursor.old result cursor.new }
{
    cursor.eat(&[
        Class::Zero,
        Class::ZeroUnsigned,
        Class::One,
        Class::Largest,
        Class::Number,
    ])
}

/// The text of a name.
pub fn text_of(alloc: Global, token: Lexeme<'_>) -> Result<Text, AllocError>
    requires { IsTrue (has (class_of (token_of token)) names) }
    ensures { IfOk result (λ t. t ≡ (token_of token.entry).text) }
{
    match std::str::from_utf8(token.text) {
        Ok(text) => Text::from_str(alloc, text),
        Err(_) => unreachable!(),
    }
}

/// The value of a number.
pub fn value_of(token: Lexeme<'_>) -> CNumber
    requires { IsTrue (has (class_of (token_of token)) numbers) }
    ensures { result ≡ number_in (token_of token.entry).text }
{
    match read_number(token.text) {
        Some(number) => number,
        None => unreachable!(),
    }
}

/// A name.
pub fn ident(alloc: Global, cursor: &mut Cursor<'_>) -> Result<Text, Stop>
    ensures { Answers grammar.ident cursor.old result cursor.new }
{
    match eat_name(cursor) {
        None => Err(Stop::Fault),
        Some(word) => Ok(text_of(alloc, word)?),
    }
}

/// A number.
pub fn number(cursor: &mut Cursor<'_>) -> Result<CNumber, Stop>
    ensures { Answers grammar.number cursor.old result cursor.new }
{
    match eat_number(cursor) {
        None => Err(Stop::Fault),
        Some(word) => Ok(value_of(word)),
    }
}
