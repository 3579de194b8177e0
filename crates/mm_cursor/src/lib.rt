//! A cursor over the tokens of a unit, and what a function that reads by it says of the grammar.
#![tactic(auto)]

ghost use Rattle.std.specs.Prelude.{◌≡◌, ◌≤◌, length, map};
ghost use Rattle.mm_grammar.specs.Grammar.{has};
ghost use Rattle.mm_syntax.specs.Symbols.{number_of};
ghost use Rattle.mm_cursor.specs.Cursor.{next_of, Eats, Takes};
ghost use Rattle.mm_cursor.specs.declared.Stop.TheVariants.{NoMemory};

pub mod list;

use mm_syntax::symbol::{Symbol, classify, number};
use mm_token::token::Token;
use std::alloc::AllocError;
use std::marker::Model;

/// Why a reader stops: at the first token that it leaves, or for want of memory.
#[derive(Clone, Copy)]
pub enum Stop {
    Fault,
    NoMemory,
}

impl From<AllocError> for Stop {
    ghost from_gives = { λ _ e. e ≡ NoMemory };

    fn from(_: AllocError) -> Stop {
        Stop::NoMemory
    }
}

/// The tokens that are left to read, which contracts see as their list.
#[derive(Drop)]
pub struct Cursor<'a> {
    rest: &'a [Token],
    /// What the grammar knows of the first of them, as a number; 62 where there is none.
    next: u32,
}

impl<'a> Model for Cursor<'a> {
    ghost use Rattle.std.specs.Prelude.{◌≡◌, List};
    ghost use Rattle.mm_token.specs.declared.token.Token.{Token};

    ghost Value = { List Token };

    ghost use Rattle.mm_cursor.specs.Cursor.{next_of};

    ghost view = { λ c. c.rest.now };

    ghost invariant = { λ c. c.next ≡ next_of c.rest.now };
}

fn number_at(tokens: &[Token]) -> u32
    ensures { result ≡ next_of tokens.now }
{
    match tokens {
        [] => 62,
        [next, ..] => number(classify(next)),
    }
}

fn is_among(next: u32, symbols: &[Symbol]) -> bool
    ensures { result ≡ has next (map number_of symbols.now) }
{
    for symbol in symbols {
        if next == number(*symbol) {
            return true;
        }
    }
    false
}

impl<'a> Cursor<'a> {
    /// A cursor before these tokens.
    pub fn new(tokens: &'a [Token]) -> Cursor<'a>
        ensures { result ≡ tokens.now }
    {
        let next = number_at(tokens);
        Cursor { rest: tokens, next }
    }

    /// The tokens that are left.
    pub fn rest(&self) -> &'a [Token]
        ensures { result.now ≡ self.now }
    {
        self.rest
    }

    /// Takes the next token where it is one of these.
    pub fn eat(&mut self, symbols: &[Symbol]) -> Option<&'a Token>
        ensures { Eats symbols.now self.old result self.new }
    {
        if !is_among(self.next, symbols) {
            return None;
        }
        match self.rest {
            [] => None,
            [next, rest @ ..] => {
                self.rest = rest;
                self.next = number_at(rest);
                Some(next)
            }
        }
    }

    /// The next token, which is to be one of these.
    pub fn take(&mut self, symbols: &[Symbol]) -> Result<&'a Token, Stop>
        ensures reads { Takes symbols.now self.old result self.new }
        ensures shorter { length self.new ≤ length self.old }
    {
        match self.eat(symbols) {
            Some(next) => Ok(next),
            None => Err(Stop::Fault),
        }
    }
}
