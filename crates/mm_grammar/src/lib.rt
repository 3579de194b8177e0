//! Grammars as data: what a part spells, what its fronts are, and why one token ahead decides.
//! Nothing runs here: the crate is its definitions and laws.
#![tactic(auto)]

ghost use Rattle.mm_grammar.specs.Small.{NearestElse, OneTree};

/// An `else` goes with the nearest `if` that has none, and with no other, in the small language of the definitions.
pub fn nearest_else()
    ensures { NearestElse }
{}

/// Tokens are the text of at most one statement of the small language, whose claims fit.
pub fn one_tree()
    ensures { OneTree }
{}
