// What holds of the grammar as a whole.

ghost use Rattle.mm_syntax.specs.Laws.{OneTree};
ghost use Rattle.mm_syntax.specs.Spelled.{OperatorsAreSpelled, FirstIsSpelled};

/// Tokens are a text of each rule with at most one tree. Nothing runs here: the clause is the law.
pub fn one_tree()
    ensures { OneTree }
{}

/// Each operator is spelled as the token that it was read from.
pub fn operators_are_spelled()
    ensures { OperatorsAreSpelled }
{}

/// The text of a tree's first token is that of the token at its place.
pub fn first_is_spelled()
    ensures { FirstIsSpelled }
{}
