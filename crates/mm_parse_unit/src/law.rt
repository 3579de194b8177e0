// What holds of units as a whole.

ghost use Rattle.mm_parse_unit.specs.Units.{OneAnswer};

/// Tokens are the text of one unit, or have one first syntax fault. Nothing runs here: the clause is the law.
pub fn one_answer()
    ensures { OneAnswer }
{}
