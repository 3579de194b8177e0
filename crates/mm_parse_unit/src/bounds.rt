// What holds of each unit that was read.

ghost use Rattle.mm_parse_unit.specs.Bounds.{KeepsBounds};

/// What every unit keeps that was read from tokens. Nothing runs here: the clause is the law.
pub fn keeps_bounds()
    ensures { KeepsBounds }
{}
