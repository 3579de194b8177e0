// What holds of all units.

ghost use Rattle.mm_unit_typing.specs.Laws.{OneVerdict};

/// A unit is typed in exactly one way and has no fault, or it isn't typed and has exactly one first fault. Nothing runs
/// here: the clause is the law.
pub fn one_verdict()
    ensures { OneVerdict }
{}
