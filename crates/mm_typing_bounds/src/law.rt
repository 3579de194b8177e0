//! How large the checked trees are of all that is typed.

ghost use Rattle.mm_typing_bounds.specs.Bounded.{TypedIsBounded, TypedUnitIsBounded, UnitIsSmall, TypedUnitIsShallow};

/// The checked tree of a typed expression is bounded by the nodes of the expression.
pub fn expressions()
    ensures { TypedIsBounded }
{}

/// So is each body of a typed unit, by the nodes of its expressions and by how deep its statements
/// stand.
pub fn units()
    ensures { TypedUnitIsBounded }
{}

/// A unit that keeps the limits is small, and what it is typed as can be lowered.
pub fn shallow()
    ensures small { UnitIsSmall }
    ensures shallow { TypedUnitIsShallow }
{}
