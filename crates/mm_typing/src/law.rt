//! What holds of all expressions.

ghost use Rattle.mm_typing.specs.Typing.{OneVerdict};

/// In each environment each expression is typed in exactly one way, or has exactly one first fault.
pub fn one_verdict()
    ensures { OneVerdict }
{}
