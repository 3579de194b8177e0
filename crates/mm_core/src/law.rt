// What holds of all runs.

ghost use Rattle.std.specs.Prelude.{List};
ghost use Rattle.mm_classes.specs.Classes.{Class, IsClassList};
ghost use Rattle.mm_core.specs.Keeps.{ProgramsFit, ValuesFit};
ghost use Rattle.mm_core.specs.Relations.{Orders, Reads};
ghost use Rattle.mm_core.specs.Settles.{DeepEnough, LeavesClock, Settles};

/// A run that ended or trapped is the same at every higher bound; one that goes on has put a front of what it puts at a higher one.
#[tactic(auto, using(crate::proofs::Longer::settles))]
pub fn settles()
    ensures { Settles }
{}

/// The clock left is no more than was given.
#[tactic(auto, using(crate::proofs::Deep::clock_left))]
pub fn clock_left()
    ensures { LeavesClock }
{}

/// The depth of calls is no bound beside the clock.
#[tactic(auto, using(crate::proofs::Deep::deep_enough))]
pub fn deep_enough()
    ensures { DeepEnough }
{}

/// The computed sets of subobjects are what the relations say.
#[tactic(auto, using(crate::proofs::Sets::reads_sets))]
pub fn reads_sets()
    ensures { (g : List Class) → IsClassList g → Reads g }
{}

/// Overriding is transitive, and no declaration overrides itself.
#[tactic(auto, using(crate::proofs::Overriding::orders))]
pub fn orders()
    ensures { (g : List Class) → IsClassList g → Orders g }
{}

/// What a valid function gives fits its result type, where its arguments fit theirs and what it calls gives what fits.
#[tactic(auto, using(crate::proofs::SoundCalls::values_fit_types))]
pub fn values_fit()
    ensures { ValuesFit }
{}

/// In a merged program whose open-methods have no fault every call of a defined function gives a value of its type, and a run
/// that ends does so with an `int`.
#[tactic(auto, using(crate::proofs::Whole::programs_fit))]
pub fn programs_fit()
    ensures { ProgramsFit }
{}
