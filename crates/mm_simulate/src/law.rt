// That the code runs as its tree does.

ghost use Rattle.mm_simulate.specs.Simulates.{Simulates, Keeps};

/// The C program of a merged program without classes translates it, at every input and every bound, and
/// keeps the rules of C.
#[tactic(auto, using(crate::proofs::Scalar::simulates))]
pub fn simulates()
    ensures { Simulates }
{}

/// The code of a defined function does at a clock what the function does, in any C program whose functions
/// do so at every clock below it.
#[tactic(auto, using(crate::proofs::Scalar::keeps_law))]
pub fn keeps()
    ensures { Keeps }
{}
