// Laws of this crate's definitions. Each is the contract of a function that does nothing.

ghost use Rattle.mm_c_placed.specs.Laws.{CallsStep, LoopsStep, RunsAsDeep};

/// The laws of runs: calls and loops as deep as the clock allows.
pub fn runs()
    ensures calls { CallsStep }
    ensures loops { LoopsStep }
    ensures deep { RunsAsDeep }
{}
