// What holds of verdicts.

ghost use Rattle.mm_verdict.specs.Laws.{OneVerdict};

/// The law: files that tell what they hold give a unit one verdict, but for failed reads. Nothing
/// runs here.
pub fn one_verdict()
    ensures { OneVerdict }
{}
