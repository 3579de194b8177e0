// Laws of this crate's definitions. Each is the contract of a function that does nothing.

ghost use Rattle.mm_c_places.specs.Laws.{PlacedRuns, PlacedIsReady};

/// The laws of the program with numbers for names: it has the runs of the program, and each place
/// that it names is one of its function's slots.
pub fn places()
    ensures runs { PlacedRuns }
    ensures ready { PlacedIsReady }
{}
