//! What holds of conversions and of the choice, in every graph.

ghost use Rattle.std.specs.Prelude.{ℕ};
ghost use Rattle.std.specs.Bool.{Decides};
ghost use Rattle.mm_classes.specs.Classes.{Derives};
ghost use Rattle.mm_overload.specs.Rank.{is_base};
ghost use Rattle.mm_overload.specs.Better.{OneOrder};
ghost use Rattle.mm_overload.specs.Choice.{OneChoice};

use mm_paths::graph::Graph;

/// The test for a base is that one class derives from the other.
pub fn bases(graph: &Graph)
    ensures { (c b : ℕ) → Decides (is_base graph.now c b) (Derives graph.now c b) }
{
    // Asked here, so that the graph is known to be a class list.
    let _classes = graph.classes();
}

/// Of two conversions at most one is better.
pub fn one_order(graph: &Graph)
    ensures { OneOrder graph.now }
{
    // Asked here, so that the graph is known to be a class list.
    let _classes = graph.classes();
}

/// A call has one choice, so at most one function is the best.
pub fn one_choice()
    ensures { OneChoice }
{}
