//! What holds of who may use a member.

ghost use Rattle.mm_lookup.specs.Access.{Collapses};

use mm_paths::graph::Graph;

/// A member may be used by way of bases exactly where one public step leads to a subobject at whose class it may be used at once.
pub fn collapses(graph: &Graph)
    ensures { Collapses graph.now }
{
    // Asked here, so that the graph is known to be a class list.
    let _classes = graph.classes();
}
