//! Member lookup.

ghost use Rattle.std.specs.Prelude.{◌≡◌, ◌⊎◌, ◌<◌, ◌+◌, ℕ, length, MatchOption, IfSome};
ghost use Rattle.std.specs.Bool.{Decides};
ghost use Rattle.mm_classes.specs.Classes.{IsClassList, IsComplete};
ghost use Rattle.mm_classes.specs.Questions.{node, IsNode};
ghost use Rattle.mm_classes.specs.Subobjects.{subobjects_of, IsWithin};
ghost use Rattle.mm_classes.specs.Tops.{ContainsAll};
ghost use Rattle.mm_lookup.specs.Lookup.{Declares, Finds, IsBestOf};

use crate::found::Found;
use mm_classes::copies::is_a_field;
use mm_classes::id::{ClassId, NodeId};
use mm_paths::graph::Graph;

// Whether the class of a subobject declares the name.
fn declares(graph: &Graph, c: ClassId, n: NodeId, name: &str) -> bool
    requires complete { IsComplete graph.now c }
    requires node { IsNode graph.now c n }
    ensures { Decides result (Declares graph.now c name.now n) }
{
    graph.first_named(graph.class_of(c, n), name).is_some()
}

// The one so far, where it contains this one; else this one.
fn better(graph: &Graph, c: ClassId, best: Option<NodeId>, at: NodeId) -> NodeId
    requires complete { IsComplete graph.now c }
    requires best { IfSome best (IsNode graph.now c) }
    requires node { IsNode graph.now c at }
    ensures { MatchOption best (result ≡ at) (λ b. ((result ≡ b) × IsWithin graph.now (node graph.now c at) (node graph.now c b)) ⊎ ((result ≡ at) × (IsWithin graph.now (node graph.now c at) (node graph.now c b) → ⊥))) }
{
    match best {
        None => at,
        Some(b) => {
            if graph.contains(c, b, at) {
                return b;
            }
            at
        }
    }
}

// The best of one subobject more.
fn better_with(
    graph: &Graph,
    c: ClassId,
    name: &str,
    best: Option<NodeId>,
    at: NodeId,
) -> Option<NodeId>
    requires complete { IsComplete graph.now c }
    requires valid { IsClassList graph.now }
    requires node { IsNode graph.now c at }
    requires before { IsBestOf graph.now c name.now best at }
    ensures { IsBestOf graph.now c name.now result (at + 1) }
{
    if !declares(graph, c, at, name) {
        return best;
    }
    Some(better(graph, c, best, at))
}

// The one subobject that may contain all that declare the name: it begins with the first of them, and goes on to each that the
// one so far does not contain.
fn best(graph: &Graph, c: ClassId, name: &str) -> Option<NodeId>
    requires complete { IsComplete graph.now c }
    requires valid { IsClassList graph.now }
    ensures { IsBestOf graph.now c name.now result (length (subobjects_of graph.now c)) }
{
    let count = graph.count(c);
    let mut best = None;
    let mut n = 0;
    while n < count {
        best = better_with(graph, c, name, best, NodeId { number: n });
        n += 1;
    }
    best
}

// Whether a subobject lies in another one, if it declares the name.
fn lies_in(graph: &Graph, c: ClassId, name: &str, best: NodeId, at: NodeId) -> bool
    requires complete { IsComplete graph.now c }
    requires best { IsNode graph.now c best }
    requires node { IsNode graph.now c at }
    ensures { Decides result (Declares graph.now c name.now at → IsWithin graph.now (node graph.now c at) (node graph.now c best)) }
{
    if !declares(graph, c, at, name) {
        return true;
    }
    graph.contains(c, best, at)
}

// Whether a subobject contains all that declare the name.
fn contains_all(graph: &Graph, c: ClassId, name: &str, best: NodeId) -> bool
    requires complete { IsComplete graph.now c }
    requires node { IsNode graph.now c best }
    ensures { Decides result (ContainsAll graph.now c (Declares graph.now c name.now) best (length (subobjects_of graph.now c))) }
{
    let count = graph.count(c);
    let mut n = 0;
    while n < count {
        if !lies_in(graph, c, name, best, NodeId { number: n }) {
            return false;
        }
        n += 1;
    }
    true
}

// What the class of a subobject that contains all declares by the name.
fn declared(graph: &Graph, c: ClassId, n: NodeId, name: &str) -> Found
    requires complete { IsComplete graph.now c }
    requires valid { IsClassList graph.now }
    requires node { IsNode graph.now c n }
    requires fits { Declares graph.now c name.now n }
    requires all { ContainsAll graph.now c (Declares graph.now c name.now) n (length (subobjects_of graph.now c)) }
    ensures { Finds graph.now c name.now result }
{
    let class = graph.class_of(c, n);
    let Some(k) = graph.first_named(class, name) else {
        return Found::None;
    };
    if is_a_field(&graph.members(class)[k as usize]) {
        return Found::Field(n, k);
    }
    Found::Functions(n)
}

/// What the name means in the class: the members that the only subobject declares which no other one that declares the name
/// contains. It goes over the subobjects twice, and takes no memory.
pub fn find(graph: &Graph, c: ClassId, name: &str) -> Found
    requires { IsComplete graph.now c }
    ensures { Finds graph.now c name.now result }
{
    // Asked here, so that the graph is known to be a class list.
    let _classes = graph.classes();
    let Some(node) = best(graph, c, name) else {
        return Found::None;
    };
    if !contains_all(graph, c, name, node) {
        return Found::Ambiguous;
    }
    declared(graph, c, node, name)
}
