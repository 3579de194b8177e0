// That classes can be added, and what the diamonds and a chain have.

ghost use Rattle.std.specs.Prelude.{IsTrue};
ghost use Rattle.mm_classes.specs.Classes.{IsComplete};

use crate::entry::GraphEnd;
use crate::graph::Graph;
use mm_classes::class::{Access, Base};
use mm_classes::id::{ClassId, NodeId};

// Declares a class and completes it, with no members; a class that is complete already is said to be unknown.
fn add(graph: &mut Graph, name: &str, bases: &[Base]) -> Result<ClassId, GraphEnd> {
    if graph.classes() > 4096 {
        return Err(GraphEnd::Many);
    }
    let Ok(class) = graph.declare(name) else {
        return Err(GraphEnd::NoMemory);
    };
    if graph.is_complete(class) || !graph.are_declared(bases) {
        return Err(GraphEnd::Unknown(0));
    }
    match graph.add(class, bases, &[]) {
        Ok(()) => Ok(class),
        Err(end) => Err(end),
    }
}

fn base(class: ClassId, shared: bool) -> Base {
    Base {
        class,
        shared,
        access: Access::Public,
    }
}

fn is_known(graph: &Graph, c: ClassId) -> bool
    ensures { IsTrue result → IsComplete graph.now c }
{
    graph.is_declared(c) && graph.is_complete(c)
}

// The last class of a diamond, whose top is a virtual base or not.
fn diamond(graph: &mut Graph, shared: bool) -> Result<ClassId, GraphEnd> {
    let a = add(graph, "A", &[])?;
    let b = add(graph, "B", &[base(a, shared)])?;
    let c = add(graph, "C", &[base(a, shared)])?;
    add(graph, "D", &[base(b, false), base(c, false)])
}

// How many subobjects a class has, and which one the last of those of its n-th is in it.
fn count_and_last(graph: &Graph, d: ClassId, n: u32) -> Option<(u32, u32)> {
    if !is_known(graph, d) || n >= graph.count(d) {
        return None;
    }
    let node = NodeId { number: n };
    let part = graph.class_of(d, node);
    let last = NodeId {
        number: graph.count(part) - 1,
    };
    Some((graph.count(d), graph.compose(d, node, last).number))
}

#[test]
fn diamonds_are_built(rt: HostRuntime) {
    for (shared, n, want) in [(false, 3, (5, 4)), (true, 2, (4, 3))] {
        let mut graph = Graph::new(rt.alloc());
        let found = match diamond(&mut graph, shared) {
            Ok(d) => count_and_last(&graph, d, n),
            Err(_) => None,
        };
        assert_eq!(rt; found, Some(want));
    }
}

// A class that is a virtual base, and a base of a base that isn't.
fn both_ways(graph: &mut Graph) -> Result<ClassId, GraphEnd> {
    let a = add(graph, "A", &[])?;
    let b = add(graph, "B", &[base(a, false)])?;
    add(graph, "D", &[base(b, false), base(a, true)])
}

// A virtual base with a base that has another virtual base.
fn three_levels(graph: &mut Graph) -> Result<ClassId, GraphEnd> {
    let a = add(graph, "A", &[])?;
    let b = add(graph, "B", &[base(a, true)])?;
    let c = add(graph, "C", &[base(b, false)])?;
    add(graph, "D", &[base(c, true), base(b, false)])
}

#[test]
fn bases_may_be_mixed(rt: HostRuntime) {
    for (n, want) in [(1, (4, 2)), (3, (4, 3))] {
        let mut graph = Graph::new(rt.alloc());
        let found = match both_ways(&mut graph) {
            Ok(d) => count_and_last(&graph, d, n),
            Err(_) => None,
        };
        assert_eq!(rt; found, Some(want));
    }
    for n in [1, 2, 3] {
        let mut graph = Graph::new(rt.alloc());
        let found = match three_levels(&mut graph) {
            Ok(d) => count_and_last(&graph, d, n),
            Err(_) => None,
        };
        assert_eq!(rt; found, Some((5, 4)));
    }
}

#[test]
fn a_chain_ends_at_the_limit(rt: HostRuntime) {
    let mut graph = Graph::new(rt.alloc());
    let mut last = add(&mut graph, "C", &[]);
    let mut added = 1;
    for n in 0..256 {
        let name = format!(in rt.alloc(); "C{n}").expect(&rt, "memory");
        if let Ok(class) = last {
            last = add(&mut graph, name.as_str(), &[base(class, false)]);
            if last.is_ok() {
                added = n + 2;
            }
        }
    }
    assert_eq!(rt; added, 256);
    assert_eq!(rt; last, Err(GraphEnd::Many));
}
