// Names in the two diamonds and in a class that is a virtual and another base at once, and who may use a protected member.

ghost use Rattle.std.specs.Prelude.{ℕ, IfSome, IsTrue};
ghost use Rattle.mm_classes.specs.Classes.{IsComplete, IsMemberList, AreTyped};

use crate::find::find;
use crate::found::{Context, Found};
use crate::may::{base_may, may};
use mm_base::place::Place;
use mm_base::text::Text;
use mm_classes::class::{Access, Base, Member, MemberKind, Ty};
use mm_classes::id::{ClassId, NodeId};
use mm_paths::graph::Graph;
use std::alloc::Global;

// Declares a class and completes it.
fn add(graph: &mut Graph, name: &str, bases: &[Base], members: &[Member]) -> Option<ClassId>
    requires members { IsMemberList members.now }
    requires typed { (n : ℕ) → AreTyped n members.now }
{
    if graph.classes() > 4096 {
        return None;
    }
    let Ok(class) = graph.declare(name) else {
        return None;
    };
    if graph.is_complete(class) || !graph.are_declared(bases) {
        return None;
    }
    match graph.add(class, bases, members) {
        Ok(()) => Some(class),
        Err(_) => None,
    }
}

// A class with no members.
fn plain(graph: &mut Graph, name: &str, bases: &[Base]) -> Option<ClassId> {
    add(graph, name, bases, &[])
}

// A class with one member, the protected field m.
fn with_m(graph: &mut Graph, alloc: Global, name: &str, bases: &[Base]) -> Option<ClassId> {
    let Ok(field) = Text::from_str(alloc, "m") else {
        return None;
    };
    let member = Member {
        name: field,
        access: Access::Protected,
        kind: MemberKind::Field(Ty::Int),
        place: Place {
            file: 0,
            line: 1,
            col: 1,
        },
    };
    add(graph, name, bases, &[member])
}

fn base(class: ClassId, shared: bool) -> Base {
    Base {
        class,
        shared,
        access: Access::Public,
    }
}

fn is_known(graph: &Graph, c: ClassId) -> bool
    ensures { IsTrue result → IsComplete graph.now c }
{
    graph.is_declared(c) && graph.is_complete(c)
}

fn found(graph: &Graph, c: ClassId, name: &str) -> Option<Found> {
    if !is_known(graph, c) {
        return None;
    }
    Some(find(graph, c, name))
}

// A diamond whose top, a virtual base or not, declares m, and whose left side does in the first case.
fn diamond(graph: &mut Graph, alloc: Global, shared: bool) -> Option<ClassId> {
    let a = with_m(graph, alloc, "A", &[])?;
    let b = if shared {
        with_m(graph, alloc, "B", &[base(a, true)])?
    } else {
        plain(graph, "B", &[base(a, false)])?
    };
    let c = plain(graph, "C", &[base(a, shared)])?;
    plain(graph, "D", &[base(b, false), base(c, false)])
}

// A class that has one class as a virtual base and as a base of a base that isn't.
fn both_ways(graph: &mut Graph, alloc: Global) -> Option<ClassId> {
    let a = with_m(graph, alloc, "A", &[])?;
    let b = with_m(graph, alloc, "B", &[base(a, false)])?;
    plain(graph, "D", &[base(b, false), base(a, true)])
}

#[test]
fn names_are_looked_up(rt: HostRuntime) {
    for (shared, want) in [
        (false, Found::Ambiguous),
        (true, Found::Field(NodeId { number: 1 }, 0)),
    ] {
        let mut graph = Graph::new(rt.alloc());
        let d = diamond(&mut graph, rt.alloc(), shared).expect(&rt, "classes");
        assert_eq!(rt; found(&graph, d, "m"), Some(want));
        assert_eq!(rt; found(&graph, d, "n"), Some(Found::None));
    }
    // The m of [D, B] hides that of [D, B, A], but not that of the virtual base.
    let mut graph = Graph::new(rt.alloc());
    let d = both_ways(&mut graph, rt.alloc()).expect(&rt, "classes");
    assert_eq!(rt; found(&graph, d, "m"), Some(Found::Ambiguous));
}

// Whether the context is one that may be asked of.
fn is_context(graph: &Graph, from: &Context) -> bool
    ensures { IsTrue result → IfSome from.now.class (IsComplete graph.now) }
{
    match from.class {
        Some(f) => is_known(graph, f),
        None => true,
    }
}

// Whether the first member of the subobject may be used, where that can be asked.
fn uses(graph: &Graph, from: &Context, naming: ClassId, n: u32, through: ClassId) -> Option<bool> {
    if !is_context(graph, from) || !is_known(graph, naming) || !is_known(graph, through) {
        return None;
    }
    let node = NodeId { number: n };
    if n >= graph.count(naming) || graph.members(graph.class_of(naming, node)).is_empty() {
        return None;
    }
    Some(may(graph, *from, naming, node, 0, through))
}

// Whether the base may be used, where that can be asked.
fn goes_to(graph: &Graph, from: &Context, c: ClassId, n: u32) -> Option<bool> {
    if !is_context(graph, from) || !is_known(graph, c) || n >= graph.count(c) {
        return None;
    }
    Some(base_may(graph, *from, c, NodeId { number: n }))
}

// A has m; B and C go on from it by public bases; P has A as a private base, and Q has P.
fn family(graph: &mut Graph, alloc: Global) -> Option<[ClassId; 5]> {
    let a = with_m(graph, alloc, "A", &[])?;
    let b = plain(graph, "B", &[base(a, false)])?;
    let c = plain(graph, "C", &[base(b, false)])?;
    let private_a = Base {
        class: a,
        shared: false,
        access: Access::Private,
    };
    let p = plain(graph, "P", &[private_a])?;
    let q = plain(graph, "Q", &[base(p, false)])?;
    Some([a, b, c, p, q])
}

#[test]
fn members_are_used(rt: HostRuntime) {
    let mut graph = Graph::new(rt.alloc());
    let [a, b, c, p, q] = family(&mut graph, rt.alloc()).expect(&rt, "classes");
    let outside = Context { class: None };
    let in_a = Context { class: Some(a) };
    let in_c = Context { class: Some(c) };
    let in_p = Context { class: Some(p) };
    let in_q = Context { class: Some(q) };
    // In the class itself; in a derived one by an object of it, and by another; outside.
    assert_eq!(rt; uses(&graph, &in_a, a, 0, a), Some(true));
    assert_eq!(rt; uses(&graph, &in_c, b, 1, c), Some(true));
    assert_eq!(rt; uses(&graph, &in_c, b, 1, b), Some(false));
    assert_eq!(rt; uses(&graph, &outside, b, 1, c), Some(false));
    // A private base: inside the class that has it, outside, and in a class that derives from it.
    assert_eq!(rt; uses(&graph, &in_p, p, 1, p), Some(true));
    assert_eq!(rt; uses(&graph, &outside, p, 1, p), Some(false));
    assert_eq!(rt; uses(&graph, &in_q, a, 0, q), Some(false));
    assert_eq!(rt; goes_to(&graph, &in_p, p, 1), Some(true));
    assert_eq!(rt; goes_to(&graph, &in_q, q, 2), Some(false));
    assert_eq!(rt; goes_to(&graph, &outside, p, 1), Some(false));
    assert_eq!(rt; goes_to(&graph, &outside, c, 2), Some(true));
}
