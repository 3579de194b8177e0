// Final overriders in the virtual diamond.

ghost use Rattle.std.specs.Prelude.{ℕ, IsTrue};
ghost use Rattle.mm_classes.specs.Classes.{IsComplete, IsMemberList, AreTyped};

use crate::end::FinalEnd;
use crate::make::get_finals;
use mm_base::place::Place;
use mm_base::text::Text;
use mm_classes::class::{Access, Base, Member, MemberKind, Ty};
use mm_classes::id::ClassId;
use mm_paths::graph::Graph;
use sqlite_items::Items;
use std::alloc::Global;
use std::test::Fail;

// Declares a class and completes it.
fn add(graph: &mut Graph, name: &str, bases: &[Base], members: &[Member]) -> Option<ClassId>
    requires members { IsMemberList members.now }
    requires typed { (n : ℕ) → AreTyped n members.now }
{
    if graph.classes() > 4096 {
        return None;
    }
    let Ok(class) = graph.declare(name) else {
        return None;
    };
    if graph.is_complete(class) || !graph.are_declared(bases) {
        return None;
    }
    match graph.add(class, bases, members) {
        Ok(()) => Some(class),
        Err(_) => None,
    }
}

// A class with one member, `virtual int f()`, on this line.
fn with_f(
    graph: &mut Graph,
    alloc: Global,
    name: &str,
    bases: &[Base],
    line: u32,
) -> Option<ClassId> {
    let Ok(f) = Text::from_str(alloc, "f") else {
        return None;
    };
    let member = Member {
        name: f,
        access: Access::Public,
        kind: MemberKind::Function(Items::new(alloc), Ty::Int, true),
        place: Place {
            file: 0,
            line,
            col: 1,
        },
    };
    add(graph, name, bases, &[member])
}

fn base(class: ClassId, shared: bool) -> Base {
    Base {
        class,
        shared,
        access: Access::Public,
    }
}

// The line that is told of the last class of a virtual diamond, whose both sides declare f, and
// itself if `all`: 0 where it has its final overriders.
fn told(alloc: Global, all: bool) -> Option<u32> {
    let mut graph = Graph::new(alloc);
    let a = with_f(&mut graph, alloc, "A", &[], 1)?;
    let b = with_f(&mut graph, alloc, "B", &[base(a, true)], 2)?;
    let c = with_f(&mut graph, alloc, "C", &[base(a, true)], 3)?;
    let sides = [base(b, false), base(c, false)];
    let d = if all {
        with_f(&mut graph, alloc, "D", &sides, 4)?
    } else {
        add(&mut graph, "D", &sides, &[])?
    };
    if !is_known(&graph, d) {
        return None;
    }
    match get_finals(alloc, &graph, d) {
        Ok(_) => Some(0),
        Err(FinalEnd::Several(_, place)) => Some(place.line),
        Err(_) => None,
    }
}

fn is_known(graph: &Graph, c: ClassId) -> bool
    ensures { IsTrue result → IsComplete graph.now c }
{
    graph.is_declared(c) && graph.is_complete(c)
}

#[test]
fn a_virtual_diamond_needs_an_overrider_of_its_own(rt: HostRuntime) -> Result<(), Fail> {
    assert_eq!(rt; told(rt.alloc(), true), Some(0));
    assert_eq!(rt; told(rt.alloc(), false), Some(1));
    Ok(())
}
