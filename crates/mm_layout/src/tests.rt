// That graphs can be laid out, and where the parts of the two diamonds stand.

ghost use Rattle.std.specs.Prelude.{◌<◌, IsTrue, length};

use crate::few::has_few_tags;
use crate::layout::{Layout, get_layout};
use mm_classes::class::{Access, Base};
use mm_classes::id::{ClassId, NodeId};
use mm_paths::graph::Graph;
use std::test::Fail;

// Declares a class and completes it, with no members.
fn add(graph: &mut Graph, name: &str, bases: &[Base]) -> Option<ClassId> {
    if graph.classes() > 4096 {
        return None;
    }
    let Ok(class) = graph.declare(name) else {
        return None;
    };
    if graph.is_complete(class) || !graph.are_declared(bases) {
        return None;
    }
    match graph.add(class, bases, &[]) {
        Ok(()) => Some(class),
        Err(_) => None,
    }
}

fn base(class: ClassId, shared: bool) -> Base {
    Base {
        class,
        shared,
        access: Access::Public,
    }
}

// The last class of a diamond, whose top is a virtual base or not.
fn diamond(graph: &mut Graph, shared: bool) -> Option<ClassId> {
    let a = add(graph, "A", &[])?;
    let b = add(graph, "B", &[base(a, shared)])?;
    let c = add(graph, "C", &[base(a, shared)])?;
    add(graph, "D", &[base(b, false), base(c, false)])
}

// The offset of the last of so many subobjects, and the size.
fn last_and_size(layout: &Layout, d: ClassId, count: u32) -> Option<(u32, u32)> {
    if count == 0 || !layout.has(d, count) {
        return None;
    }
    let last = NodeId { number: count - 1 };
    Some((layout.offset(d, last), layout.size(d)))
}

// Where the tag cell of a subobject stands, and its tag.
fn cell_and_tag(layout: &Layout, d: ClassId, count: u32, n: u32) -> (Option<u32>, Option<u32>) {
    if n >= count || !layout.has_tags(d, count) {
        return (None, None);
    }
    let node = NodeId { number: n };
    (layout.cell(d, node), layout.tag_of(d, node))
}

#[test]
fn diamonds_have_a_region_for_each_subobject(rt: HostRuntime) -> Result<(), Fail> {
    let mut plain = Graph::new(rt.alloc());
    let repeated = diamond(&mut plain, false).ok_or("no class")?;
    if !has_few_tags(rt.alloc(), &plain)? {
        return Err(Fail::from("many tags"));
    }
    let layout = get_layout(rt.alloc(), &plain)?;
    assert_eq!(rt; last_and_size(&layout, repeated, 5), Some((32, 40)));
    Ok(())
}

#[test]
fn subobjects_of_a_virtual_diamond_share_tag_cells(rt: HostRuntime) -> Result<(), Fail> {
    let mut shared = Graph::new(rt.alloc());
    let d = diamond(&mut shared, true).ok_or("no class")?;
    if !has_few_tags(rt.alloc(), &shared)? {
        return Err(Fail::from("many tags"));
    }
    let layout = get_layout(rt.alloc(), &shared)?;
    assert_eq!(rt; last_and_size(&layout, d, 4), Some((24, 32)));
    assert_eq!(rt; cell_and_tag(&layout, d, 4, 0), (Some(8), Some(2)));
    assert_eq!(rt; cell_and_tag(&layout, d, 4, 1), (Some(8), Some(2)));
    assert_eq!(rt; cell_and_tag(&layout, d, 4, 2), (Some(16), Some(3)));
    assert_eq!(rt; cell_and_tag(&layout, d, 4, 3), (None, None));
    Ok(())
}
