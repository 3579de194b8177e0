//! The regions of an object, and the cells in them.

ghost use Rattle.std.specs.Prelude.{◌≡◌, ◌<◌, ◌≤◌, ℕ, List, length, IfOk};
ghost use Rattle.mm_classes.specs.Classes.{IsClassList, IsComplete};
ghost use Rattle.mm_layout.specs.Regions.{region_of};
ghost use Rattle.mm_layout.specs.Layouts.{AreOffsets, ArePlaces, test_of};
ghost use Rattle.mm_layout.specs.Kept.{AreSorts};

use crate::sorts::Sorts;
use crate::tags::owns;
use mm_classes::copies::{count_fields, is_a_field};
use mm_classes::id::{ClassId, NodeId};
use mm_paths::graph::Graph;
use std::alloc::{AllocError, Global};

/// The bytes of a subobject of a class alone.
pub fn region(graph: &Graph, tags: &[bool], c: ClassId) -> u32
    requires valid { IsClassList graph.now }
    requires class { IsComplete graph.now c }
    requires tags { length tags.now ≡ length graph.now }
    ensures region { result ≡ region_of graph.now (test_of tags.now) c }
    ensures small { result ≤ 4194312 }
{
    let fields = count_fields(graph.members(c)) as u32;
    let own = if owns(graph, tags, c) { 1 } else { 0 };
    let cells = own + fields;
    8 * cells.max(1)
}

/// The offsets of the subobjects of a class, in order, and then its size.
pub fn offsets(
    alloc: Global,
    graph: &Graph,
    sorts: &Sorts,
    d: ClassId,
) -> Result<Vec<u32>, AllocError>
    requires valid { IsClassList graph.now }
    requires class { IsComplete graph.now d }
    requires sorts { AreSorts graph.now sorts.now }
    ensures { IfOk result (λ v. AreOffsets graph.now (test_of sorts.now.tags.items) d v.items) }
{
    let count = graph.count(d);
    let mut offsets = Vec::new(alloc);
    let mut end = 0;
    let mut n = 0;
    while n < count {
        offsets.push(end)?;
        end += sorts.region(graph.class_of(d, NodeId { number: n }));
        n += 1;
    }
    offsets.push(end)?;
    Ok(offsets)
}

/// Where each member stands in the region of its class.
pub fn places(
    alloc: Global,
    graph: &Graph,
    sorts: &Sorts,
    c: ClassId,
) -> Result<Vec<u32>, AllocError>
    requires valid { IsClassList graph.now }
    requires class { IsComplete graph.now c }
    requires sorts { AreSorts graph.now sorts.now }
    ensures { IfOk result (λ v. ArePlaces graph.now (test_of sorts.now.tags.items) c v.items) }
{
    let members = graph.members(c);
    let mut places = Vec::new(alloc);
    let mut cells = if sorts.owns(c) { 1 } else { 0 };
    let mut k = 0;
    while k < members.len() {
        places.push(8 * cells)?;
        if is_a_field(&members[k]) {
            cells += 1;
        }
        k += 1;
    }
    Ok(places)
}
