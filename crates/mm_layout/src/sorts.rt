//! What is known of each class before any is laid out.

ghost use Rattle.std.specs.Prelude.{◌≡◌, ◌<◌, ◌≤◌, ℕ, length, get_or, IfOk, false};
ghost use Rattle.mm_classes.specs.Classes.{IsClassList, IsComplete};
ghost use Rattle.mm_layout.specs.Regions.{owns_cell, region_of};
ghost use Rattle.mm_layout.specs.Layouts.{test_of};
ghost use Rattle.mm_layout.specs.Kept.{AreOwning, AreRegions, AreSorts};

use crate::region::region;
use crate::tags::{owns, tags};
use mm_classes::id::ClassId;
use mm_paths::graph::Graph;
use std::alloc::{AllocError, Global};

/// Of each class, by number: whether it has a tag, whether its subobjects own a cell for it, and
/// the bytes of their regions. What stands at a class that is not complete means nothing.
#[derive(Drop)]
pub struct Sorts {
    pub tags: Vec<bool>,
    pub owning: Vec<bool>,
    pub regions: Vec<u32>,
}

// Whether the subobjects of a class own a tag cell.
fn owns_if_complete(graph: &Graph, tags: &[bool], c: ClassId) -> bool
    requires valid { IsClassList graph.now }
    requires class { c < length graph.now }
    requires tags { length tags.now ≡ length graph.now }
    ensures { IsComplete graph.now c → result ≡ owns_cell graph.now (test_of tags.now) c }
{
    graph.is_complete(c) && owns(graph, tags, c)
}

// For each class whether its subobjects own a tag cell.
fn owning(alloc: Global, graph: &Graph, tags: &[bool]) -> Result<Vec<bool>, AllocError>
    requires { length tags.now ≡ length graph.now }
    ensures { IfOk result (λ v. AreOwning graph.now (test_of tags.now) v.items) }
{
    let count = graph.classes();
    let mut owning = Vec::new(alloc);
    let mut c = 0;
    while c < count {
        owning.push(owns_if_complete(graph, tags, ClassId { number: c }))?;
        c += 1;
    }
    Ok(owning)
}

// The region of a class.
fn region_if_complete(graph: &Graph, tags: &[bool], c: ClassId) -> u32
    requires valid { IsClassList graph.now }
    requires class { c < length graph.now }
    requires tags { length tags.now ≡ length graph.now }
    ensures region { IsComplete graph.now c → result ≡ region_of graph.now (test_of tags.now) c }
    ensures small { result ≤ 4194312 }
{
    if !graph.is_complete(c) {
        return 0;
    }
    region(graph, tags, c)
}

// The regions of all classes.
fn regions(alloc: Global, graph: &Graph, tags: &[bool]) -> Result<Vec<u32>, AllocError>
    requires { length tags.now ≡ length graph.now }
    ensures { IfOk result (λ v. AreRegions graph.now (test_of tags.now) v.items) }
{
    let count = graph.classes();
    let mut regions = Vec::new(alloc);
    let mut c = 0;
    while c < count {
        regions.push(region_if_complete(graph, tags, ClassId { number: c }))?;
        c += 1;
    }
    Ok(regions)
}

/// What is known of all classes of a graph.
pub fn get_sorts(alloc: Global, graph: &Graph) -> Result<Sorts, AllocError>
    ensures { IfOk result (λ s. AreSorts graph.now s) }
{
    let tags = tags(alloc, graph)?;
    let owning = owning(alloc, graph, tags.as_slice())?;
    let regions = regions(alloc, graph, tags.as_slice())?;
    Ok(Sorts {
        tags,
        owning,
        regions,
    })
}

impl Sorts {
    /// Whether a class has a tag.
    pub fn is_tagged(&self, c: ClassId) -> bool
        requires { c < length self.now.tags.items }
        ensures { result ≡ test_of self.now.tags.items c }
    {
        self.tags[c.number as usize]
    }

    /// Whether the subobjects of a class own a tag cell.
    pub fn owns(&self, c: ClassId) -> bool
        requires { c < length self.now.owning.items }
        ensures { result ≡ get_or self.now.owning.items c false }
    {
        self.owning[c.number as usize]
    }

    /// The bytes of a subobject of a class alone.
    pub fn region(&self, c: ClassId) -> u32
        requires { c < length self.now.regions.items }
        ensures { result ≡ get_or self.now.regions.items c 0 }
    {
        self.regions[c.number as usize]
    }
}
