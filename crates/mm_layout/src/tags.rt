//! Which classes have a tag, and a cell for it.

ghost use Rattle.std.specs.Prelude.{◌≡◌, ◌≢◌, ◌<◌, ◌≤◌, ℕ, List, length, get_or, IfOk};
ghost use Rattle.std.specs.Bool.{Decides};
ghost use Rattle.mm_classes.specs.Classes.{IsClassList, IsComplete};
ghost use Rattle.mm_classes.specs.Subobjects.{IsVirtual};
ghost use Rattle.mm_layout.specs.Regions.{HasTag, shares_cell, owns_cell};
ghost use Rattle.mm_layout.specs.Layouts.{AreTags, test_of};

use mm_classes::id::ClassId;
use mm_paths::graph::Graph;
use std::alloc::{AllocError, Global};

/// Whether a class has a virtual base.
pub fn has_virtual_base(graph: &Graph, c: ClassId) -> bool
    requires { IsComplete graph.now c }
    ensures { Decides result ((v : ℕ) × IsVirtual graph.now c v) }
{
    !graph.virtual_bases(c).is_empty()
}

/// Whether objects of a class have a tag.
pub fn has_tag(graph: &Graph, c: ClassId) -> bool
    requires valid { IsClassList graph.now }
    requires class { c < length graph.now }
    ensures { Decides result (HasTag graph.now c) }
{
    if !graph.is_complete(c) {
        return false;
    }
    if graph.is_polymorphic(c) {
        return true;
    }
    has_virtual_base(graph, c)
}

/// For each class whether it has a tag.
pub fn tags(alloc: Global, graph: &Graph) -> Result<Vec<bool>, AllocError>
    ensures { IfOk result (λ v. AreTags graph.now v.items) }
{
    let count = graph.classes();
    let mut tags = Vec::new(alloc);
    let mut c = 0;
    while c < count {
        tags.push(has_tag(graph, ClassId { number: c }))?;
        c += 1;
    }
    Ok(tags)
}

// The tag of a class, by the list of all.
fn tag_at(tags: &[bool], c: ClassId) -> bool
    requires { c < length tags.now }
    ensures { result ≡ test_of tags.now c }
{
    tags[c.number as usize]
}

/// Whether a direct non-virtual base of a class has a tag.
pub fn shares(graph: &Graph, tags: &[bool], c: ClassId) -> bool
    requires valid { IsClassList graph.now }
    requires class { c < length graph.now }
    requires tags { length tags.now ≡ length graph.now }
    ensures { result ≡ shares_cell graph.now (test_of tags.now) c }
{
    let bases = graph.bases(c);
    let mut n = 0;
    while n < bases.len() {
        let base = bases[n];
        if !base.shared && tag_at(tags, base.class) {
            return true;
        }
        n += 1;
    }
    false
}

/// Whether subobjects of a class have a tag cell of their own.
pub fn owns(graph: &Graph, tags: &[bool], c: ClassId) -> bool
    requires valid { IsClassList graph.now }
    requires class { c < length graph.now }
    requires tags { length tags.now ≡ length graph.now }
    ensures { result ≡ owns_cell graph.now (test_of tags.now) c }
{
    tag_at(tags, c) && !shares(graph, tags, c)
}
