//! How many tags a graph needs.

ghost use Rattle.std.specs.Prelude.{◌≡◌, ◌<◌, ◌≤◌, ℕ, length, cond, IfOk};
ghost use Rattle.std.specs.Bool.{Decides};
ghost use Rattle.mm_classes.specs.Classes.{IsClassList, IsComplete};
ghost use Rattle.mm_layout.specs.Cells.{pairs_of, HasFewTags};
ghost use Rattle.mm_layout.specs.Layouts.{AreTags, test_of};

use crate::tags::tags;
use mm_classes::id::{ClassId, NodeId};
use mm_paths::graph::Graph;
use std::alloc::{AllocError, Global};

// One for a class with a tag.
fn one_if_tagged(tags: &[bool], c: ClassId) -> u32
    requires { c < length tags.now }
    ensures { result ≡ cond (test_of tags.now c) 1 0 }
{
    if tags[c.number as usize] { 1 } else { 0 }
}

// How many subobjects of a complete class have a tag.
fn pairs_of_complete(graph: &Graph, tags: &[bool], d: ClassId) -> u32
    requires class { IsComplete graph.now d }
    requires tags { length tags.now ≡ length graph.now }
    ensures pairs { result ≡ pairs_of graph.now (test_of tags.now) d }
    ensures few { result ≤ 256 }
{
    let count = graph.count(d);
    let mut pairs = 0;
    let mut n = 0;
    while n < count {
        pairs += one_if_tagged(tags, graph.class_of(d, NodeId { number: n }));
        n += 1;
    }
    pairs
}

// How many subobjects of a class have a tag.
fn pairs_in(graph: &Graph, tags: &[bool], d: ClassId) -> u32
    requires valid { IsClassList graph.now }
    requires class { d < length graph.now }
    requires tags { AreTags graph.now tags.now }
    ensures pairs { result ≡ pairs_of graph.now (test_of tags.now) d }
    ensures few { result ≤ 256 }
{
    if !graph.is_complete(d) {
        return 0;
    }
    pairs_of_complete(graph, tags, d)
}

/// Whether a graph has at most 65,535 pairs of a class and a subobject of it that has a tag, as a
/// layout asks.
pub fn has_few_tags(alloc: Global, graph: &Graph) -> Result<bool, AllocError>
    ensures { IfOk result (λ b. Decides b (HasFewTags graph.now)) }
{
    let count = graph.classes();
    let tags = tags(alloc, graph)?;
    let mut pairs = 0;
    let mut c = 0;
    while c < count {
        pairs += pairs_in(graph, tags.as_slice(), ClassId { number: c });
        if pairs > 65535 {
            return Ok(false);
        }
        c += 1;
    }
    Ok(true)
}
