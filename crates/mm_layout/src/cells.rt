//! Tag cells and tags.

ghost use Rattle.std.specs.Prelude.{◌≡◌, ◌+◌, ◌<◌, ◌≤◌, ℕ, List, length, get_or, IfOk, IfSome, Some, None, Option, cond, false};
ghost use Rattle.std.specs.Option.{option_map};
ghost use Rattle.std.specs.Bool.{Decides};
ghost use Rattle.mm_classes.specs.Classes.{IsClassList, IsComplete};
ghost use Rattle.mm_classes.specs.Subobjects.{subobjects_of};
ghost use Rattle.mm_layout.specs.Cells.{tags_before, cells_of, HasFewTags};
ghost use Rattle.mm_layout.specs.Layouts.{test_of, AreOffsets, AreCells, AreNumbers};
ghost use Rattle.mm_layout.specs.Kept.{AreSorts, AreUsers};

use crate::sorts::Sorts;
use mm_classes::id::{ClassId, NodeId};
use mm_paths::graph::Graph;
use std::alloc::{AllocError, Global};

// The first owner at or behind a subobject of class `c`, by the first one behind it.
fn nearest(sorts: &Sorts, c: ClassId, n: u32, next: Option<u32>) -> Option<u32>
    requires { c < length sorts.now.owning.items }
    ensures { result ≡ cond (get_or sorts.now.owning.items c false) (Some n) next }
{
    if sorts.owns(c) {
        return Some(n);
    }
    next
}

// The first owner at or behind a subobject of class `c`, if it has a tag.
fn used(sorts: &Sorts, c: ClassId, next: Option<u32>) -> Option<u32>
    requires { c < length sorts.now.tags.items }
    ensures { result ≡ cond (test_of sorts.now.tags.items c) next None }
{
    if sorts.is_tagged(c) {
        return next;
    }
    None
}

/// For each subobject of a class the number of the one whose tag cell it uses: the first owner at
/// or behind it.
pub fn owners(
    alloc: Global,
    graph: &Graph,
    sorts: &Sorts,
    d: ClassId,
) -> Result<Vec<Option<u32>>, AllocError>
    requires valid { IsClassList graph.now }
    requires class { IsComplete graph.now d }
    requires sorts { AreSorts graph.now sorts.now }
    ensures { IfOk result (λ v. AreUsers graph.now (test_of sorts.now.tags.items) d v.items) }
{
    let count = graph.count(d);
    let mut owners = vec![in alloc; None; count as usize]?;
    let mut next = None;
    let mut n = count;
    while n > 0 {
        n -= 1;
        let class = graph.class_of(d, NodeId { number: n });
        next = nearest(sorts, class, n, next);
        owners[n as usize] = used(sorts, class, next);
    }
    Ok(owners)
}

// Where the cell of an owner stands.
fn cell_at(offsets: &[u32], owner: Option<u32>) -> Option<u32>
    requires { IfSome owner (λ h. h < length offsets.now) }
    ensures { result ≡ option_map (λ h. get_or offsets.now h 0) owner }
{
    match owner {
        None => None,
        Some(h) => Some(offsets[h as usize]),
    }
}

/// Where the tag cell of each subobject stands.
pub fn cells(
    alloc: Global,
    graph: &Graph,
    sorts: &Sorts,
    d: ClassId,
    owners: &[Option<u32>],
    offsets: &[u32],
) -> Result<Vec<Option<u32>>, AllocError>
    requires valid { IsClassList graph.now }
    requires class { IsComplete graph.now d }
    requires sorts { AreSorts graph.now sorts.now }
    requires owners { AreUsers graph.now (test_of sorts.now.tags.items) d owners.now }
    requires offsets { AreOffsets graph.now (test_of sorts.now.tags.items) d offsets.now }
    ensures { IfOk result (λ v. AreCells graph.now (test_of sorts.now.tags.items) d v.items) }
{
    let count = graph.count(d);
    let mut cells = Vec::new(alloc);
    let mut n = 0;
    while n < count {
        cells.push(cell_at(offsets, owners[n as usize]))?;
        n += 1;
    }
    Ok(cells)
}

// The next tag, for a subobject that uses a cell.
fn tag_with(owner: Option<u32>, next: u32) -> Option<u32>
    ensures { result ≡ option_map (λ h. next) owner }
{
    match owner {
        None => None,
        Some(_) => Some(next),
    }
}

// One more for a cell that is owned.
fn after(sorts: &Sorts, c: ClassId, next: u32) -> u32
    requires class { c < length sorts.now.owning.items }
    requires room { next < 65536 }
    ensures { result ≡ next + cond (get_or sorts.now.owning.items c false) 1 0 }
{
    if sorts.owns(c) {
        return next + 1;
    }
    next
}

/// The tag of each subobject, and the first tag of the next class.
pub fn numbers(
    alloc: Global,
    graph: &Graph,
    sorts: &Sorts,
    d: ClassId,
    owners: &[Option<u32>],
    first: u32,
) -> Result<(Vec<Option<u32>>, u32), AllocError>
    requires valid { IsClassList graph.now }
    requires class { IsComplete graph.now d }
    requires sorts { AreSorts graph.now sorts.now }
    requires owners { AreUsers graph.now (test_of sorts.now.tags.items) d owners.now }
    requires first { first ≡ tags_before graph.now (test_of sorts.now.tags.items) d }
    requires room { first + cells_of graph.now (test_of sorts.now.tags.items) d ≤ 65535 }
    ensures tags { IfOk result (λ r. AreNumbers graph.now (test_of sorts.now.tags.items) d r.0.items) }
    ensures next { IfOk result (λ r. r.1 ≡ first + cells_of graph.now (test_of sorts.now.tags.items) d) }
{
    let count = graph.count(d);
    let mut tags = Vec::new(alloc);
    let mut next = first;
    let mut n = 0;
    while n < count {
        tags.push(tag_with(owners[n as usize], next))?;
        next = after(sorts, graph.class_of(d, NodeId { number: n }), next);
        n += 1;
    }
    Ok((tags, next))
}
