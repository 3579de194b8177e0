//! The access of each subobject of a new class: the greatest over the ways to it.

ghost use Rattle.std.specs.Prelude.{◌≡◌, ◌<◌, ◌≤◌, ◌+◌, ◌^◌, ℕ, [], length, get_or, true, false, None, IfOk};
ghost use Rattle.mm_classes.specs.Access.{grade, greater, lesser, passed, link_of};
ghost use Rattle.mm_classes.specs.Lists.{Has};
ghost use Rattle.mm_classes.specs.Classes.{IsClassList, IsComplete};
ghost use Rattle.mm_classes.specs.Questions.{IsNode};
ghost use Rattle.mm_classes.specs.Subobjects.{chains};
ghost use Rattle.mm_classes.specs.Adding.{added, CanAdd, new_subobjects, new_virtual_bases};
ghost use Rattle.mm_paths.specs.Ends.{base_at};
ghost use Rattle.mm_paths.specs.Stored.{paths_in, new_starts, HaveAccess};
ghost use Rattle.mm_paths.specs.Reach.{IsPlaced, AreStarts, AreGreatest};

use crate::entry::Nodes;
use crate::find::{node_id, start_among};
use crate::graph::Graph;
use mm_classes::class::{Access, Base};
use mm_classes::id::ClassId;
use std::alloc::{AllocError, Global};

/// How much an access lets through.
pub fn grade_of(access: Option<Access>) -> u8
    ensures { result ≡ grade access }
{
    match access {
        None => 0,
        Some(Access::Private) => 1,
        Some(Access::Protected) => 2,
        Some(Access::Public) => 3,
    }
}

/// The greater of two.
pub fn greater_of(a: Option<Access>, b: Option<Access>) -> Option<Access>
    ensures { result ≡ greater a b }
{
    if grade_of(a) < grade_of(b) { b } else { a }
}

/// The lesser of two.
pub fn lesser_of(a: Access, b: Access) -> Access
    ensures { result ≡ lesser a b }
{
    match (a, b) {
        (Access::Public, b) => b,
        (Access::Protected, Access::Private) => Access::Private,
        (Access::Protected, _) => Access::Protected,
        (Access::Private, _) => Access::Private,
    }
}

/// What access a member of a base has in the class that lists the base with access `by`.
pub fn passed_by(by: Access, access: Option<Access>) -> Option<Access>
    ensures { result ≡ passed by access }
{
    match access {
        None => None,
        Some(Access::Private) => None,
        Some(Access::Protected) => Some(lesser_of(by, Access::Protected)),
        Some(Access::Public) => Some(lesser_of(by, Access::Public)),
    }
}

/// The number in a class of what the `m`-th node of `part` is in the node `at`, which is of class `part`; `shared` and
/// `starts` are the class's virtual bases, and where the nodes of each begin.
pub fn place_in(
    graph: &Graph,
    part: ClassId,
    at: usize,
    m: usize,
    shared: &[ClassId],
    starts: &[usize],
) -> usize
    requires complete { IsComplete graph.now part }
    requires node { IsNode graph.now part m }
    requires starts { AreStarts graph.now part m shared.now starts.now }
    requires valid { IsClassList graph.now }
    requires low { at < 2 ^ 32 }
    requires small { m < 2 ^ 32 }
    ensures { IsPlaced graph.now part at m shared.now starts.now result }
{
    if m < graph.own_count(part) {
        return at + m;
    }
    let head = graph.path(part, node_id(m))[0];
    let from = graph.start(part, head);
    let to = start_among(shared, starts, head);
    to + (m - from)
}

/// Takes the ways through the `n`-th base into account; the node `at` is that base.
pub fn raise_base(
    graph: &Graph,
    class: ClassId,
    bases: &[Base],
    n: usize,
    at: usize,
    nodes: &Nodes,
    all: &mut Vec<Option<Access>>,
)
    requires valid { IsClassList graph.now }
    requires can { CanAdd graph.now class bases.now [] }
    requires base { n < length bases.now }
    requires nodes { paths_in nodes.now.all.items ≡ new_subobjects graph.now class bases.now }
    requires few { length nodes.now.all.items ≤ 256 }
    requires shared { nodes.now.shared.items ≡ new_virtual_bases graph.now bases.now }
    requires starts { nodes.now.starts.items ≡ new_starts graph.now class bases.now }
    requires here { at < length (new_subobjects graph.now class bases.now) }
    requires link { get_or (new_subobjects graph.now class bases.now) at [] ≡ link_of class (base_at bases.now n) }
    requires long { length all.old.items ≡ length (new_subobjects graph.now class bases.now) }
    requires before { AreGreatest graph.now class bases.now n all.old.items }
    ensures long { length all.new.items ≡ length all.old.items }
    ensures after { AreGreatest graph.now class bases.now (n + 1) all.new.items }
{
    let base = bases[n];
    let accesses = graph.accesses(base.class);
    let mut k = 0;
    while k < accesses.len() {
        let to = place_in(
            graph,
            base.class,
            at,
            k,
            nodes.shared.as_slice(),
            nodes.starts.as_slice(),
        );
        all[to] = greater_of(all[to], passed_by(base.access, accesses[k]));
        k += 1;
    }
}

/// The number of the node that a base is: that of its virtual base, or the next one that begins with the class.
pub fn link_place(base: &Base, plain: usize, nodes: &Nodes) -> usize
    requires has { base.now.shared ≡ true → Has nodes.now.shared.items base.now.class }
    requires long { length nodes.now.starts.items ≡ length nodes.now.shared.items }
    ensures shared { base.now.shared ≡ true → (j : ℕ) × (j < length nodes.now.shared.items) × (get_or nodes.now.shared.items j 0 ≡ base.now.class) × (result ≡ get_or nodes.now.starts.items j 0) }
    ensures plain { base.now.shared ≡ false → result ≡ plain }
{
    if base.shared {
        start_among(nodes.shared.as_slice(), nodes.starts.as_slice(), base.class)
    } else {
        plain
    }
}

/// The number of the next base's node, where it begins with the class.
pub fn next_plain(graph: &Graph, base: &Base, plain: usize) -> usize
    requires complete { IsComplete graph.now base.now.class }
    requires low { plain ≤ 256 }
    ensures shared { base.now.shared ≡ true → result ≡ plain }
    ensures plain { base.now.shared ≡ false → result ≡ plain + length (chains graph.now (length graph.now) base.now.class) }
{
    if base.shared {
        return plain;
    }
    plain + graph.own_count(base.class)
}

/// No access, for each of some nodes.
pub fn no_access(alloc: Global, count: usize) -> Result<Vec<Option<Access>>, AllocError>
    ensures count { IfOk result (λ v. length v.items ≡ count) }
    ensures none { IfOk result (λ v. (i : ℕ) → get_or v.items i None ≡ None) }
{
    let mut all = Vec::with_capacity(alloc, count)?;
    let mut k = 0;
    while k < count {
        all.push(None)?;
        k += 1;
    }
    Ok(all)
}

/// The access of each node of a new class.
pub fn new_access(
    alloc: Global,
    graph: &Graph,
    class: ClassId,
    bases: &[Base],
    nodes: &Nodes,
) -> Result<Vec<Option<Access>>, AllocError>
    requires valid { IsClassList graph.now }
    requires can { CanAdd graph.now class bases.now [] }
    requires nodes { paths_in nodes.now.all.items ≡ new_subobjects graph.now class bases.now }
    requires few { length nodes.now.all.items ≤ 256 }
    requires shared { nodes.now.shared.items ≡ new_virtual_bases graph.now bases.now }
    requires starts { nodes.now.starts.items ≡ new_starts graph.now class bases.now }
    ensures { IfOk result (λ v. HaveAccess (added graph.now class bases.now []) class v.items) }
{
    let mut all = no_access(alloc, nodes.all.len())?;
    let mut plain = 1;
    let mut n = 0;
    while n < bases.len() {
        let base = bases[n];
        let at = link_place(&base, plain, nodes);
        raise_base(graph, class, bases, n, at, nodes, &mut all);
        plain = next_plain(graph, &base, plain);
        n += 1;
    }
    all[0] = Some(Access::Public);
    Ok(all)
}
