//! What a new class has, from what its bases have.

ghost use Rattle.std.specs.Prelude.{◌≡◌, ◌≢◌, ◌<◌, ◌≤◌, ◌+◌, ◌^◌, ◌⊎◌, ℕ, List, [], ◌∷◌, ◌++◌, length, get_or, map, Bool, true, false, IfOk, IfErr, OnOk, OnErr};
ghost use Rattle.std.specs.List.{flat_map};
ghost use Rattle.std.specs.Bool.{Decides};
ghost use Rattle.mm_classes.specs.declared.class.Base.{Base};
ghost use Rattle.mm_classes.specs.Lists.{Has, with_new, with_all_new};
ghost use Rattle.mm_classes.specs.Classes.{IsClassList, IsComplete, IsPolymorphic, field_count};
ghost use Rattle.mm_classes.specs.Subobjects.{Path, met, chains};
ghost use Rattle.mm_classes.specs.Adding.{new_virtual_bases, new_chains, new_subobjects, new_depth, IsNewPolymorphic, AreKnown, AreDeclared, CanAdd};
ghost use Rattle.mm_paths.specs.Ends.{plain_block, classes_of, AreFine, Stops};
ghost use Rattle.mm_paths.specs.Stored.{paths_in, AreNewParts, starts_from, new_starts};

use crate::entry::{GraphEnd, MakeEnd, Node, Nodes, Parts};
use crate::graph::Graph;
use crate::names::{named, no_names};
use crate::reach::new_access;
use mm_classes::class::{Base, Member};
use mm_classes::copies::{any_virtual, count_fields};
use mm_classes::id::ClassId;
use smallvec::SmallVec;
use std::alloc::{AllocError, Global};

/// Puts a number at the end, where it is not there yet.
pub fn push_new(seen: &mut Vec<ClassId>, x: ClassId) -> Result<(), AllocError>
    ensures { OnOk result (seen.new.items ≡ with_new seen.old.items x) }
{
    let there = seen.contains(&x);
    if !there {
        seen.push(x)?;
    }
    Ok(())
}

/// Puts each number at the end, where it is not there yet.
pub fn push_all_new(seen: &mut Vec<ClassId>, xs: &[ClassId]) -> Result<(), AllocError>
    ensures { OnOk result (seen.new.items ≡ with_all_new seen.old.items xs.now) }
{
    for x in xs {
        push_new(seen, *x)?;
    }
    Ok(())
}

/// Puts a base at the end where it is virtual, and then these others, where they are not there yet.
pub fn push_base(seen: &mut Vec<ClassId>, base: &Base, more: &[ClassId]) -> Result<(), AllocError>
    ensures { OnOk result (seen.new.items ≡ with_all_new seen.old.items (met base.now ++ more.now)) }
{
    if base.shared {
        push_new(seen, base.class)?;
    }
    push_all_new(seen, more)?;
    Ok(())
}

/// The virtual bases of a class with these bases.
pub fn new_shared(alloc: Global, graph: &Graph, bases: &[Base]) -> Result<Vec<ClassId>, AllocError>
    requires known { AreKnown graph.now bases.now }
    ensures { IfOk result (λ v. v.items ≡ new_virtual_bases graph.now bases.now) }
{
    let mut seen = Vec::new(alloc);
    let mut n = 0;
    while n < bases.len() {
        let base = bases[n];
        push_base(&mut seen, &base, graph.virtual_bases(base.class))?;
        n += 1;
    }
    Ok(seen)
}

/// The node whose path is `front` followed by `rest`.
pub fn joined_node(alloc: Global, front: &[ClassId], rest: &[ClassId]) -> Result<Node, AllocError>
    ensures { IfOk result (λ n. n.path.items ≡ front.now ++ rest.now) }
{
    let mut path = SmallVec::from_slice(alloc, front)?;
    path.extend_from_slice(rest)?;
    Ok(Node { path })
}

/// Appends `front` followed by each path.
pub fn push_block(
    alloc: Global,
    nodes: &mut Vec<Node>,
    front: &[ClassId],
    from: &[Node],
) -> Result<(), MakeEnd>
    requires { length nodes.old.items ≤ 256 }
    ensures ok { OnOk result (paths_in nodes.new.items ≡ paths_in nodes.old.items ++ map (λ p. front.now ++ p) (paths_in from.now)) }
    ensures few { length nodes.new.items ≤ 256 }
    ensures many { IfErr result (λ end. end ≡ MakeEnd.Many → 256 < length nodes.old.items + length from.now) }
{
    let mut k = 0;
    while k < from.len() {
        if nodes.len() >= 256 {
            return Err(MakeEnd::Many);
        }
        let node = joined_node(alloc, front, from[k].path.as_slice())?;
        nodes.push(node).map_err(AllocError::from)?;
        k += 1;
    }
    Ok(())
}

/// Appends what a base gives to the nodes that begin with `class`.
pub fn push_plain(
    alloc: Global,
    nodes: &mut Vec<Node>,
    class: ClassId,
    base: &Base,
    own: &[Node],
) -> Result<(), MakeEnd>
    requires { length nodes.old.items ≤ 256 }
    ensures ok { OnOk result (paths_in nodes.new.items ≡ paths_in nodes.old.items ++ plain_block class base.now (paths_in own.now)) }
    ensures few { length nodes.new.items ≤ 256 }
    ensures many { IfErr result (λ end. end ≡ MakeEnd.Many → 256 < length nodes.old.items + length (plain_block class base.now (paths_in own.now))) }
{
    if base.shared {
        return Ok(());
    }
    push_block(alloc, nodes, &[class], own)
}

/// The nodes of a new class that begin with it.
pub fn new_own(
    alloc: Global,
    graph: &Graph,
    class: ClassId,
    bases: &[Base],
) -> Result<Vec<Node>, MakeEnd>
    requires known { AreKnown graph.now bases.now }
    ensures ok { IfOk result (λ v. (paths_in v.items ≡ new_chains graph.now class bases.now) × (length v.items ≤ 256)) }
    ensures many { IfErr result (λ end. end ≡ MakeEnd.Many → 256 < length (new_chains graph.now class bases.now)) }
{
    let mut nodes = Vec::new(alloc);
    let node = joined_node(alloc, &[class], &[])?;
    nodes.push(node).map_err(AllocError::from)?;
    let mut n = 0;
    while n < bases.len() {
        let base = bases[n];
        push_plain(alloc, &mut nodes, class, &base, graph.own(base.class))?;
        n += 1;
    }
    Ok(nodes)
}

/// Appends the nodes of virtual bases, and says where those of each begin.
pub fn push_shared(
    alloc: Global,
    nodes: &mut Vec<Node>,
    graph: &Graph,
    shared: &[ClassId],
) -> Result<Vec<usize>, MakeEnd>
    requires complete { (v : ℕ) → Has shared.now v → IsComplete graph.now v }
    requires few { length nodes.old.items ≤ 256 }
    ensures ok { OnOk result (paths_in nodes.new.items ≡ paths_in nodes.old.items ++ flat_map (chains graph.now (length graph.now)) shared.now) }
    ensures few { length nodes.new.items ≤ 256 }
    ensures starts { IfOk result (λ s. s.items ≡ starts_from (chains graph.now (length graph.now)) (length nodes.old.items) shared.now) }
    ensures many { IfErr result (λ end. end ≡ MakeEnd.Many → 256 < length nodes.old.items + length (flat_map (chains graph.now (length graph.now)) shared.now)) }
{
    let mut starts = Vec::new(alloc);
    let mut n = 0;
    while n < shared.len() {
        starts.push(nodes.len()).map_err(AllocError::from)?;
        push_block(alloc, nodes, &[], graph.own(shared[n]))?;
        n += 1;
    }
    Ok(starts)
}

/// The depth of a class with these bases.
pub fn new_depth_of(graph: &Graph, bases: &[Base]) -> usize
    requires known { AreKnown graph.now bases.now }
    ensures { result ≡ new_depth graph.now bases.now }
{
    let mut depth = 0;
    let mut n = 0;
    while n < bases.len() {
        let base = bases[n];
        let above = graph.depth(base.class) as usize + 1;
        depth = above.max(depth);
        n += 1;
    }
    depth
}

/// Whether one of the bases is polymorphic.
pub fn any_polymorphic(graph: &Graph, bases: &[Base]) -> bool
    requires known { AreKnown graph.now bases.now }
    ensures { Decides result ((b : Base) × Has bases.now b × IsPolymorphic graph.now b.class) }
{
    let mut n = 0;
    while n < bases.len() {
        let base = bases[n];
        if graph.is_polymorphic(base.class) {
            return true;
        }
        n += 1;
    }
    false
}

/// Whether a class with these bases and members is polymorphic.
pub fn is_new_polymorphic(graph: &Graph, bases: &[Base], members: &[Member]) -> bool
    requires known { AreKnown graph.now bases.now }
    ensures { Decides result (IsNewPolymorphic graph.now bases.now members.now) }
{
    if any_virtual(members) {
        return true;
    }
    any_polymorphic(graph, bases)
}

/// The nodes of a new class.
pub fn new_nodes(
    alloc: Global,
    graph: &Graph,
    class: ClassId,
    bases: &[Base],
) -> Result<Nodes, MakeEnd>
    requires valid { IsClassList graph.now }
    requires known { AreKnown graph.now bases.now }
    ensures nodes { IfOk result (λ r. paths_in r.all.items ≡ new_subobjects graph.now class bases.now) }
    ensures few { IfOk result (λ r. length r.all.items ≤ 256) }
    ensures own { IfOk result (λ r. r.own ≡ length (new_chains graph.now class bases.now)) }
    ensures shared { IfOk result (λ r. r.shared.items ≡ new_virtual_bases graph.now bases.now) }
    ensures starts { IfOk result (λ r. r.starts.items ≡ new_starts graph.now class bases.now) }
    ensures many { IfErr result (λ end. end ≡ MakeEnd.Many → 256 < length (new_subobjects graph.now class bases.now)) }
{
    let shared = new_shared(alloc, graph, bases)?;
    let mut all = new_own(alloc, graph, class, bases)?;
    let own = all.len();
    let starts = push_shared(alloc, &mut all, graph, shared.as_slice())?;
    Ok(Nodes {
        all,
        own,
        shared,
        starts,
    })
}

/// Makes the parts of a new class.
pub fn make(
    alloc: Global,
    graph: &Graph,
    class: ClassId,
    bases: &[Base],
    members: &[Member],
) -> Result<Parts, MakeEnd>
    requires valid { IsClassList graph.now }
    requires can { CanAdd graph.now class bases.now members.now }
    ensures made { IfOk result (AreNewParts graph.now class bases.now members.now) }
    ensures many { IfErr result (λ end. end ≡ MakeEnd.Many → (256 < length (new_subobjects graph.now class bases.now)) ⊎ (2 ^ 19 < field_count members.now)) }
{
    if count_fields(members) > 524_288 {
        return Err(MakeEnd::Many);
    }
    let nodes = new_nodes(alloc, graph, class, bases)?;
    let access = new_access(alloc, graph, class, bases, &nodes)?;
    let named = named(alloc, members)?;
    Ok(Parts {
        nodes: nodes.all,
        own: nodes.own,
        shared: nodes.shared,
        starts: nodes.starts,
        access,
        depth: new_depth_of(graph, bases),
        polymorphic: is_new_polymorphic(graph, bases, members),
        named,
    })
}

/// What is kept of a class that is not complete.
pub fn no_parts(alloc: Global) -> Parts {
    Parts {
        nodes: Vec::new(alloc),
        own: 0,
        shared: Vec::new(alloc),
        starts: Vec::new(alloc),
        access: Vec::new(alloc),
        depth: 0,
        polymorphic: false,
        named: no_names(alloc),
    }
}

/// Whether a class is listed.
pub fn is_listed(bases: &[Base], class: ClassId) -> bool
    ensures { Decides result (Has (classes_of bases.now) class) }
{
    let mut n = 0;
    while n < bases.len() {
        if bases[n].class == class {
            return true;
        }
        n += 1;
    }
    false
}

/// The first base that is listed before, or not complete.
pub fn look(graph: &Graph, bases: &[Base]) -> Result<(), GraphEnd>
    requires { AreDeclared graph.now bases.now }
    ensures fine { OnOk result (AreFine graph.now bases.now) }
    ensures ends { IfErr result (λ end. Stops graph.now bases.now end) }
{
    let mut n = 0;
    while n < bases.len() {
        let base = bases[n];
        if is_listed(&bases[..n], base.class) {
            return Err(GraphEnd::Twice(n));
        }
        if !graph.is_complete(base.class) {
            return Err(GraphEnd::Unknown(n));
        }
        n += 1;
    }
    Ok(())
}
