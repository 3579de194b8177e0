//! Who may use a member where it is named, bases aside.

ghost use Rattle.std.specs.Prelude.{ℕ, IfSome, ◌≢◌};
ghost use Rattle.std.specs.Bool.{Decides};
ghost use Rattle.mm_classes.specs.Access.{IsAccess};
ghost use Rattle.mm_classes.specs.Classes.{IsClassList, IsComplete};
ghost use Rattle.mm_classes.specs.Laws.{HasAccess};
ghost use Rattle.mm_classes.specs.Questions.{node, IsNode};
ghost use Rattle.mm_lookup.specs.Access.{UsesAt, HasAccessBy};

use crate::found::Context;
use mm_classes::class::Access;
use mm_classes::id::{ClassId, NodeId};
use mm_paths::graph::Graph;
use mm_paths::reach::lesser_of;

// The access of a protected member of the subobject.
fn protected_access(graph: &Graph, c: ClassId, n: NodeId) -> Option<Access>
    requires complete { IsComplete graph.now c }
    requires node { IsNode graph.now c n }
    ensures { IsAccess graph.now c (node graph.now c n) Access.Protected result }
{
    let Some(access) = graph.access(c, n) else {
        return None;
    };
    Some(lesser_of(Access::Protected, access))
}

// The access of a private member of the subobject: none, but in the class itself.
fn private_access(graph: &Graph, c: ClassId, n: NodeId) -> Option<Access>
    requires complete { IsComplete graph.now c }
    requires valid { IsClassList graph.now }
    requires law { HasAccess graph.now }
    requires node { IsNode graph.now c n }
    ensures { IsAccess graph.now c (node graph.now c n) Access.Private result }
{
    if n.number == 0 {
        return Some(Access::Private);
    }
    None
}

// The access that a member of the subobject has where it is named in the class.
fn access_of(graph: &Graph, c: ClassId, n: NodeId, declared: Access) -> Option<Access>
    requires complete { IsComplete graph.now c }
    requires valid { IsClassList graph.now }
    requires law { HasAccess graph.now }
    requires node { IsNode graph.now c n }
    ensures { IsAccess graph.now c (node graph.now c n) declared result }
{
    match declared {
        Access::Public => graph.access(c, n),
        Access::Protected => protected_access(graph, c, n),
        Access::Private => private_access(graph, c, n),
    }
}

// Whether a member of a subobject of `n` has some access in `f` by way of one subobject of `f`.
fn has_access_by(
    graph: &Graph,
    f: ClassId,
    n: ClassId,
    at: NodeId,
    declared: Access,
    way: NodeId,
) -> bool
    requires inside { IsComplete graph.now f }
    requires complete { IsComplete graph.now n }
    requires valid { IsClassList graph.now }
    requires law { HasAccess graph.now }
    requires node { IsNode graph.now n at }
    requires way { IsNode graph.now f way }
    ensures { Decides result (HasAccessBy graph.now f n (node graph.now n at) declared way) }
{
    if graph.class_of(f, way) != n {
        return false;
    }
    access_of(graph, f, graph.compose(f, way, at), declared).is_some()
}

// Whether it has by way of any.
fn has_access_in(graph: &Graph, f: ClassId, n: ClassId, at: NodeId, declared: Access) -> bool
    requires inside { IsComplete graph.now f }
    requires complete { IsComplete graph.now n }
    requires valid { IsClassList graph.now }
    requires law { HasAccess graph.now }
    requires node { IsNode graph.now n at }
    ensures { Decides result ((r : ℕ) × IsNode graph.now f r × HasAccessBy graph.now f n (node graph.now n at) declared r) }
{
    let count = graph.count(f);
    let mut way = 0;
    while way < count {
        if has_access_by(graph, f, n, at, declared, NodeId { number: way }) {
            return true;
        }
        way += 1;
    }
    false
}

// Whether a member function of `f` may use a member that has this access, which is not public, where it is named.
fn uses_inside(
    graph: &Graph,
    f: ClassId,
    n: ClassId,
    at: NodeId,
    declared: Access,
    access: Access,
) -> bool
    requires inside { IsComplete graph.now f }
    requires complete { IsComplete graph.now n }
    requires valid { IsClassList graph.now }
    requires law { HasAccess graph.now }
    requires node { IsNode graph.now n at }
    requires access { IsAccess graph.now n (node graph.now n at) declared (Some access) }
    requires hidden { access ≢ Access.Public }
    ensures { Decides result (UsesAt graph.now (Some f) n (node graph.now n at) declared) }
{
    if f == n {
        return true;
    }
    match access {
        Access::Public => true,
        Access::Protected => has_access_in(graph, f, n, at, declared),
        Access::Private => false,
    }
}

// Whether a member of the subobject may be used where it is named in the class, in one of the first three cases: it is
// public there; or it has some access, and the use is inside the class; or it is protected, and has some access in the
// derived class inside which the use is.
pub fn uses_at(graph: &Graph, from: &Context, n: ClassId, at: NodeId, declared: Access) -> bool
    requires from { IfSome from.now.class (IsComplete graph.now) }
    requires complete { IsComplete graph.now n }
    requires valid { IsClassList graph.now }
    requires law { HasAccess graph.now }
    requires node { IsNode graph.now n at }
    ensures { Decides result (UsesAt graph.now from.now.class n (node graph.now n at) declared) }
{
    let Some(access) = access_of(graph, n, at, declared) else {
        return false;
    };
    if access == Access::Public {
        return true;
    }
    let Some(f) = from.class else {
        return false;
    };
    uses_inside(graph, f, n, at, declared, access)
}
