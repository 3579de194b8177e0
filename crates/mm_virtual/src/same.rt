//! The same function in another class.

ghost use Rattle.std.specs.Prelude.{◌≡◌, ◌<◌, ℕ, length, MatchOption};
ghost use Rattle.std.specs.Bool.{Decides};
ghost use Rattle.mm_classes.specs.Classes.{IsClassList, IsComplete, members_of};
ghost use Rattle.mm_classes.specs.Functions.{AreSameKind, AreSame, IsVirtualIn};
ghost use Rattle.mm_virtual.specs.Overriders.{DeclaresSame, IsSameAt};
ghost use Rattle.mm_virtual.specs.Results.{DeclaresVirtual};

use mm_classes::class::{Member, MemberKind, Ty};
use mm_classes::copies::is_a_virtual;
use mm_classes::id::{ClassId, NodeId};
use mm_paths::graph::Graph;

// Whether two lists of types are the same.
fn are_same_types(ps: &[Ty], qs: &[Ty]) -> bool
    ensures { Decides result (ps.now ≡ qs.now) }
{
    ps == qs
}

// Whether both are functions with the same parameter types.
fn are_same_kind(a: &MemberKind, b: &MemberKind) -> bool
    ensures { Decides result (AreSameKind a.now b.now) }
{
    match a {
        MemberKind::Field(_) => false,
        MemberKind::Function(ps, _, _) => match b {
            MemberKind::Field(_) => false,
            MemberKind::Function(qs, _, _) => are_same_types(ps.as_slice(), qs.as_slice()),
        },
    }
}

// Whether both are functions of one name with the same parameter types.
fn is_same(m: &Member, x: &Member) -> bool
    ensures { Decides result (AreSame m.now x.now) }
{
    m.name.as_str() == x.name.as_str() && are_same_kind(&m.kind, &x.kind)
}

/// The number of the member of a class that is the same function. It goes over the members of the
/// name alone.
pub fn same_in(graph: &Graph, c: ClassId, m: &Member) -> Option<u32>
    requires { IsComplete graph.now c }
    ensures { MatchOption result (DeclaresSame (members_of graph.now c) m.now → ⊥) (λ k. IsSameAt (members_of graph.now c) m.now k) }
{
    let members = graph.members(c);
    let mut at = graph.first_named(c, m.name.as_str());
    while let Some(k) = at {
        if is_same(m, &members[k as usize]) {
            return Some(k);
        }
        at = graph.next_named(c, k);
    }
    None
}

// Whether a class declares the same function, as a virtual one.
fn declares_virtual(graph: &Graph, c: ClassId, m: &Member) -> bool
    requires { IsComplete graph.now c }
    ensures { Decides result (DeclaresVirtual graph.now m.now c) }
{
    match same_in(graph, c, m) {
        None => false,
        Some(k) => is_a_virtual(&graph.members(c)[k as usize]),
    }
}

/// Whether a member of a class is a virtual function: by its own declaration, or by one that it
/// overrides.
pub fn is_virtual_in(graph: &Graph, c: ClassId, m: &Member) -> bool
    requires valid { IsClassList graph.now }
    requires class { IsComplete graph.now c }
    ensures { Decides result (IsVirtualIn graph.now c m.now) }
{
    if is_a_virtual(m) {
        return true;
    }
    let count = graph.count(c);
    let mut n = 1;
    while n < count {
        if declares_virtual(graph, graph.class_of(c, NodeId { number: n }), m) {
            return true;
        }
        n += 1;
    }
    false
}
