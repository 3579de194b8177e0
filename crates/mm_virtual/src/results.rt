//! Whether the results of overriding functions keep the rule.

ghost use Rattle.std.specs.Prelude.{◌≡◌, ◌<◌, ℕ, length, MatchOption, slice_get, Some, None};
ghost use Rattle.std.specs.Bool.{Decides};
ghost use Rattle.mm_classes.specs.Classes.{IsClassList, IsComplete, IsTyped, AreTyped, members_of};
ghost use Rattle.mm_classes.specs.Functions.{IsCovariant};
ghost use Rattle.mm_virtual.specs.Results.{result_of, BreaksAt, IsBroken, IsSameOrOnlyBase};
ghost use Rattle.mm_virtual.specs.Finals.{KeepsResults, IsFirstBroken};

use crate::same::{is_virtual_in, same_in};
use mm_classes::answer::Up;
use mm_classes::class::{Member, MemberKind, Ty};
use mm_classes::id::{ClassId, NodeId};
use mm_paths::graph::Graph;

// Whether the classes are the same, or the second is the only base of its class that the first has.
fn is_same_or_only_base(graph: &Graph, x: ClassId, y: ClassId) -> bool
    requires valid { IsClassList graph.now }
    requires class { x < length graph.now }
    ensures { Decides result (IsSameOrOnlyBase graph.now x y) }
{
    if x == y {
        return true;
    }
    if !graph.is_complete(x) {
        return false;
    }
    match graph.up(x, y) {
        Up::One(_) => true,
        Up::None => false,
        Up::Several => false,
    }
}

// Whether a function may have result `r` where the one that it overrides has `o`.
fn is_covariant(graph: &Graph, r: Ty, o: Ty) -> bool
    requires valid { IsClassList graph.now }
    requires typed { IsTyped (length graph.now) r }
    ensures { Decides result (IsCovariant graph.now r o) }
{
    match r {
        Ty::Ptr(x) => match o {
            Ty::Ptr(y) => is_same_or_only_base(graph, x, y),
            _ => false,
        },
        Ty::Ref(x) => match o {
            Ty::Ref(y) => is_same_or_only_base(graph, x, y),
            _ => false,
        },
        _ => r == o,
    }
}

// The result of a function.
fn result_type(member: &Member) -> Ty
    ensures { result ≡ result_of member.now.kind }
{
    match &member.kind {
        MemberKind::Field(_) => Ty::Void,
        MemberKind::Function(_, result, _) => *result,
    }
}

// Whether a class declares the function as a virtual one with a result that the function's own may
// not take.
fn breaks_at(graph: &Graph, b: ClassId, m: &Member) -> bool
    requires valid { IsClassList graph.now }
    requires class { IsComplete graph.now b }
    requires typed { IsTyped (length graph.now) (result_of m.now.kind) }
    ensures { Decides result (BreaksAt graph.now m.now b) }
{
    let Some(k) = same_in(graph, b, m) else {
        return false;
    };
    let other = &graph.members(b)[k as usize];
    !is_covariant(graph, result_type(m), result_type(other)) && is_virtual_in(graph, b, other)
}

// Whether a member of a class breaks the rule.
fn is_broken(graph: &Graph, c: ClassId, m: &Member) -> bool
    requires valid { IsClassList graph.now }
    requires class { IsComplete graph.now c }
    requires typed { IsTyped (length graph.now) (result_of m.now.kind) }
    ensures { Decides result (IsBroken graph.now c m.now) }
{
    let count = graph.count(c);
    let mut n = 1;
    while n < count {
        if breaks_at(graph, graph.class_of(c, NodeId { number: n }), m) {
            return true;
        }
        n += 1;
    }
    false
}

/// The number of the first member of a class that breaks the rule.
pub fn first_broken(graph: &Graph, c: ClassId) -> Option<usize>
    requires valid { IsClassList graph.now }
    requires class { IsComplete graph.now c }
    ensures { MatchOption result (KeepsResults graph.now c) (λ k. (m : Member) × IsFirstBroken graph.now c k m) }
{
    let members = graph.members(c);
    let mut k = 0;
    while k < members.len() {
        if is_broken(graph, c, &members[k]) {
            return Some(k);
        }
        k += 1;
    }
    None
}
