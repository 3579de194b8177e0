//! Searches among the nodes of a class.

ghost use Rattle.std.specs.Prelude.{◌≡◌, ◌<◌, ◌≤◌, ◌-◌, ◌^◌, ℕ, length, get_or, MatchOption};
ghost use Rattle.std.specs.Bool.{Decides};
ghost use Rattle.mm_classes.specs.Lists.{Has};
ghost use Rattle.mm_classes.specs.Subobjects.{end_of};
ghost use Rattle.mm_classes.specs.Questions.{picked, as_up};

use mm_classes::answer::{Around, Up};
use mm_classes::id::{ClassId, NodeId};

/// The class that ends a path.
pub fn path_end(path: &[ClassId]) -> ClassId
    requires { 0 < length path.now }
    ensures { result ≡ end_of path.now }
{
    path[path.len() - 1]
}

/// The start beside the first place of a class.
pub fn start_among(shared: &[ClassId], starts: &[usize], v: ClassId) -> usize
    requires has { Has shared.now v }
    requires long { length starts.now ≡ length shared.now }
    ensures { (j : ℕ) × (j < length shared.now) × (get_or shared.now j 0 ≡ v) × (result ≡ get_or starts.now j 0) }
{
    let mut j = 0;
    while shared[j] != v {
        j += 1;
    }
    starts[j]
}

/// A place as a number of a node.
pub fn node_id(place: usize) -> NodeId
    requires { place < 2 ^ 32 }
    ensures { result ≡ place }
{
    NodeId {
        number: place as u32,
    }
}

/// How far a number lies behind another, where that is less than a bound.
pub fn close_by(t: NodeId, s: NodeId, bound: usize) -> Option<NodeId>
    ensures { MatchOption result (t ≤ s → bound ≤ s - t) (λ m. (t ≤ s) × (m ≡ s - t) × (m < bound)) }
{
    if t.number <= s.number {
        let m = s.number - t.number;
        if (m as usize) < bound {
            return Some(NodeId { number: m });
        }
    }
    None
}

/// The answer so far, with one more number that fits or not.
pub fn pick(found: Up, n: NodeId, fits: bool) -> Up
    ensures { result ≡ picked found n fits }
{
    if !fits {
        return found;
    }
    match found {
        Up::None => Up::One(n),
        Up::One(_) => Up::Several,
        Up::Several => Up::Several,
    }
}

/// Whether a number is among others.
pub fn among(xs: &[ClassId], x: ClassId) -> bool
    ensures { Decides result (Has xs.now x) }
{
    xs.contains(&x)
}

/// The same answer, of subobjects that contain one.
pub fn as_around(found: Up) -> Around
    ensures { as_up result ≡ found }
{
    match found {
        Up::One(node) => Around::One(node),
        Up::None => Around::None,
        Up::Several => Around::Several,
    }
}
