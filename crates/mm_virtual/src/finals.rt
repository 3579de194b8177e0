//! The final overriders of a class.

ghost use Rattle.std.specs.Prelude.{◌≡◌, ◌<◌, ◌≤◌, ℕ, List, length, get_or, OnOk, OnErr, IfOk};
ghost use Rattle.mm_virtual.specs.Finals.{Tells, Gives};
ghost use Rattle.mm_virtual.specs.Kept.{line_of, lines_of, Rises, StandsAmong, IsRow, AreRows};

use crate::end::MemberRef;
use mm_classes::id::NodeId;
use std::marker::Model;

/// Of one subobject: the numbers of the virtual members of its class, and at the same places their
/// final overriders.
#[derive(Drop)]
pub struct Row {
    pub members: Vec<u32>,
    pub finals: Vec<(NodeId, MemberRef)>,
}

/// For each subobject of a class, and each virtual member of that subobject's class, the final
/// overrider.
#[derive(Drop)]
pub struct Finals {
    rows: Vec<Row>,
}

impl Model for Finals {
    ghost use Rattle.std.specs.Prelude.{List};
    ghost use Rattle.mm_virtual.specs.Finals.{Line};

    ghost Value = { List Line };

    ghost use Rattle.mm_virtual.specs.Kept.{lines_of, AreRows};

    ghost view = { λ f. lines_of f.rows.items };

    ghost invariant = { λ f. AreRows (lines_of f.rows.items) };
}

// The place of a number in rising numbers that have it.
fn place_in(members: &[u32], member: u32) -> usize
    requires rises { Rises members.now }
    requires has { StandsAmong members.now member 0 (length members.now) }
    ensures low { result < length members.now }
    ensures at { get_or members.now result 0 ≡ member }
{
    let mut low = 0;
    let mut high = members.len();
    while high - low > 1 {
        let middle = low + (high - low) / 2;
        if members[middle] <= member {
            low = middle;
        } else {
            high = middle;
        }
    }
    low
}

impl Row {
    // The final overrider of a member.
    fn at(&self, member: u32) -> (NodeId, MemberRef)
        requires row { IsRow (line_of self.now) }
        requires has { (r : ℕ × MemberRef) × Tells (line_of self.now) member r }
        ensures { Tells (line_of self.now) member result }
    {
        self.finals[place_in(self.members.as_slice(), member)]
    }
}

impl Finals {
    /// These rows.
    pub fn of_rows(rows: Vec<Row>) -> Finals
        requires { AreRows (lines_of rows.items) }
        ensures { result ≡ lines_of rows.items }
    {
        Finals { rows }
    }

    /// The final overrider of a virtual member of the class of the subobject `n`: the subobject
    /// that declares it, and the member. It takes no memory, and as many steps as the number of
    /// virtual members has binary digits.
    pub fn at(&self, n: NodeId, member: u32) -> (NodeId, MemberRef)
        requires { (r : ℕ × MemberRef) × Gives self.now n member r }
        ensures { Gives self.now n member result }
    {
        self.rows[n.number as usize].at(member)
    }
}
