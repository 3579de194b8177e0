//! The graph of all declared classes.

ghost use Rattle.std.specs.Prelude.{◌≡◌, ◌<◌, ◌≤◌, ◌^◌, ◌-◌, ◌+◌, ◌⊎◌, ◌↔◌, ℕ, List, [], ◌∷◌, ◌++◌, length, get_or, map, Bool, true, false, IfOk, IfErr, OnOk, OnErr};
ghost use Rattle.std.specs.Bool.{Decides};
ghost use Rattle.mm_classes.specs.Lists.{Has, Distinct};
ghost use Rattle.mm_classes.specs.Access.{IsAccess};
ghost use Rattle.mm_classes.specs.Classes.{IsClassList, IsComplete, IsMemberList, AreTyped, IsNextNamed, member_name, class_at, bases_of, members_of, name_of, field_count, depth_of, IsPolymorphic, Derives};
ghost use Rattle.mm_classes.specs.Subobjects.{IsSubobject, IsVirtual, chains, subobjects_of, end_of, IsWithin, compose as composed, virtual_bases as all_virtual_bases};
ghost use Rattle.mm_classes.specs.Questions.{node, IsNode, Picks, IsUpOf, Surrounds, IsAroundOf};
ghost use Rattle.mm_classes.specs.Laws.{AreNodes, Composes, HasAccess, Deepens};
ghost use Rattle.mm_classes.specs.Adding.{added, AreDeclared, CanAdd, IsNamed, declared};
ghost use Rattle.mm_paths.specs.Ends.{AreFine, AreTooMany, Ends};
ghost use Rattle.mm_paths.specs.Stored.{paths_in, ArePartsOf, HaveAccess, IsStart};

use crate::build::{look, make, no_parts};
use crate::entry::{GraphEnd, MakeEnd, Node, Parts};
use crate::find::{among, as_around, close_by, node_id, path_end, pick, start_among};
use crate::reach::place_in;
use mm_base::code::NoMemory;
use mm_class_table::table::ClassTable;
use mm_classes::answer::{Around, Up};
use mm_classes::class::{Access, Base, Member};
use mm_classes::copies::copy_members;
use mm_classes::id::{ClassId, NodeId};
use std::alloc::Global;
use std::marker::Model;

/// All classes that are declared, by number, with the subobjects of each. To a contract it is its class list.
#[derive(Drop)]
pub struct Graph {
    alloc: Global,
    table: ClassTable,
    parts: Vec<Parts>,
}

impl Model for Graph {
    ghost use Rattle.std.specs.Prelude.{List};
    ghost use Rattle.mm_classes.specs.Classes.{Class};

    ghost Value = { List Class };

    ghost use Rattle.mm_paths.specs.Stored.{IsStored};

    ghost view = { λ g. g.table };

    ghost invariant = { λ g. IsStored g.table g.parts.items };
}

impl Graph {
    /// A graph with no classes.
    pub fn new(alloc: Global) -> Graph
        ensures { result ≡ [] }
    {
        Graph {
            alloc,
            table: ClassTable::new(alloc),
            parts: Vec::new(alloc),
        }
    }

    /// The classes alone.
    pub fn table(&self) -> &ClassTable
        ensures { result.now ≡ self.now }
    {
        &self.table
    }

    /// The classes alone; what the graph keeps of subobjects is given back.
    pub fn into_table(self) -> ClassTable
        ensures { result ≡ self }
    {
        let Graph {
            alloc: _,
            table,
            parts: _,
        } = self;
        table
    }

    /// How many classes are declared: their numbers are those below it.
    pub fn classes(&self) -> u32
        ensures count { result ≡ length self.now }
        ensures valid { IsClassList self.now }
        ensures laws { Composes self.now }
        ensures access { HasAccess self.now }
    {
        self.table.classes()
    }

    /// Whether a class has this number.
    pub fn is_declared(&self, c: ClassId) -> bool
        ensures { Decides result (c < length self.now) }
    {
        self.table.is_declared(c)
    }

    /// Whether all bases are of declared classes.
    pub fn are_declared(&self, bases: &[Base]) -> bool
        ensures { Decides result (AreDeclared self.now bases.now) }
    {
        self.table.are_declared(bases)
    }

    /// Whether the class has been added.
    pub fn is_complete(&self, c: ClassId) -> bool
        requires { c < length self.now }
        ensures { result ≡ (class_at self.now c).complete }
    {
        self.table.is_complete(c)
    }

    /// The name by which the class was declared.
    pub fn name(&self, c: ClassId) -> &str
        requires { c < length self.now }
        ensures { result.now ≡ name_of self.now c }
    {
        self.table.name(c)
    }

    /// The direct bases, as they were added.
    pub fn bases(&self, c: ClassId) -> &[Base]
        requires { c < length self.now }
        ensures { result.now ≡ bases_of self.now c }
    {
        self.table.bases(c)
    }

    /// The members that the class declares, as they were added.
    pub fn members(&self, c: ClassId) -> &[Member]
        requires { c < length self.now }
        ensures members { result.now ≡ members_of self.now c }
        ensures apart { IsMemberList result.now }
        ensures typed { AreTyped (length self.now) result.now }
        ensures fields { IsComplete self.now c → field_count result.now ≤ 2 ^ 19 }
    {
        // Read here, so that what is kept of the class is known.
        let _parts = &self.parts;
        self.table.members(c)
    }

    // What is kept of the class.
    fn parts_of(&self, c: ClassId) -> &Parts
        requires { IsComplete self.now c }
        ensures parts { ArePartsOf self.now c result.now }
        ensures valid { IsClassList self.now }
        ensures count { length self.now < 2 ^ 32 }
    {
        &self.parts[c.number as usize]
    }

    /// How many subobjects the class has: the numbers of its nodes are those below it.
    pub fn count(&self, d: ClassId) -> u32
        requires { IsComplete self.now d }
        ensures count { result ≡ length (subobjects_of self.now d) }
        ensures few { result ≤ 256 }
        ensures nodes { AreNodes self.now d }
    {
        self.parts_of(d).nodes.len() as u32
    }

    /// The classes of the subobject's list.
    pub fn path(&self, d: ClassId, n: NodeId) -> &[ClassId]
        requires complete { IsComplete self.now d }
        requires node { IsNode self.now d n }
        ensures path { result.now ≡ node self.now d n }
        ensures long { 0 < length result.now }
        ensures sub { IsSubobject self.now d result.now }
        ensures end { IsComplete self.now (end_of result.now) }
    {
        self.parts_of(d).nodes[n.number as usize].path.as_slice()
    }

    /// The class that the subobject is of.
    pub fn class_of(&self, d: ClassId, n: NodeId) -> ClassId
        requires complete { IsComplete self.now d }
        requires node { IsNode self.now d n }
        ensures class { result ≡ end_of (node self.now d n) }
        ensures complete { IsComplete self.now result }
    {
        path_end(self.path(d, n))
    }

    /// The virtual bases of the class, each once, in the order in which a walk over its bases meets them.
    pub fn virtual_bases(&self, c: ClassId) -> &[ClassId]
        requires { IsComplete self.now c }
        ensures order { result.now ≡ all_virtual_bases self.now c }
        ensures each { (v : ℕ) → (IsVirtual self.now c v ↔ Has result.now v) }
    {
        self.parts_of(c).shared.as_slice()
    }

    // The nodes of the class that begin with it.
    pub(crate) fn own(&self, c: ClassId) -> &[Node]
        requires { IsComplete self.now c }
        ensures { paths_in result.now ≡ chains self.now (length self.now) c }
    {
        let parts = self.parts_of(c);
        &parts.nodes[..parts.own]
    }

    // How many nodes of the class begin with it.
    pub(crate) fn own_count(&self, c: ClassId) -> usize
        requires { IsComplete self.now c }
        ensures count { result ≡ length (chains self.now (length self.now) c) }
        ensures few { result ≤ 256 }
        ensures all { length (subobjects_of self.now c) ≤ 256 }
        ensures valid { IsClassList self.now }
    {
        self.parts_of(c).own
    }

    // The number of the first node of the class that begins with one of its virtual bases.
    pub(crate) fn start(&self, c: ClassId, v: ClassId) -> usize
        requires complete { IsComplete self.now c }
        requires has { Has (all_virtual_bases self.now c) v }
        ensures { IsStart self.now c v result }
    {
        let parts = self.parts_of(c);
        start_among(parts.shared.as_slice(), parts.starts.as_slice(), v)
    }

    // The access of each node of the class.
    pub(crate) fn accesses(&self, c: ClassId) -> &[Option<Access>]
        requires { IsComplete self.now c }
        ensures access { HaveAccess self.now c result.now }
        ensures few { length result.now ≤ 256 }
    {
        self.parts_of(c).access.as_slice()
    }

    /// The access that a public member of the subobject has where it is named in `d`, if it has any. A protected member has
    /// the lesser of this and protected; a private one has private in the whole, and none elsewhere.
    pub fn access(&self, d: ClassId, n: NodeId) -> Option<Access>
        requires complete { IsComplete self.now d }
        requires node { IsNode self.now d n }
        ensures { IsAccess self.now d (node self.now d n) Access.Public result }
    {
        self.accesses(d)[n.number as usize]
    }

    /// The number of the first member of this name that the class declares.
    pub fn first_named(&self, c: ClassId, name: &str) -> Option<u32>
        requires { IsComplete self.now c }
        ensures { IsNextNamed result (members_of self.now c) name.now 0 }
    {
        self.parts_of(c).named.first.get(name).copied()
    }

    /// The number of the next member of the name that the `k`-th has.
    pub fn next_named(&self, c: ClassId, k: u32) -> Option<u32>
        requires complete { IsComplete self.now c }
        requires member { k < length (members_of self.now c) }
        ensures { IsNextNamed result (members_of self.now c) (member_name (members_of self.now c) k) (k + 1) }
    {
        self.parts_of(c).named.next[k as usize]
    }

    /// The number of links in the longest chain of direct bases that begins at the class. A direct base has a lower one.
    pub fn depth(&self, c: ClassId) -> u32
        requires { IsComplete self.now c }
        ensures depth { result ≡ depth_of self.now c }
        ensures bases { Deepens self.now c }
    {
        self.parts_of(c).depth as u32
    }

    /// Whether the class declares or inherits a virtual function.
    pub fn is_polymorphic(&self, c: ClassId) -> bool
        requires { IsComplete self.now c }
        ensures { Decides result (IsPolymorphic self.now c) }
    {
        self.parts_of(c).polymorphic
    }

    /// The subobject of `d` that `m`, a subobject of the class of `n`, is in `n`.
    pub fn compose(&self, d: ClassId, n: NodeId, m: NodeId) -> NodeId
        requires complete { IsComplete self.now d }
        requires node { IsNode self.now d n }
        requires part { IsNode self.now (end_of (node self.now d n)) m }
        ensures node { IsNode self.now d result }
        ensures path { node self.now d result ≡ composed (node self.now d n) (node self.now (end_of (node self.now d n)) m) }
    {
        let whole = self.parts_of(d);
        let part = self.class_of(d, n);
        let (at, m) = (n.number as usize, m.number as usize);
        node_id(place_in(
            self,
            part,
            at,
            m,
            whole.shared.as_slice(),
            whole.starts.as_slice(),
        ))
    }

    /// The subobject of the class of `t` that `s`, which `t` contains, is in `t`.
    pub fn part(&self, d: ClassId, t: NodeId, s: NodeId) -> NodeId
        requires complete { IsComplete self.now d }
        requires whole { IsNode self.now d t }
        requires part { IsNode self.now d s }
        requires within { IsWithin self.now (node self.now d s) (node self.now d t) }
        ensures node { IsNode self.now (end_of (node self.now d t)) result }
        ensures path { composed (node self.now d t) (node self.now (end_of (node self.now d t)) result) ≡ node self.now d s }
    {
        let class = self.class_of(d, t);
        let own = self.own_count(class);
        if let Some(m) = close_by(t, s, own) {
            return m;
        }
        let head = self.path(d, s)[0];
        let from = self.start(d, head);
        let to = self.start(class, head);
        node_id(to + (s.number as usize - from))
    }

    /// Whether the subobject `t` contains `s`.
    pub fn contains(&self, d: ClassId, t: NodeId, s: NodeId) -> bool
        requires complete { IsComplete self.now d }
        requires whole { IsNode self.now d t }
        requires part { IsNode self.now d s }
        ensures { Decides result (IsWithin self.now (node self.now d s) (node self.now d t)) }
    {
        let class = self.class_of(d, t);
        let own = self.own_count(class);
        if let Some(_m) = close_by(t, s, own) {
            return true;
        }
        among(self.virtual_bases(class), self.path(d, s)[0])
    }

    /// The subobject of `c` that is of class `b`.
    pub fn up(&self, c: ClassId, b: ClassId) -> Up
        requires { IsComplete self.now c }
        ensures { IsUpOf result self.now c b }
    {
        let count = self.count(c);
        let mut found = Up::None;
        let mut n = 0;
        while n < count {
            let at = NodeId { number: n };
            found = pick(found, at, self.class_of(c, at) == b);
            n += 1;
        }
        found
    }

    /// The subobject of `d` that is of class `t` and contains `n`.
    pub fn around(&self, d: ClassId, n: NodeId, t: ClassId) -> Around
        requires complete { IsComplete self.now d }
        requires node { IsNode self.now d n }
        ensures { IsAroundOf result self.now d n t }
    {
        let count = self.count(d);
        let mut found = Up::None;
        let mut x = 0;
        while x < count {
            let at = NodeId { number: x };
            found = pick(found, at, self.surrounds(d, n, t, at));
            x += 1;
        }
        as_around(found)
    }

    fn surrounds(&self, d: ClassId, n: NodeId, t: ClassId, x: NodeId) -> bool
        requires complete { IsComplete self.now d }
        requires node { IsNode self.now d n }
        requires other { IsNode self.now d x }
        ensures { Decides result (Surrounds self.now d n t x) }
    {
        if self.class_of(d, x) != t {
            return false;
        }
        self.contains(d, x, n)
    }

    /// Whether `b` is a direct or indirect base of `c`.
    pub fn derives(&self, c: ClassId, b: ClassId) -> bool
        requires { IsComplete self.now c }
        ensures { Decides result (Derives self.now c b) }
    {
        // Read here, so that the graph is known to be a class list.
        let _ = &self.parts;
        if c == b {
            return false;
        }
        match self.up(c, b) {
            Up::None => false,
            Up::One(_) => true,
            Up::Several => true,
        }
    }

    // Completes a class whose bases are complete, each once.
    fn insert(&mut self, class: ClassId, bases: &[Base], members: &[Member]) -> Result<(), MakeEnd>
        requires { CanAdd self.old class bases.now members.now }
        ensures ok { OnOk result (self.new ≡ added self.old class bases.now members.now) }
        ensures err { OnErr result (self.new ≡ self.old) }
        ensures few { OnOk result (length (subobjects_of self.new class) ≤ 256) }
        ensures fields { OnOk result (field_count members.now ≤ 2 ^ 19) }
        ensures many { IfErr result (λ end. end ≡ MakeEnd.Many → AreTooMany self.old class bases.now members.now) }
    {
        let made = make(self.alloc, self, class, bases, members)?;
        let bases = bases.to_vec(self.alloc)?;
        let members = copy_members(self.alloc, members)?;
        self.parts[class.number as usize] = made;
        self.table.complete(class, bases, members);
        Ok(())
    }

    /// Completes a class.
    pub fn add(
        &mut self,
        class: ClassId,
        bases: &[Base],
        members: &[Member],
    ) -> Result<(), GraphEnd>
        requires here { class < length self.old }
        requires open { (class_at self.old class).complete ≡ false }
        requires declared { AreDeclared self.old bases.now }
        requires members { IsMemberList members.now }
        requires typed { AreTyped (length self.old) members.now }
        ensures ok { OnOk result (self.new ≡ added self.old class bases.now members.now) }
        ensures fine { OnOk result (AreFine self.old bases.now) }
        ensures few { OnOk result (length (subobjects_of self.new class) ≤ 256) }
        ensures fields { OnOk result (field_count members.now ≤ 2 ^ 19) }
        ensures ends { IfErr result (λ end. Ends self.old class bases.now members.now end) }
        ensures same { OnErr result (self.new ≡ self.old) }
    {
        look(self, bases)?;
        self.insert(class, bases, members)?;
        Ok(())
    }

    /// The number of a name: its own where it is declared already, and else that of a new class.
    pub fn declare(&mut self, name: &str) -> Result<ClassId, NoMemory>
        requires { length self.old < 2 ^ 32 - 1 }
        ensures named { IfOk result (λ c. IsNamed c self.old name.now) }
        ensures here { OnOk result (IfOk result (λ c. (c < length self.new) × (name_of self.new c ≡ name.now))) }
        ensures ok { OnOk result (IfOk result (λ c. self.new ≡ declared c self.old name.now)) }
        ensures err { OnErr result (self.new ≡ self.old) }
    {
        self.parts.reserve(1)?;
        let class = self.table.declare(name)?;
        if class.number as usize == self.parts.len() {
            self.parts.push_reserved(no_parts(self.alloc));
        }
        Ok(class)
    }
}
