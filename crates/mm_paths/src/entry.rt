//! What a graph keeps of each class.

use indexmap::IndexMap;
use mm_classes::class::Access;
use mm_classes::id::ClassId;
use smallvec::SmallVec;
use std::alloc::AllocError;

/// A subobject: the classes of its path.
#[derive(Drop)]
pub struct Node {
    pub path: SmallVec<ClassId, 8>,
}

/// The members of a class by their names.
#[derive(Drop)]
pub struct Named {
    /// The number of the first member of each name.
    pub first: IndexMap<String, u32>,
    /// For each member the number of the next one of its name.
    pub next: Vec<Option<u32>>,
}

/// What is kept of a complete class.
#[derive(Drop)]
pub struct Parts {
    /// The subobjects, in order.
    pub nodes: Vec<Node>,
    /// How many of the nodes begin with the class itself.
    pub own: usize,
    /// The virtual bases, in order.
    pub shared: Vec<ClassId>,
    /// For each virtual base the number of the first node that begins with it.
    pub starts: Vec<usize>,
    /// For each node the access that a public member of it has in the class.
    pub access: Vec<Option<Access>>,
    /// The number of links in the longest chain of bases.
    pub depth: usize,
    pub polymorphic: bool,
    pub named: Named,
}

/// The nodes of a class, with the numbers at which they begin with another class, its virtual bases.
#[derive(Drop)]
pub struct Nodes {
    pub all: Vec<Node>,
    pub own: usize,
    pub shared: Vec<ClassId>,
    pub starts: Vec<usize>,
}

/// Why a class is not added.
#[derive(Clone, Copy, PartialEq, Eq, Debug)]
pub enum GraphEnd {
    /// The base at this place is of the class of an earlier one.
    Twice(usize),
    /// The base at this place is not complete.
    Unknown(usize),
    /// The class would have more than 256 subobjects, or declares more than 2^19 fields.
    Many,
    NoMemory,
}

/// Why the parts of a class are not made.
#[derive(Clone, Copy, PartialEq, Eq, Debug)]
pub enum MakeEnd {
    Many,
    NoMemory,
}

impl From<AllocError> for MakeEnd {
    ghost use Rattle.std.specs.Prelude.{◌≡◌};
    ghost use Rattle.mm_paths.specs.declared.entry.MakeEnd.TheVariants.{NoMemory};

    ghost from_gives = { λ _ e. e ≡ NoMemory };

    fn from(_error: AllocError) -> MakeEnd {
        MakeEnd::NoMemory
    }
}

impl From<AllocError> for GraphEnd {
    ghost use Rattle.std.specs.Prelude.{◌≡◌};
    ghost use Rattle.mm_paths.specs.declared.entry.GraphEnd.TheVariants.{NoMemory};

    ghost from_gives = { λ _ e. e ≡ NoMemory };

    fn from(_error: AllocError) -> GraphEnd {
        GraphEnd::NoMemory
    }
}

impl From<MakeEnd> for GraphEnd {
    ghost use Rattle.std.specs.Prelude.{◌≡◌};
    ghost use Rattle.mm_paths.specs.Ends.{as_graph_end};

    ghost from_gives = { λ m e. e ≡ as_graph_end m };

    fn from(end: MakeEnd) -> GraphEnd {
        match end {
            MakeEnd::Many => GraphEnd::Many,
            MakeEnd::NoMemory => GraphEnd::NoMemory,
        }
    }
}
