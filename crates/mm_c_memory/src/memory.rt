// Blocks of cells. A cell begins at an even offset and has 2, 4 or 8 bytes, so a block is held as
// its halves: two bytes each, with the value whose cell begins there. The value stands in the
// half's own variants and not as a `CValue` inside of one, so that a half takes 16 bytes.

ghost use Rattle.std.specs.Prelude.{◌≡◌, ◌↔◌, ℕ, ◌+◌, ◌*◌, ◌/◌, ◌^◌, ◌<◌, ◌≤◌, Bool, true, List, [], ◌∷◌, ◌++◌, length, slice_get, Option, IfOk, OnErr};
ghost use Rattle.std.specs.Option.{option_map};
ghost use Rattle.mm_c.specs.Memory as c;
ghost use Rattle.mm_c.specs.declared.value.CValue.TheVariants.{At};
ghost use Rattle.mm_c_memory.specs.Held.{is_free, cell_in, kind_in, value_in, AreEmpty, WithInside, HoldsBlock, Holds, StoresIn, Stores, size_in};

use mm_c::value::{CCell, CValue};
use std::alloc::{AllocError, Global};

/// Two bytes of a block.
#[derive(Clone, Copy, Debug, PartialEq, Eq)]
pub enum Half {
    /// Nothing was stored in them.
    Empty,
    /// A cell of a kind begins here, with a number.
    Int(CCell, i32),
    Unsigned(CCell, u32),
    Long(CCell, i32),
    /// A cell begins here, with a pointer: null, or an offset in a block.
    Null(CCell),
    At(CCell, u32, usize),
    /// A cell begins before.
    Inside,
}

/// A block: its size in bytes, and its halves.
#[derive(Drop)]
pub struct Block {
    pub size: u32,
    pub halves: Vec<Half>,
}

/// All blocks, by their numbers.
#[derive(Drop)]
pub struct Memory {
    pub blocks: Vec<Block>,
}

/// The bytes of a cell.
#[inline(always)]
pub fn width_of(kind: CCell) -> usize
    ensures { result ≡ c.width_of kind }
{
    match kind {
        CCell::Int => 4,
        CCell::Unsigned => 4,
        CCell::Short => 2,
        CCell::Pointer => 8,
    }
}

/// What a cell holds where nothing was stored.
#[inline(always)]
pub fn zero_of(kind: CCell) -> CValue
    ensures { result ≡ c.zero_of kind }
{
    match kind {
        CCell::Int => CValue::Int(0),
        CCell::Unsigned => CValue::Unsigned(0),
        CCell::Short => CValue::Unsigned(0),
        CCell::Pointer => CValue::Null,
    }
}

#[inline(always)]
fn same_kind(a: CCell, b: CCell) -> bool
    ensures { result ≡ c.same_kind a b }
{
    a == b
}

#[inline(always)]
fn is_empty(half: Half) -> bool
    ensures { result ≡ is_free half }
{
    matches!(half, Half::Empty)
}

// The half in which a cell begins.
#[inline(always)]
fn cell(kind: CCell, value: CValue) -> Half
    ensures { result ≡ cell_in kind value }
{
    match value {
        CValue::Int(number) => Half::Int(kind, number),
        CValue::Unsigned(number) => Half::Unsigned(kind, number),
        CValue::Long(number) => Half::Long(kind, number),
        CValue::Null => Half::Null(kind),
        CValue::At(block, offset) => Half::At(kind, offset, block),
    }
}

// The kind of the cell that begins in a half.
#[inline(always)]
fn kind_in(half: Half) -> Option<CCell>
    ensures { result ≡ kind_in half }
{
    match half {
        Half::Empty => None,
        Half::Int(kind, _) => Some(kind),
        Half::Unsigned(kind, _) => Some(kind),
        Half::Long(kind, _) => Some(kind),
        Half::Null(kind) => Some(kind),
        Half::At(kind, _, _) => Some(kind),
        Half::Inside => None,
    }
}

// The value of the cell that begins in a half.
#[inline(always)]
fn value_in(half: Half) -> Option<CValue>
    ensures { result ≡ value_in half }
{
    match half {
        Half::Empty => None,
        Half::Int(_, number) => Some(CValue::Int(number)),
        Half::Unsigned(_, number) => Some(CValue::Unsigned(number)),
        Half::Long(_, number) => Some(CValue::Long(number)),
        Half::Null(_) => Some(CValue::Null),
        Half::At(_, offset, block) => Some(CValue::At(block, offset)),
        Half::Inside => None,
    }
}

// Whether nothing was stored in these halves.
#[inline]
fn are_empty(halves: &[Half], from: usize, to: usize) -> bool
    requires { to ≤ length halves.now }
    ensures { (result ≡ true) ↔ AreEmpty halves.now from to }
{
    for i in from..to {
        if !is_empty(halves[i]) {
            return false;
        }
    }
    true
}

// The halves behind the first of a cell.
#[inline]
fn put_inside(halves: &mut Vec<Half>, from: usize, to: usize)
    requires order { from ≤ to }
    requires within { to ≤ length halves.old.items }
    ensures { WithInside halves.old.items from to halves.new.items }
{
    for i in from..to {
        halves[i] = Half::Inside;
    }
}

impl Block {
    /// A block of a size, in which nothing was stored.
    fn fresh(alloc: Global, size: u32) -> Result<Block, AllocError>
        ensures { IfOk result (λ block. HoldsBlock (c.fresh size) block) }
    {
        let halves = vec![in alloc; Half::Empty; size as usize / 2]?;
        Ok(Block { size, halves })
    }

    /// Whether a cell of the kind may stand at an offset. This looks at no more than four halves.
    #[inline]
    fn has_room(&self, kind: CCell, offset: usize) -> bool
        requires { offset < 2 ^ 33 }
        ensures within { result ≡ true → offset / 2 + c.width_of kind / 2 ≤ length self.now.halves.items }
        ensures room { (b : c.Block) → HoldsBlock b self.now → result ≡ c.has_room kind offset b }
    {
        let width = width_of(kind);
        let first = offset / 2;
        let end = first + width / 2;
        if offset % width != 0 || end > self.halves.len() {
            return false;
        }
        match kind_in(self.halves[first]) {
            Some(there) => same_kind(there, kind),
            None => are_empty(self.halves.as_slice(), first, end),
        }
    }

    /// What the cell at an offset holds.
    #[inline]
    fn load(&self, kind: CCell, offset: usize) -> Option<CValue>
        requires { offset < 2 ^ 33 }
        ensures { (b : c.Block) → HoldsBlock b self.now → result ≡ c.load_in kind offset (Some b) }
    {
        if !self.has_room(kind, offset) {
            return None;
        }
        match value_in(self.halves[offset / 2]) {
            Some(value) => Some(value),
            None => Some(zero_of(kind)),
        }
    }

    /// Stores a value in the cell at an offset, and says whether a cell of the kind may stand
    /// there.
    #[inline]
    fn store(&mut self, kind: CCell, offset: usize, value: CValue) -> bool
        requires { offset < 2 ^ 33 }
        ensures { (b : c.Block) → HoldsBlock b self.old → StoresIn result b kind offset value self.new }
    {
        if !self.has_room(kind, offset) {
            return false;
        }
        let first = offset / 2;
        self.halves[first] = cell(kind, value);
        put_inside(&mut self.halves, first + 1, first + width_of(kind) / 2);
        true
    }
}

impl Memory {
    /// A memory without blocks.
    pub fn new(alloc: Global) -> Memory
        ensures { Holds [] result }
    {
        Memory {
            blocks: Vec::new(alloc),
        }
    }

    /// A new block, behind all others, and the pointer to its first byte.
    pub fn allocate(&mut self, alloc: Global, size: u32) -> Result<CValue, AllocError>
        ensures { (m : List c.Block) → Holds m self.old → IfOk result (λ p. (p ≡ At (length m) 0) × Holds (m ++ c.fresh size ∷ []) self.new) }
    {
        let number = self.blocks.len();
        let block = Block::fresh(alloc, size)?;
        self.blocks.push(block)?;
        Ok(CValue::At(number, 0))
    }

    /// The size of a block.
    pub fn size_of(&self, number: usize) -> Option<u32>
        ensures { (m : List c.Block) → Holds m self.now → result ≡ size_in (slice_get m number) }
    {
        if number < self.blocks.len() {
            Some(self.blocks[number].size)
        } else {
            None
        }
    }

    /// What a load gives at a pointer and an offset past it, or nothing where it is stuck.
    #[inline]
    pub fn load(&self, kind: CCell, pointer: CValue, offset: u32) -> Option<CValue>
        ensures { (m : List c.Block) → Holds m self.now → result ≡ c.load m kind pointer offset }
    {
        match pointer {
            CValue::At(number, first) => {
                if number < self.blocks.len() {
                    self.blocks[number].load(kind, first as usize + offset as usize)
                } else {
                    None
                }
            }
            _ => None,
        }
    }

    /// Stores a value at a pointer and an offset past it, and says whether that isn't stuck.
    #[inline]
    pub fn store(&mut self, kind: CCell, pointer: CValue, offset: u32, value: CValue) -> bool
        ensures { (m : List c.Block) → Holds m self.old → Stores result (c.store m kind pointer offset value) self.new }
    {
        match pointer {
            CValue::At(number, first) => {
                if number < self.blocks.len() {
                    self.blocks[number].store(kind, first as usize + offset as usize, value)
                } else {
                    false
                }
            }
            _ => false,
        }
    }
}
