//! A packed table and the questions to it.

ghost use Rattle.std.specs.Prelude.{◌≡◌, ◌<◌, ◌≤◌, ◌^◌, ℕ, List, [], length, get_or};
ghost use Rattle.mm_pack.specs.Cells.{IsPlace, product};
ghost use Rattle.mm_pack.specs.Tables.{full_shape, kept_at, slot_of};
ghost use Rattle.mm_pack.specs.Inside.{lists_in, table_in, IsTableIn};

use std::marker::Model;

/// A table of which each axis keeps equal slices once.
#[derive(Drop)]
pub struct Packed {
    shape: Vec<u32>,
    cells: Vec<u32>,
    slots: Vec<Vec<u32>>,
}

impl Model for Packed {
    ghost use Rattle.mm_pack.specs.Tables.{Table};

    ghost Value = { Table };

    ghost use Rattle.mm_pack.specs.Inside.{table_in, IsTableIn};

    ghost view = { λ p. table_in p.shape.items p.cells.items p.slots.items };

    ghost invariant = { λ p. IsTableIn p.shape.items p.cells.items p.slots.items };
}

// The number that an axis gives to a place.
fn slot_in(slots: &[Vec<u32>], axis: usize, place: usize) -> u32
    requires axis { axis < length slots.now }
    requires place { place < length (get_or (lists_in slots.now) axis []) }
    ensures { result ≡ slot_of (lists_in slots.now) axis place }
{
    let numbers = &slots[axis];
    numbers[place]
}

impl Packed {
    /// The table of these parts.
    pub fn new(shape: Vec<u32>, cells: Vec<u32>, slots: Vec<Vec<u32>>) -> Packed
        requires { IsTableIn shape.items cells.items slots.items }
        ensures { result ≡ table_in shape.items cells.items slots.items }
    {
        Packed {
            shape,
            cells,
            slots,
        }
    }

    /// The full table's cell at a place.
    pub fn at(&self, place: &[u32]) -> u32
        requires { IsPlace (full_shape self.now.slots) place.now }
        ensures { result ≡ kept_at self.now place.now }
    {
        let mut index = 0;
        let mut axis = 0;
        while axis < place.len() {
            let slot = slot_in(self.slots.as_slice(), axis, place[axis] as usize);
            index = index * self.shape[axis] as usize + slot as usize;
            axis += 1;
        }
        self.cells[index]
    }

    /// How many slices are kept of each axis.
    pub fn shape(&self) -> &[u32]
        ensures shape { result.now ≡ self.now.shape }
        ensures axes { length self.now.slots ≡ length result.now }
        ensures count { product result.now ≡ length self.now.cells }
    {
        self.shape.as_slice()
    }

    /// The kept cells, the last axis running fastest.
    pub fn kept(&self) -> &[u32]
        ensures cells { result.now ≡ self.now.cells }
        ensures few { length result.now ≤ 2 ^ 20 }
    {
        self.cells.as_slice()
    }

    /// The kept slice of a place along an axis.
    pub fn slot(&self, axis: u32, place: u32) -> u32
        requires axis { axis < length self.now.shape }
        requires place { place < get_or (full_shape self.now.slots) axis 0 }
        ensures slot { result ≡ slot_of self.now.slots axis place }
        ensures low { result < get_or self.now.shape axis 0 }
    {
        slot_in(self.slots.as_slice(), axis as usize, place as usize)
    }
}
