//! How a table is packed.

ghost use Rattle.std.specs.Prelude.{◌≡◌, ◌<◌, ◌≤◌, ◌^◌, ◌++◌, [], ◌∷◌, length, IfOk, OnOk, All};
ghost use Rattle.mm_pack.specs.Cells.{product};
ghost use Rattle.mm_pack.specs.Tables.{full_shape, HasCells, KeepsOnce, AreApart, AreInOrder};

use crate::round::{Round, reduce};
use crate::table::Packed;
use mm_base::code::NoMemory;
use std::alloc::{AllocError, Global};

// Notes the axis of a round, and gives its cells.
fn push_round(
    lengths: &mut Vec<u32>,
    slots: &mut Vec<Vec<u32>>,
    round: Round,
) -> Result<Vec<u32>, AllocError>
    ensures lengths { OnOk result (lengths.new.items ≡ lengths.old.items ++ round.kept ∷ []) }
    ensures slots { OnOk result (slots.new.items ≡ slots.old.items ++ round.slots ∷ []) }
    ensures cells { IfOk result (λ v. v ≡ round.cells) }
{
    lengths.push(round.kept)?;
    slots.push(round.slots)?;
    Ok(round.cells)
}

/// The table with these lengths of axes and these cells, the last axis running fastest, of which
/// each axis keeps equal slices once.
pub fn pack(alloc: Global, shape: &[u32], cells: &[u32]) -> Result<Packed, NoMemory>
    requires long { All (λ n. 0 < n) shape.now }
    requires count { product shape.now ≡ length cells.now }
    requires small { length cells.now ≤ 2 ^ 20 }
    ensures shape { IfOk result (λ p. full_shape p.slots ≡ shape.now) }
    ensures cells { IfOk result (λ p. HasCells shape.now cells.now p) }
    ensures once { IfOk result (λ p. KeepsOnce shape.now cells.now p) }
    ensures apart { IfOk result (λ p. AreApart p) }
    ensures order { IfOk result (λ p. AreInOrder p) }
{
    let mut left = cells.to_vec(alloc)?;
    let mut lengths = Vec::new(alloc);
    let mut slots = Vec::new(alloc);
    for places in shape {
        let rows = *places as usize;
        let round = reduce(alloc, left.as_slice(), rows, left.len() / rows)?;
        left = push_round(&mut lengths, &mut slots, round)?;
    }
    Ok(Packed::new(lengths, left, slots))
}
