//! One axis of a table.

ghost use Rattle.std.specs.Prelude.{◌≡◌, ◌+◌, ◌*◌, ◌<◌, ◌≤◌, ◌^◌, ◌++◌, ℕ, List, [], length, get_or, map, IfOk, OnOk, All};
ghost use Rattle.mm_pack.specs.Rounds.{AreNumbered, AreTurned, IsRoundOf};

use indexmap::IndexSet;
use std::alloc::{AllocError, Global};

/// A table whose first axis keeps equal slices once, and comes last.
#[derive(Drop)]
pub struct Round {
    /// How many slices are kept.
    pub kept: u32,
    /// For each place along the axis, its kept slice.
    pub slots: Vec<u32>,
    /// The cells, with the axis running fastest.
    pub cells: Vec<u32>,
}

/// Puts each different row into the set, and numbers the rows by it.
pub fn number_rows<'a>(
    alloc: Global,
    seen: &mut IndexSet<&'a [u32]>,
    cells: &'a [u32],
    rows: usize,
    width: usize,
) -> Result<Vec<u32>, AllocError>
    requires empty { seen.old.keys ≡ [] }
    requires count { length cells.now ≡ rows * width }
    requires few { rows ≤ 2 ^ 20 }
    requires small { length cells.now ≤ 2 ^ 20 }
    ensures numbered { IfOk result (λ v.
        AreNumbered cells.now width rows (map (λ r. r.now) seen.new.keys) v.items) }
    ensures few { OnOk result (length seen.new.keys ≤ rows) }
    ensures wide { OnOk result (All (λ r. length r.now ≡ width) seen.new.keys) }
{
    let mut slots = Vec::new(alloc);
    for i in 0..rows {
        let start = i * width;
        let (slot, _) = seen.insert_full(&cells[start..start + width])?;
        slots.push(slot as u32)?;
    }
    Ok(slots)
}

/// Appends one column of the rows.
pub fn push_column(cells: &mut Vec<u32>, rows: &[&[u32]], column: usize) -> Result<(), AllocError>
    requires wide { All (λ r. column < length r.now) rows.now }
    requires low { column < 2 ^ 20 }
    ensures { OnOk result
        (cells.new.items ≡ cells.old.items ++ map (λ r. get_or r.now column 0) rows.now) }
{
    for row in rows {
        cells.push(row[column])?;
    }
    Ok(())
}

/// The rows, column by column.
pub fn turn(alloc: Global, rows: &[&[u32]], width: usize) -> Result<Vec<u32>, AllocError>
    requires wide { All (λ r. length r.now ≡ width) rows.now }
    requires narrow { width ≤ 2 ^ 20 }
    ensures { IfOk result (λ v. AreTurned (map (λ r. r.now) rows.now) width v.items) }
{
    let mut cells = Vec::new(alloc);
    for column in 0..width {
        push_column(&mut cells, rows, column)?;
    }
    Ok(cells)
}

/// Keeps equal rows once, and turns what is kept.
pub fn reduce(alloc: Global, cells: &[u32], rows: usize, width: usize) -> Result<Round, AllocError>
    requires count { length cells.now ≡ rows * width }
    requires few { rows ≤ 2 ^ 20 }
    requires narrow { width ≤ 2 ^ 20 }
    requires small { length cells.now ≤ 2 ^ 20 }
    ensures { IfOk result (λ r. IsRoundOf cells.now rows width r.kept r.slots.items r.cells.items) }
{
    let mut seen = IndexSet::new(alloc);
    let slots = number_rows(alloc, &mut seen, cells, rows, width)?;
    let cells = turn(alloc, seen.as_slice(), width)?;
    Ok(Round {
        kept: seen.len() as u32,
        slots,
        cells,
    })
}
