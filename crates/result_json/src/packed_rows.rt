//! Sorted rows of ranks in less memory.
//!
//! While rows are sorted, a rank takes 8 bytes, and a row 32 bytes more. Printing needs them until all
//! blocks are printed. So the sorted rows are packed: `Rows` holds a rank in 4 bytes, or in more if
//! one is too large. A piece of them is unpacked when it is printed.
ghost use Rattle.std.specs.Prelude.{◌≡◌, ◌≤◌, ◌-◌, ◌++◌, None, Some, drop, flat_map, get_or, length, map, take, IfOk, OnOk};
ghost use Rattle.result_json.specs.Packed.{fitted, rank_in, ranks_in};
ghost use Rattle.result_json.specs.RankedRows.{ranks_of};

use crate::ranked_row::RankedRow;
use row_core::Rows;
use std::alloc::{AllocError, Global};

/// Replaces the contents of `cells` by the first `width` ranks of a row, each in a bound cell.
fn fill(cells: &mut Vec<Option<u64>>, row: &RankedRow<'_>, width: usize) -> Result<(), AllocError>
    ensures cells { OnOk result (cells.new.items ≡ map Some (fitted width row.now.ranks.now)) }
{
    cells.clear();
    for place in 0..width {
        cells.push(Some(row.rank(place)))?;
    }
    Ok(())
}

/// Packs rows, each with its first `width` ranks. A rank that a row lacks is 0.
///
/// # Errors
/// `AllocError` if an allocation fails.
pub(crate) fn packed(
    alloc: Global,
    rows: &[RankedRow<'_>],
    width: usize,
) -> Result<Rows, AllocError>
    ensures rows { IfOk result (λ made. ranks_in made ≡ map (fitted width) (ranks_of rows.now)) }
{
    let mut made = Rows::new(alloc, width);
    let mut cells = Vec::new(alloc);
    for row in rows {
        fill(&mut cells, row, width)?;
        made.push(cells.as_slice())?;
    }
    Ok(made)
}

/// Returns the rank in a cell, or 0 if it is unbound.
fn rank_in(cell: Option<u64>) -> u64
    ensures value { result ≡ rank_in cell }
{
    match cell {
        Some(rank) => rank,
        None => 0,
    }
}

/// Returns the rank at a place of a packed row, or 0 past its end.
pub(crate) fn rank_at(cells: &[Option<u64>], place: usize) -> u64
    ensures value { result ≡ rank_in (get_or cells.now place None) }
{
    if place < cells.len() {
        rank_in(cells[place])
    } else {
        0
    }
}

/// Appends the ranks of a packed row.
fn put_ranks(ranks: &mut Vec<u64>, cells: &[Option<u64>]) -> Result<(), AllocError>
    ensures ranks { OnOk result (ranks.new.items ≡ ranks.old.items ++ map rank_in cells.now) }
{
    for cell in cells {
        ranks.push(rank_in(*cell))?;
    }
    Ok(())
}

/// Returns the ranks of the packed rows from one place up to another, row after row.
///
/// # Requires
/// `from` is at most `to`, and `to` is at most the number of rows.
///
/// # Errors
/// `AllocError` if an allocation fails.
pub(crate) fn unpacked(
    alloc: Global,
    rows: &Rows,
    from: usize,
    to: usize,
) -> Result<Vec<u64>, AllocError>
    requires places { (from ≤ to) × (to ≤ length rows.now.rows) }
    ensures ranks { IfOk result
        (λ made. made.items ≡ flat_map (map rank_in) (take (to - from) (drop from rows.now.rows))) }
{
    let mut made = Vec::with_capacity(alloc, (to - from).saturating_mul(rows.width()))?;
    let mut cells = Vec::new(alloc);
    for i in from..to {
        rows.read(i, &mut cells)?;
        put_ranks(&mut made, cells.as_slice())?;
    }
    Ok(made)
}
