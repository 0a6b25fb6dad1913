//! The order of rows of ranks.
ghost use Rattle.std.specs.Prelude.{◌≡◌, take, IfOk, IsPermutation, IsSorted};
ghost use Rattle.std.specs.Cmp.Lexicographic.{slice_cmp};
ghost use Rattle.std.specs.Ordering.{nat_cmp};
ghost use Rattle.row_core.specs.RowList.{rows_in};
ghost use Rattle.result_json.specs.RankedRows.{ranks_of};

use crate::pieces::following;
use crate::ranked_row::{RankedRow, ranked_row};
use std::alloc::{AllocError, Global};

/// Returns the first row of a width.
fn first_row(ranks: &[u64], width: usize) -> &[u64]
    ensures value { result.now ≡ take width ranks.now }
{
    &ranks[..ranks.len().min(width)]
}

/// Splits a list of ranks into `count` consecutive rows of a width.
///
/// # Errors
/// `AllocError` if an allocation fails.
pub(crate) fn split_rows(
    alloc: Global,
    ranks: &[u64],
    width: usize,
    count: usize,
) -> Result<Vec<RankedRow<'_>>, AllocError>
    ensures rows { IfOk result
        (λ made. ranks_of made.items ≡ rows_in width width count ranks.now) }
{
    let mut made = Vec::with_capacity(alloc, count)?;
    let mut rest = ranks;
    for _turn in 0..count {
        made.push(ranked_row(first_row(rest, width)))?;
        rest = following(rest, width);
    }
    Ok(made)
}

/// Returns the rows in the order of their ranks, cell by cell.
///
/// # Errors
/// `AllocError` if an allocation fails.
pub(crate) fn sorted_rows(
    alloc: Global,
    ranks: &[u64],
    width: usize,
    count: usize,
) -> Result<Vec<RankedRow<'_>>, AllocError>
    ensures permutation { IfOk result
        (λ rows. IsPermutation (rows_in width width count ranks.now) (ranks_of rows.items)) }
    ensures sorted { IfOk result (λ rows. IsSorted (slice_cmp nat_cmp) (ranks_of rows.items)) }
{
    let mut rows = split_rows(alloc, ranks, width, count)?;
    rows.sort_unstable();
    Ok(rows)
}
