//! Sorts rows of two ranks before rows of any width are sorted.
//!
//! Results of two columns are common. Two ranks below 2^32 fit into one number, and numbers are
//! sorted faster than rows. The contract promises only that the rows are a permutation. The sort of
//! rows that follows determines their order, and finds these already sorted.
ghost use Rattle.std.specs.Prelude.{◌≡◌, ◌≤◌, ◌*◌, ◌∷◌, [], length, map, IfOk, IfSome, IsPermutation, OnErr, OnOk};
ghost use Rattle.row_core.specs.RowList.{rows_in};
ghost use Rattle.result_json.specs.Pairs.{pair_in};

use std::alloc::{AllocError, Global};

/// A rank below this fits into half of a number.
const HALF: u64 = 1 << 32;

/// Returns the number that holds two ranks, the first in its upper half, or None if one is too
/// large.
fn key_of(first: u64, second: u64) -> Option<u64>
    ensures pair { IfSome result (λ key. pair_in key ≡ first ∷ second ∷ []) }
{
    if first < HALF && second < HALF {
        Some(first * HALF + second)
    } else {
        None
    }
}

/// Returns `count` rows of two ranks, each as one number, or None if a rank is too large.
fn pair_keys(alloc: Global, ranks: &[u64], count: usize) -> Result<Option<Vec<u64>>, AllocError>
    requires within { 2 * count ≤ length ranks.now }
    ensures rows { IfOk result
        (λ made. IfSome made (λ keys. map pair_in keys.items ≡ rows_in 2 2 count ranks.now)) }
{
    let mut keys = Vec::with_capacity(alloc, count)?;
    for i in 0..count {
        let Some(key) = key_of(ranks[2 * i], ranks[2 * i + 1]) else {
            return Ok(None);
        };
        keys.push(key)?;
    }
    Ok(Some(keys))
}

/// Replaces each row by the two ranks of its number.
fn put_pairs(ranks: &mut [u64], keys: &[u64])
    requires within { 2 * length keys.now ≤ length ranks.old }
    ensures rows { rows_in 2 2 (length keys.now) ranks.new ≡ map pair_in keys.now }
{
    for i in 0..keys.len() {
        ranks[2 * i] = keys[i] / HALF;
        ranks[2 * i + 1] = keys[i] % HALF;
    }
}

/// Sorts `count` rows of two ranks if every rank is below 2^32. The contract promises only a
/// permutation of the rows. Rows of another width or with larger ranks are unchanged, and so are
/// all rows if `count` exceeds their number.
///
/// # Errors
/// `AllocError` if an allocation fails. The ranks are unchanged.
pub(crate) fn order_pairs(
    alloc: Global,
    ranks: &mut [u64],
    width: usize,
    count: usize,
) -> Result<(), AllocError>
    ensures permutation { OnOk result
        (IsPermutation (rows_in width width count ranks.old) (rows_in width width count ranks.new)) }
    ensures unchanged { OnErr result (ranks.new ≡ ranks.old) }
{
    if width == 2 && count <= ranks.len() / 2 {
        if let Some(mut keys) = pair_keys(alloc, ranks, count)? {
            keys.sort_unstable();
            put_pairs(ranks, &keys);
        }
    }
    Ok(())
}
