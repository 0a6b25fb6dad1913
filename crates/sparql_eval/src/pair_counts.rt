//! How many pairs of rows there are to join.
use crate::possible_graphs::numbers_at;
use row_core::Rows;
use std::alloc::{AllocError, Global};

/// Returns the number of all pairs of rows.
pub(crate) fn all_pairs(left: &Rows, right: &Rows) -> usize {
    left.len().saturating_mul(right.len())
}

/// Returns a number of pairs that the compatible ones do not exceed. It is exact if one variable is
/// bound in all rows of both sides, and no other one on both sides.
///
/// # Errors
/// `AllocError` if an allocation fails.
pub(crate) fn most_compatible(
    alloc: Global,
    left: &Rows,
    right: &Rows,
) -> Result<usize, AllocError> {
    let mut most = all_pairs(left, right);
    for variable in 0..left.width() {
        if let Some(pairs) = pairs_at(alloc, left, right, variable)? {
            most = most.min(pairs);
        }
    }
    Ok(most)
}

/// Returns whether some variable may be bound in all rows of both sides. If none is, `most_compatible` is the
/// number of all pairs.
pub(crate) fn may_share(left: &Rows, right: &Rows) -> bool {
    for variable in 0..left.width() {
        if is_first_bound(left, variable) && is_first_bound(right, variable) {
            return true;
        }
    }
    false
}

/// Returns whether the first row binds the variable.
fn is_first_bound(rows: &Rows, variable: usize) -> bool {
    rows.len() > 0 && variable < rows.width() && rows.get(0, variable).is_some()
}

/// Returns the number of pairs that bind a variable to the same term, or None if a row leaves it unbound. The
/// first rows are looked at first, since sorting takes long.
fn pairs_at(
    alloc: Global,
    left: &Rows,
    right: &Rows,
    variable: usize,
) -> Result<Option<usize>, AllocError> {
    if !is_first_bound(left, variable) || !is_first_bound(right, variable) {
        return Ok(None);
    }
    let Some(numbers) = numbers_at(alloc, left, variable)? else {
        return Ok(None);
    };
    let Some(others) = numbers_at(alloc, right, variable)? else {
        return Ok(None);
    };
    let numbers = sorted(numbers);
    let others = sorted(others);
    let pairs = equal_pairs(numbers.as_slice(), others.as_slice());
    Ok(Some(pairs as usize))
}

/// Returns the numbers in ascending order.
fn sorted(numbers: Vec<u64>) -> Vec<u64> {
    let mut numbers = numbers;
    numbers.sort_unstable();
    numbers
}

/// Returns the number of pairs of equal numbers. Both lists are sorted.
pub(crate) fn equal_pairs(numbers: &[u64], others: &[u64]) -> u64 {
    let mut pairs: u64 = 0;
    let mut low: usize = 0;
    let mut high: usize = 0;
    for number in numbers {
        low = first_from(others, low, *number);
        high = match number.checked_add(1) {
            Some(next) => first_from(others, high, next),
            None => others.len(),
        };
        pairs = pairs.saturating_add(high.saturating_sub(low) as u64);
    }
    pairs
}

/// Returns the first place, from the given one on, of a number that is not below the given one.
fn first_from(numbers: &[u64], from: usize, least: u64) -> usize {
    for at in from..numbers.len() {
        if numbers[at] >= least {
            return at;
        }
    }
    numbers.len()
}
