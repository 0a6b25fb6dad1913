//! Operations on two rows: compatibility and the merge.
ghost use Rattle.std.specs.Prelude.{◌≡◌, nat_eq, length, OnOk, OnErr, ◌++◌, ◌∷◌, []};
ghost use Rattle.algebra_model.specs.Solution.{agree, bound_or, is_compatible, merge};

use crate::rows::Rows;
use std::alloc::{AllocError, Global};

/// Returns whether two cells are equal or at least one of them is unbound.
fn agrees(x: Option<u64>, y: Option<u64>) -> bool
    ensures value { result ≡ agree nat_eq x y }
{
    match (x, y) {
        (Some(x), Some(y)) => x == y,
        _ => true,
    }
}

/// Returns the first cell if it is bound, and the second one otherwise.
fn first_bound(x: Option<u64>, y: Option<u64>) -> Option<u64>
    ensures value { result ≡ bound_or x y }
{
    match x {
        Some(_) => x,
        None => y,
    }
}

/// Returns whether two rows agree on every variable that both bind (SPARQL 1.1 Query Language,
/// section 18.3, compatible mappings).
///
/// # Requires
/// Both rows have the same width.
pub fn is_compatible(a: &[Option<u64>], b: &[Option<u64>]) -> bool
    requires same_width { length a.now ≡ length b.now }
    ensures value { result ≡ is_compatible nat_eq a.now b.now }
{
    for i in 0..a.len() {
        if !agrees(a[i], b[i]) {
            return false;
        }
    }
    true
}

/// Replaces the contents of `row` with the merge of two rows (their union, SPARQL 1.1 Query
/// Language, section 18.3).
///
/// # Requires
/// Both rows have the same width.
///
/// # Errors
/// `AllocError` if an allocation fails. The contents of `row` are then unspecified.
pub fn merge_into(
    row: &mut Vec<Option<u64>>,
    a: &[Option<u64>],
    b: &[Option<u64>],
) -> Result<(), AllocError>
    requires same_width { length a.now ≡ length b.now }
    ensures merged { OnOk result (row.new.items ≡ merge a.now b.now) }
    ensures wide { OnOk result (length row.new.items ≡ length a.now) }
{
    row.clear();
    for i in 0..a.len() {
        row.push(first_bound(a[i], b[i]))?;
    }
    Ok(())
}
