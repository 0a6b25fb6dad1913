//! The graphs that a join needs of GRAPH with a variable: those that the rows of its other side name.
ghost use Rattle.std.specs.Prelude.{◌≡◌, ℕ, filter, nat_eq, IfOk, MatchOption};
ghost use Rattle.std.specs.List.{list_any};
ghost use Rattle.std.specs.List.Sorted.{IsStrictlyIncreasing};
ghost use Rattle.sparql_eval.specs.Possible.{AreNumbersAt, ArePossible};

use row_core::Rows;
use std::alloc::{AllocError, Global};

/// Returns the graphs that some row binds the variable to, or None if a row leaves it unbound.
pub(crate) fn possible_graphs(
    alloc: Global,
    rows: &Rows,
    variable: usize,
    graphs: &[u64],
) -> Result<Option<Vec<u64>>, AllocError>
    ensures possible { IfOk result (λ found. MatchOption found (Unit {0})
        (λ v. ArePossible rows.now.rows variable graphs.now v.items)) }
{
    let Some(numbers) = numbers_at(alloc, rows, variable)? else {
        return Ok(None);
    };
    let numbers = ascending(numbers);
    let found = graphs_among(alloc, numbers.as_slice(), graphs)?;
    Ok(Some(found))
}

/// Returns the number that each row binds the variable to, or None if a row leaves it unbound.
pub(crate) fn numbers_at(
    alloc: Global,
    rows: &Rows,
    variable: usize,
) -> Result<Option<Vec<u64>>, AllocError>
    ensures numbers { IfOk result (λ found. MatchOption found (Unit {0})
        (λ v. AreNumbersAt rows.now.rows variable v.items)) }
{
    if variable >= rows.width() {
        return Ok(None);
    }
    let mut numbers = Vec::new(alloc);
    for i in 0..rows.len() {
        let Some(number) = rows.get(i, variable) else {
            return Ok(None);
        };
        numbers.push(number)?;
    }
    Ok(Some(numbers))
}

/// Returns the numbers in ascending order, each once.
fn ascending(numbers: Vec<u64>) -> Vec<u64>
    ensures rising { IsStrictlyIncreasing result.items }
    ensures same { (n : ℕ) → list_any (λ x. nat_eq x n) result.items
        ≡ list_any (λ x. nat_eq x n) numbers.items }
{
    let mut numbers = numbers;
    numbers.sort_unstable();
    numbers.dedup();
    numbers
}

/// Returns the graphs that are among the numbers.
fn graphs_among(alloc: Global, numbers: &[u64], graphs: &[u64]) -> Result<Vec<u64>, AllocError>
    requires rising { IsStrictlyIncreasing numbers.now }
    ensures found { IfOk result (λ found. found.items
        ≡ filter (λ g. list_any (λ x. nat_eq x g) numbers.now) graphs.now) }
{
    let mut found = Vec::new(alloc);
    for i in 0..graphs.len() {
        if numbers.binary_search(&graphs[i]).is_ok() {
            found.push(graphs[i])?;
        }
    }
    Ok(found)
}
