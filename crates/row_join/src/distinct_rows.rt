//! Distinct (SPARQL 1.1 Query Language, section 18.5).
ghost use Rattle.std.specs.Prelude.{◌≡◌, ◌*◌, IfOk, OnOk, length, nat_eq};
ghost use Rattle.algebra_model.specs.Operators.{distinct};
ghost use Rattle.row_join.specs.RowKeys.{cell_numbers, row_numbers};

use crate::keys::Keys;
use keyed_hash::HashState;
use row_core::Rows;
use std::alloc::{AllocError, Global};
use std::hash::RandomState;

/// Computes Distinct: each row once, at its first place. The input chooses the rows, so the runtime
/// supplies a random hash state.
///
/// # Errors
/// `AllocError` if an allocation fails.
pub fn distinct(alloc: Global, state: RandomState, rows: &Rows) -> Result<Rows, AllocError>
    ensures width { IfOk result (λ made. made.width ≡ rows.now.width) }
    ensures rows { IfOk result (λ made. made.rows ≡ distinct nat_eq rows.now.rows) }
{
    let Some(numbers) = rows.width().checked_mul(2) else {
        return Err(AllocError);
    };
    let mut seen = Keys::new(alloc, HashState::new(state), numbers, rows.len())?;
    let mut made = Rows::new(alloc, rows.width());
    let mut buffer = Vec::new(alloc);
    let mut key = Vec::new(alloc);
    for i in 0..rows.len() {
        rows.read(i, &mut buffer)?;
        let row = buffer.as_slice();
        write_key(row, &mut key)?;
        let place = seen.insert(&key)?;
        if place == made.len() {
            made.push(row)?;
        }
    }
    Ok(made)
}

/// Returns two numbers for a cell: whether it is bound, and its number.
fn cell_numbers(cell: Option<u64>) -> [u64; 2]
    ensures value { result ≡ cell_numbers cell }
{
    match cell {
        Some(number) => [1, number],
        None => [0, 0],
    }
}

/// Replaces the contents of `key` with the numbers of a row's cells.
///
/// # Errors
/// `AllocError` if an allocation fails. The contents of `key` are then unspecified.
fn write_key(row: &[Option<u64>], key: &mut Vec<u64>) -> Result<(), AllocError>
    ensures numbers { OnOk result (key.new.items ≡ row_numbers row.now) }
    ensures wide { OnOk result (length key.new.items ≡ length row.now * 2) }
{
    key.clear();
    for i in 0..row.len() {
        key.extend_from_slice(&cell_numbers(row[i]))?;
    }
    Ok(())
}
