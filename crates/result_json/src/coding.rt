//! The cells of rows as numbers in one buffer.
ghost use Rattle.std.specs.Prelude.{◌≡◌, ◌++◌, flat_map, get_or, length, IfOk, None, OnOk};
ghost use Rattle.result_json.specs.Ranks.{code_of, codes_of};

use dict_core::Dict;
use row_core::Rows;
use std::alloc::{AllocError, Global};

/// Returns the number of a variable in a row, or None if the row has no such place.
fn number_at(row: &[Option<u64>], variable: usize) -> Option<u64>
    ensures value { result ≡ get_or row.now variable None }
{
    if variable < row.len() {
        row[variable]
    } else {
        None
    }
}

/// Returns the code of a cell over `count` terms. The code of an unbound cell is `count`.
fn code(cell: Option<u64>, count: u64) -> u64
    ensures value { result ≡ code_of count cell }
{
    match cell {
        Some(n) => n,
        None => count,
    }
}

/// Appends the codes of the listed variables in a row.
fn put_codes(
    codes: &mut Vec<u64>,
    listed: &[usize],
    row: &[Option<u64>],
    count: u64,
) -> Result<(), AllocError>
    ensures codes { OnOk result
        (codes.new.items ≡ codes.old.items ++ codes_of count listed.now row.now) }
{
    for variable in listed {
        codes.push(code(number_at(row, *variable), count))?;
    }
    Ok(())
}

/// Returns the codes of the listed variables, row after row. A code is the number of the variable's
/// term, or the length of the dictionary if the row leaves the variable unbound.
///
/// # Errors
/// `AllocError` if an allocation fails.
pub(crate) fn listed_codes(
    alloc: Global,
    listed: &[usize],
    rows: &Rows,
    dict: &Dict,
) -> Result<Vec<u64>, AllocError>
    ensures codes { IfOk result
        (λ made. made.items ≡ flat_map (codes_of (length dict.now) listed.now) rows.now.rows) }
{
    let count = dict.len() as u64;
    let mut codes = Vec::with_capacity(alloc, rows.len().saturating_mul(listed.len()))?;
    let mut buffer = Vec::new(alloc);
    for i in 0..rows.len() {
        rows.read(i, &mut buffer)?;
        let row = buffer.as_slice();
        put_codes(&mut codes, listed, row, count)?;
    }
    Ok(codes)
}
