//! The choice of the variables that make the join key of two lists of rows.
ghost use Rattle.std.specs.Prelude.{◌≡◌, ◌<◌, ◌∷◌, [], All, IfOk, IfSome};
ghost use Rattle.row_join.specs.Pairing.{binds};

use crate::column::{CloseColumn, Column};
use row_core::Rows;
use std::alloc::{AllocError, Global};

/// The number of pairs that the open rows of a key variable may add, for each row of both sides. A
/// row is open if it leaves the variable unbound. The limit keeps the time linear, and a variable
/// that one row in thousands leaves unbound still is in the key. Sixteen estimates how many pairs
/// are compared in the time that one row takes to enter the table. A pair costs a walk over two
/// short rows; an entry costs a list, a hash and a place in a table.
const PAIRS_A_ROW: usize = 16;

/// The most right rows that have the same number of a variable which is the key alone. Each of them
/// is compared with a left row of that number, which costs less than a hash of several numbers.
const ROWS_A_NUMBER: u8 = 4;

/// Returns whether some row binds the variable.
pub(crate) fn is_ever_bound(rows: &Rows, variable: usize) -> bool
    requires below { variable < rows.now.width }
    ensures value { result ≡ binds rows.now.rows variable }
{
    for i in 0..rows.len() {
        if rows.get(i, variable).is_some() {
            return true;
        }
    }
    false
}

/// Returns the columns of a variable, if some row of each side binds it. If a side does not, only
/// its column is read as a whole.
fn candidate<'l, 'r>(
    left: &'l Rows,
    right: &'r Rows,
    variable: usize,
) -> Option<(Column<'l>, Column<'r>)>
    requires same_width { left.now.width ≡ right.now.width }
    requires below { variable < left.now.width }
    ensures rows { IfSome result (λ columns. columns.1.rows.now ≡ right.now) }
    ensures variable { IfSome result (λ columns. columns.1.variable ≡ variable) }
{
    if !is_ever_bound(left, variable) {
        return None;
    }
    let of_right = Column::read(right, variable);
    if of_right.open_rows() == right.len() {
        return None;
    }
    Some((Column::read(left, variable), of_right))
}

/// Returns the number of pairs that are compared without a key if the variable is in the key. A row
/// that leaves it unbound is compared with all rows of the other side.
fn open_pairs(left: &Column, right: &Column) -> usize {
    let of_left = left.open_rows().saturating_mul(right.len());
    let of_right = right.open_rows().saturating_mul(left.len());
    of_left.saturating_add(of_right)
}

/// Returns the column with slots if the variable can be the key alone: its numbers are close
/// together, so that they need no hash, and few rows have the same number. A byte counts the rows of
/// each number between the least and the greatest.
fn enough<'r>(alloc: Global, column: &Column<'r>) -> Result<Option<CloseColumn<'r>>, AllocError>
    ensures rows { IfOk result (λ found. IfSome found (λ close. close.rows.now ≡ column.now.rows.now)) }
    ensures variable { IfOk result (λ found. IfSome found (λ close. close.variable ≡ column.now.variable)) }
{
    let Some(close) = column.close() else {
        return Ok(None);
    };
    let mut counts = vec![in alloc; 0u8; close.span]?;
    for place in 0..close.len() {
        let slot = close.slot(place);
        if slot < counts.len() {
            if counts[slot] >= ROWS_A_NUMBER {
                return Ok(None);
            }
            counts[slot] += 1;
        }
    }
    Ok(Some(close))
}

/// Returns the variables of the join key, and the column of the right rows if one variable is
/// enough. Candidates are the variables that some row of each side binds. The key has the candidates
/// that add few pairs, or only the first of them that is enough. If none adds few pairs, it has all
/// candidates. It is empty if the sides share no variable.
pub(crate) fn key_of<'r>(
    alloc: Global,
    left: &Rows,
    right: &'r Rows,
) -> Result<(Vec<usize>, Option<CloseColumn<'r>>), AllocError>
    requires same_width { left.now.width ≡ right.now.width }
    ensures below { IfOk result (λ key. All (λ v. v < left.now.width) key.0.items) }
    ensures rows { IfOk result (λ key. IfSome key.1 (λ column. column.rows.now ≡ right.now)) }
    ensures variable { IfOk result (λ key. IfSome key.1 (λ column. key.0.items ≡ column.variable ∷ [])) }
{
    let rows = left.len().saturating_add(right.len());
    let few = rows.saturating_mul(PAIRS_A_ROW);
    let mut closed = Vec::new(alloc);
    let mut shared = Vec::new(alloc);
    for v in 0..left.width() {
        if let Some((of_left, of_right)) = candidate(left, right, v) {
            shared.push(v)?;
            if open_pairs(&of_left, &of_right) <= few {
                if let Some(column) = enough(alloc, &of_right)? {
                    return Ok((vec![in alloc; v]?, Some(column)));
                }
                closed.push(v)?;
            }
        }
    }
    if closed.is_empty() {
        return Ok((shared, None));
    }
    Ok((closed, None))
}
