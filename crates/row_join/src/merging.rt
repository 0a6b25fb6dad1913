//! The merges of a left row with the right side.
ghost use Rattle.std.specs.Prelude.{◌≡◌, ◌++◌, ◌-◌, ◌<◌, ◌&&◌, [], true, filter, get_or, All, OnOk, IfOk, length, nat_eq};
ghost use Rattle.algebra_model.specs.Bag.{IsSameBag};
ghost use Rattle.algebra_model.specs.Operators.{merges};
ghost use Rattle.algebra_model.specs.Solution.{is_compatible, merge};
ghost use Rattle.algebra_model.specs.Solve.{alone};
ghost use Rattle.row_join.specs.Numbers.{passes, all_pass};
ghost use Rattle.row_join.specs.Pairing.{row_if};
ghost use Rattle.row_join.specs.Row.{row_of};

use crate::left_joins::RowTest;
use crate::left_rows::Buffers;
use crate::right_side::RightSide;
use crate::row_ref::RowRef;
use row_core::Rows;
use std::alloc::{AllocError, Global};

/// Adds the merges of a left row with the right side for which the condition is true. Returns
/// whether there are none.
pub(crate) fn add_merges<T: RowTest>(
    alloc: Global,
    test: &T,
    row: RowRef<'_>,
    right: &RightSide,
    buffers: &mut Buffers,
    made: &mut Rows,
) -> Result<bool, AllocError>
    requires row_wide { row.rows.now.width ≡ right.now.rows.now.width }
    requires made_wide { made.old.width ≡ right.now.rows.now.width }
    requires row_known { passes (T.knows test.now) (row_of row) ≡ true }
    requires right_known { all_pass (T.knows test.now) right.now.rows.now.rows ≡ true }
    ensures rows { OnOk result (IsSameBag made.new.rows (made.old.rows
        ++ filter (T.keeps test.now) (merges nat_eq (row_of row.entry) right.now.rows.now.rows))) }
    ensures alone { IfOk result (λ answer. answer
        ≡ alone nat_eq (T.keeps test.now) right.now.rows.now.rows (row_of row.entry)) }
    ensures width { OnOk result (made.new.width ≡ made.old.width) }
{
    let tried = right.tried(row, &mut buffers.numbers)?;
    let mut alone = true;
    for i in 0..tried.len() {
        let other = RowRef {
            rows: right.rows,
            at: tried.place(i),
        };
        if add_merge(alloc, test, row, other, &mut buffers.merged, made)? {
            alone = false;
        }
    }
    Ok(alone)
}

/// Adds the merge of two rows if they are compatible and the condition is true of the merge.
/// Returns whether the merge was added.
fn add_merge<T: RowTest>(
    alloc: Global,
    test: &T,
    row: RowRef<'_>,
    other: RowRef<'_>,
    merged: &mut Vec<Option<u64>>,
    made: &mut Rows,
) -> Result<bool, AllocError>
    requires row_wide { row.rows.now.width ≡ made.old.width }
    requires other_wide { other.rows.now.width ≡ made.old.width }
    requires row_known { passes (T.knows test.now) (row_of row) ≡ true }
    requires other_known { passes (T.knows test.now) (row_of other) ≡ true }
    ensures rows { IfOk result (λ added. made.new.rows
        ≡ made.old.rows ++ row_if added (merge (row_of row.entry) (row_of other.entry))) }
    ensures added { IfOk result (λ added. added ≡ (is_compatible nat_eq (row_of row.entry) (row_of other.entry)
        && T.keeps test.now (merge (row_of row.entry) (row_of other.entry)))) }
    ensures width { OnOk result (made.new.width ≡ made.old.width) }
{
    let compatible = made.push_merge(row.rows, row.at, other.rows, other.at)?;
    if !compatible {
        return Ok(false);
    }
    let kept = keeps_last(alloc, test, made, merged)?;
    if !kept {
        made.pop();
    }
    Ok(kept)
}

/// Returns whether the condition is true of the last row. A condition that is true of every row is
/// not tested.
fn keeps_last<T: RowTest>(
    alloc: Global,
    test: &T,
    made: &Rows,
    last: &mut Vec<Option<u64>>,
) -> Result<bool, AllocError>
    requires some { 0 < length made.now.rows }
    requires known { passes (T.knows test.now) (get_or made.now.rows (length made.now.rows - 1) []) ≡ true }
    ensures value { IfOk result (λ kept. kept
        ≡ T.keeps test.now (get_or made.now.rows (length made.now.rows - 1) [])) }
{
    if test.is_certain() {
        return Ok(true);
    }
    made.read(made.len() - 1, last)?;
    test.keeps(alloc, last.as_slice())
}
