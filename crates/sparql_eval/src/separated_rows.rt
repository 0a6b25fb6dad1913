//! Pairs of rows that a join by keys leaves out, added to the rows of the join. So a condition that is
//! tested after further joins is tested on them, too.
//!
//! The terms of such a pair have different keys, so the condition is not true of it: the result is the same.
ghost use Rattle.std.specs.Prelude.{◌≡◌, ◌<◌, false, true, nat_eq, option_map, length, OnOk};
ghost use Rattle.std.specs.Bool.{OnTrue};
ghost use Rattle.algebra_model.specs.Renaming.{read_row};
ghost use Rattle.algebra_model.specs.Solution.{agree, is_compatible, merge};
ghost use Rattle.dict_core.specs.Dict.{term_at};
ghost use Rattle.sparql_eval.specs.Fitting.{AreStillEvaluated, fits};
ghost use Rattle.sparql_eval.specs.KeyedRows.{key_number};
ghost use Rattle.sparql_eval.specs.Numbered.{AreKnownAt, IsKnownAt, IsKnownCell};

use crate::equalities::Equality;
use crate::keyed_rows::key_cell;
use crate::read_row::number_at;
use crate::separated_pairs::{Pairs, Side};
use dict_core::Dict;
use row_core::{Rows, is_compatible, merge_into};
use std::alloc::AllocError;

/// Lists that are reused for each pair of rows, so that a pair needs no allocations for them.
#[derive(Drop)]
struct Buffers {
    row: Vec<Option<u64>>,
    other: Vec<Option<u64>>,
    merged: Vec<Option<u64>>,
}

/// How many pairs are added.
#[derive(Drop)]
struct Limits {
    /// The most rows that there may be.
    rows: usize,
    /// How many pairs may still be looked at.
    looks: usize,
}

impl<'a> Pairs<'a> {
    /// Adds to the rows of the join the pairs with different keys over which an equality may be an error.
    /// There are at most `most` rows then. Returns whether all such pairs were added.
    ///
    /// # Errors
    /// `AllocError` if an allocation fails. Some of the pairs may have been added.
    pub(crate) fn add_to(&self, made: &mut Rows, most: usize) -> Result<bool, AllocError>
        requires wide { made.old.width ≡ self.now.left.now.width }
        ensures evaluated { AreStillEvaluated self.now.dict.now self.now.keys.now made.old made.new }
    {
        let mut limits = Limits {
            rows: most,
            looks: self.most_looks(),
        };
        let mut buffers = Buffers {
            row: Vec::new(self.alloc),
            other: Vec::new(self.alloc),
            merged: Vec::new(self.alloc),
        };
        if self.add_side(Side::Left, &mut limits, &mut buffers, made)? {
            self.add_side(Side::Right, &mut limits, &mut buffers, made)
        } else {
            Ok(false)
        }
    }

    /// Adds the pairs over which an equality may be an error by a term of this side. Those with such a term
    /// on the left side are not added for the right side again. Returns whether all of them were added.
    ///
    /// If there is not room for all, each row with such a term gets some.
    fn add_side(
        &self,
        side: Side,
        limits: &mut Limits,
        buffers: &mut Buffers,
        made: &mut Rows,
    ) -> Result<bool, AllocError>
        requires wide { made.old.width ≡ self.now.left.now.width }
        ensures evaluated { AreStillEvaluated self.now.dict.now self.now.keys.now made.old made.new }
        ensures width { made.new.width ≡ made.old.width }
    {
        let failing = self.failing_rows(side)?;
        let failing = failing.as_slice();
        for step in 0..self.len(side.other()) {
            if !self.add_step(side, failing, step, limits, buffers, made)? {
                return Ok(false);
            }
        }
        Ok(true)
    }

    /// Returns the places of the rows of a side by which an equality may be an error.
    fn failing_rows(&self, side: Side) -> Result<Vec<usize>, AllocError> {
        let mut failing = Vec::new(self.alloc);
        for row in 0..self.len(side) {
            if self.row_may_fail(side, row) {
                failing.push(row)?;
            }
        }
        Ok(failing)
    }

    /// Adds, for each of these rows, its pair with the row of the other side that follows this many steps
    /// after it. Returns false if there is no room.
    fn add_step(
        &self,
        side: Side,
        failing: &[usize],
        step: usize,
        limits: &mut Limits,
        buffers: &mut Buffers,
        made: &mut Rows,
    ) -> Result<bool, AllocError>
        requires wide { made.old.width ≡ self.now.left.now.width }
        ensures evaluated { AreStillEvaluated self.now.dict.now self.now.keys.now made.old made.new }
        ensures width { made.new.width ≡ made.old.width }
    {
        let others = self.len(side.other()).max(1);
        for row in failing {
            if limits.looks == 0 || made.len() >= limits.rows {
                return Ok(false);
            }
            limits.looks -= 1;
            let other = row.wrapping_add(step) % others;
            self.add_at(side, *row, other, buffers, made)?;
        }
        Ok(true)
    }

    /// Adds the pair of a row of this side, over which an equality may be an error, and a row of the
    /// other side. A pair with such a row on both sides is added for the left one alone.
    fn add_at(
        &self,
        side: Side,
        row: usize,
        other: usize,
        buffers: &mut Buffers,
        made: &mut Rows,
    ) -> Result<(), AllocError>
        requires wide { made.old.width ≡ self.now.left.now.width }
        ensures evaluated { AreStillEvaluated self.now.dict.now self.now.keys.now made.old made.new }
        ensures width { made.new.width ≡ made.old.width }
    {
        match side {
            Side::Left => self.add_pair(row, other, buffers, made),
            Side::Right if self.row_may_fail(Side::Left, other) => Ok(()),
            Side::Right => self.add_pair(other, row, buffers, made),
        }
    }

    /// Adds the merge of a left row and a right row, if they are compatible and have different keys.
    fn add_pair(
        &self,
        row: usize,
        other: usize,
        buffers: &mut Buffers,
        made: &mut Rows,
    ) -> Result<(), AllocError>
        requires wide { made.old.width ≡ self.now.left.now.width }
        ensures evaluated { AreStillEvaluated self.now.dict.now self.now.keys.now made.old made.new }
        ensures width { made.new.width ≡ made.old.width }
    {
        if row >= self.left.len() || other >= self.right.len() {
            return Ok(());
        }
        read_known(self.dict, self.left, row, &mut buffers.row)?;
        read_known(self.dict, self.right, other, &mut buffers.other)?;
        let one = buffers.row.as_slice();
        let another = buffers.other.as_slice();
        add_merge(
            self.dict,
            self.keys,
            one,
            another,
            &mut buffers.merged,
            made,
        )
    }
}

/// Replaces the contents of `cells` with a row.
fn read_known(
    _dict: &Dict,
    rows: &Rows,
    row: usize,
    cells: &mut Vec<Option<u64>>,
) -> Result<(), AllocError>
    requires known { AreKnownAt _dict.now rows.now.rows }
    requires inside { row < length rows.now.rows }
    ensures known { OnOk result (IsKnownAt _dict.now cells.new.items) }
    ensures wide { OnOk result (length cells.new.items ≡ rows.now.width) }
{
    rows.read(row, cells)
}

/// Adds the merge of two rows, if they are compatible and have different keys.
fn add_merge(
    dict: &Dict,
    keys: &[Equality],
    row: &[Option<u64>],
    other: &[Option<u64>],
    merged: &mut Vec<Option<u64>>,
    made: &mut Rows,
) -> Result<(), AllocError>
    requires known_row { IsKnownAt dict.now row.now }
    requires known_other { IsKnownAt dict.now other.now }
    requires same_width { length row.now ≡ length other.now }
    requires wide { made.old.width ≡ length row.now }
    ensures evaluated { AreStillEvaluated dict.now keys.now made.old made.new }
    ensures width { made.new.width ≡ made.old.width }
{
    if are_separated(dict, keys, row, other) {
        merge_into(merged, row, other)?;
        let cells = merged.as_slice();
        return made.push(cells);
    }
    Ok(())
}

/// Returns whether two rows are compatible and have different keys. If so, their merge does not fit.
fn are_separated(dict: &Dict, keys: &[Equality], row: &[Option<u64>], other: &[Option<u64>]) -> bool
    requires known_row { IsKnownAt dict.now row.now }
    requires known_other { IsKnownAt dict.now other.now }
    requires same_width { length row.now ≡ length other.now }
    ensures unfit { OnTrue result
        (fits keys.now (read_row (term_at dict.now) (merge row.now other.now)) ≡ false) }
{
    is_compatible(row, other) && have_different_keys(dict, keys, row, other)
}

/// Returns whether the terms of some key have different key numbers.
fn have_different_keys(
    dict: &Dict,
    keys: &[Equality],
    row: &[Option<u64>],
    other: &[Option<u64>],
) -> bool
    requires known_row { IsKnownAt dict.now row.now }
    requires known_other { IsKnownAt dict.now other.now }
    ensures unfit { OnTrue result (is_compatible nat_eq row.now other.now ≡ true
        → fits keys.now (read_row (term_at dict.now) (merge row.now other.now)) ≡ false) }
{
    let _distinct = dict.len();
    for i in 0..keys.len() {
        let key = keys[i];
        let one = number_at(row, key.left.variable);
        let another = number_at(other, key.right.variable);
        if are_apart(dict, one, another) {
            return true;
        }
    }
    false
}

/// Returns whether both cells are bound to terms with different key numbers.
fn are_apart(dict: &Dict, one: Option<u64>, other: Option<u64>) -> bool
    requires known_one { IsKnownCell dict.now one }
    requires known_other { IsKnownCell dict.now other }
    ensures apart { OnTrue result (agree nat_eq (option_map (key_number dict.now) one)
        (option_map (key_number dict.now) other) ≡ false) }
{
    match key_cell(dict, one) {
        Some(number) => match key_cell(dict, other) {
            Some(other_number) => number != other_number,
            None => false,
        },
        None => false,
    }
}
