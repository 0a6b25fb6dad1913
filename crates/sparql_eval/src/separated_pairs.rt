//! Pairs of rows that a join by keys leaves out, each tested with a condition to count its errors.
ghost use Rattle.std.specs.Prelude.{◌≡◌, IfOk};
ghost use Rattle.sparql_eval.specs.Numbered.{AreKnownAt, IsKnownCell, IsKnownRow};

use crate::equalities::{Equality, Operand, is_equality};
use crate::keyed_rows::{bind_a_common_variable, key_number};
use crate::pair_counts::{all_pairs, most_compatible};
use crate::read_row::ReadRow;
use dict_core::Dict;
use expression_errors::{Place, count_rows};
use row_core::Rows;
use sparql_algebra::Expr;
use std::alloc::{AllocError, Global};

/// The number of pairs that are tested for each row of both sides, because an equality may be an error
/// over one of their terms.
const PAIRS_A_ROW: usize = 8;

/// The number of such pairs that are tested for any number of rows.
pub(crate) const PAIRS_AT_LEAST: usize = 100_000;

/// The number of pairs that are tested to find one over which the condition has a value. If further joins
/// are before the test, it is the number of rows that they make of the pairs.
pub(crate) const PAIRS_FOR_A_VALUE: usize = 1000;

/// A side of a join.
#[derive(Clone, Copy)]
pub(crate) enum Side {
    Left,
    Right,
}

impl Side {
    /// Returns the other side.
    pub(crate) fn other(self) -> Side {
        match self {
            Side::Left => Side::Right,
            Side::Right => Side::Left,
        }
    }

    /// Returns the operand of this side in an equality.
    pub(crate) fn operand(self, key: Equality) -> Operand {
        match self {
            Side::Left => key.left,
            Side::Right => key.right,
        }
    }

    /// Returns the variable of this side in an equality.
    pub(crate) fn variable(self, key: Equality) -> usize {
        self.operand(key).variable
    }
}

/// The rows of a join by keys, and the condition whose errors are counted.
#[derive(Drop)]
pub(crate) struct Pairs<'a> {
    pub(crate) alloc: Global,
    pub(crate) dict: &'a Dict,
    pub(crate) left: &'a Rows,
    pub(crate) right: &'a Rows,
    pub(crate) keys: &'a [Equality],
    pub(crate) condition: &'a Expr,
    pub(crate) place: Place<'a>,
    pub(crate) ghost same_width: { left.now.width ≡ right.now.width },
    pub(crate) ghost known_left: { AreKnownAt dict.now left.now.rows },
    pub(crate) ghost known_right: { AreKnownAt dict.now right.now.rows },
}

impl<'a> Pairs<'a> {
    /// Counts the pairs with different keys over which the condition is an error.
    pub(crate) fn count(&self) -> Result<(), AllocError> {
        self.find_value()?;
        if !self.may_fail() {
            return Ok(());
        }
        match self.only_key() {
            Some(key) => self.count_by_classes(key),
            None => self.count_one_by_one(),
        }
    }

    /// Returns the key if the condition is its equality, and all pairs of rows are compatible.
    fn only_key(&self) -> Option<Equality> {
        if self.keys.len() == 1
            && is_equality(self.condition)
            && !bind_a_common_variable(self.left, self.right)
        {
            Some(self.keys[0])
        } else {
            None
        }
    }

    /// Notes that nobody looks at the other pairs with different keys, unless the `found` pairs are all. The
    /// filters around this one do not look at them either. The condition of the outermost filter can only
    /// be an error over such a pair if an equality `fails`.
    pub(crate) fn note(&self, around: &[Place<'_>], found: usize, fails: bool) {
        let is_partial = fails || !around.is_empty();
        if self.are_all(found, is_partial) {
            return;
        }
        note_unseen(self.place, is_partial);
        let mut is_partial = fails;
        for place in around {
            note_unseen(*place, is_partial);
            is_partial = true;
        }
    }

    /// Returns whether there are no more compatible pairs than these. If there are many, this is found out
    /// only where it matters.
    fn are_all(&self, found: usize, matters: bool) -> bool {
        let pairs = all_pairs(self.left, self.right);
        if found >= pairs {
            return true;
        }
        if !matters && pairs > PAIRS_AT_LEAST {
            return false;
        }
        match most_compatible(self.alloc, self.left, self.right) {
            Ok(most) => found >= most,
            Err(_) => false,
        }
    }

    /// Returns whether an equality may be an error over some term and terms with other keys.
    pub(crate) fn may_fail(&self) -> bool {
        may_fail(self.dict, self.left, self.keys, Side::Left)
            || may_fail(self.dict, self.right, self.keys, Side::Right)
    }

    /// Tests pairs until the condition was true or false over one of them. After many without a value,
    /// the condition may have one over others.
    fn find_value(&self) -> Result<(), AllocError> {
        let mut seen: usize = 0;
        for row in 0..self.left.len() {
            for other in 0..self.right.len() {
                if self.place.is_valued() {
                    return Ok(());
                }
                if seen >= PAIRS_FOR_A_VALUE {
                    self.place.note_unseen();
                    return Ok(());
                }
                seen = seen.saturating_add(1);
                self.count_if_separated(row, other, 0)?;
            }
        }
        Ok(())
    }

    /// Counts the pairs over which an equality may be an error one by one, up to a limit.
    pub(crate) fn count_one_by_one(&self) -> Result<(), AllocError> {
        let most = self.most_looks();
        let seen = self.count_side(Side::Left, 0, most)?;
        self.count_side(Side::Right, seen, most)?;
        Ok(())
    }

    /// Returns the number of pairs that are looked at one by one.
    pub(crate) fn most_looks(&self) -> usize {
        let rows = self.left.len().saturating_add(self.right.len());
        rows.saturating_mul(PAIRS_A_ROW).max(PAIRS_AT_LEAST)
    }

    /// Counts the pairs over which an equality may be an error by a term of this side. Those with such a
    /// term on the left side are not counted for the right side again. Returns the number of pairs that
    /// were looked at. If there may be more, it is noted.
    fn count_side(&self, side: Side, before: usize, most: usize) -> Result<usize, AllocError> {
        let mut seen = before;
        for row in 0..self.len(side) {
            if self.row_may_fail(side, row) {
                for other in 0..self.len(side.other()) {
                    if seen >= most {
                        self.place.note_partial();
                        return Ok(seen);
                    }
                    seen = seen.saturating_add(1);
                    self.count_at(side, row, other)?;
                }
            }
        }
        Ok(seen)
    }

    /// Counts the pair of a row of this side, over which an equality may be an error, and a row of the
    /// other side. A pair with such a row on both sides is counted for the left one alone.
    fn count_at(&self, side: Side, row: usize, other: usize) -> Result<(), AllocError> {
        match side {
            Side::Left => self.count_if_separated(row, other, 1),
            Side::Right if self.row_may_fail(Side::Left, other) => Ok(()),
            Side::Right => self.count_if_separated(other, row, 1),
        }
    }

    /// Returns whether an equality may be an error over a row of this side.
    pub(crate) fn row_may_fail(&self, side: Side, row: usize) -> bool {
        match side {
            Side::Left => row_may_fail(self.dict, self.left, row, self.keys, side),
            Side::Right => row_may_fail(self.dict, self.right, row, self.keys, side),
        }
    }

    /// Counts so many pairs like this one, if the rows are compatible and have different keys.
    fn count_if_separated(&self, row: usize, other: usize, rows: u64) -> Result<(), AllocError> {
        if self.are_compatible(row, other) && !self.have_equal_keys(row, other) {
            self.count_pair(row, other, rows)
        } else {
            Ok(())
        }
    }

    /// Returns whether two rows bind no variable to different terms.
    fn are_compatible(&self, row: usize, other: usize) -> bool {
        for variable in 0..self.left.width() {
            if let Some(number) = self.cell(Side::Left, row, variable) {
                if let Some(other_number) = self.cell(Side::Right, other, variable) {
                    if number != other_number {
                        return false;
                    }
                }
            }
        }
        true
    }

    /// Returns whether the terms of each key have one key number, or one of them is unbound.
    fn have_equal_keys(&self, row: usize, other: usize) -> bool {
        for key in self.keys {
            if let Some(number) = self.cell(Side::Left, row, key.left.variable) {
                if let Some(other_number) = self.cell(Side::Right, other, key.right.variable) {
                    if key_number(self.dict, number) != key_number(self.dict, other_number) {
                        return false;
                    }
                }
            }
        }
        true
    }

    /// Counts so many pairs like this one, if the condition is an error over them.
    pub(crate) fn count_pair(&self, row: usize, other: usize, rows: u64) -> Result<(), AllocError> {
        let cells = self.merged_cells(row, other)?;
        let merged = ReadRow {
            dict: self.dict,
            row: cells.as_slice(),
        };
        count_rows(self.alloc, self.condition, &merged, rows, self.place)
    }

    /// Returns what two compatible rows bind their variables to.
    fn merged_cells(&self, row: usize, other: usize) -> Result<Vec<Option<u64>>, AllocError>
        ensures known { IfOk result (λ cells. IsKnownRow self.now.dict.now cells.items) }
    {
        let mut cells = Vec::new(self.alloc);
        for variable in 0..self.left.width() {
            cells.push(self.merged_cell(row, other, variable))?;
        }
        Ok(cells)
    }

    /// Returns what two compatible rows bind a variable to.
    fn merged_cell(&self, row: usize, other: usize, variable: usize) -> Option<u64>
        ensures known { IsKnownCell self.now.dict.now result }
    {
        match self.cell(Side::Left, row, variable) {
            Some(number) => Some(number),
            None => self.cell(Side::Right, other, variable),
        }
    }

    /// Returns the number of rows of a side.
    pub(crate) fn len(&self, side: Side) -> usize {
        match side {
            Side::Left => self.left.len(),
            Side::Right => self.right.len(),
        }
    }

    /// Returns what a row of a side binds a variable to.
    pub(crate) fn cell(&self, side: Side, row: usize, variable: usize) -> Option<u64>
        ensures known { IsKnownCell self.now.dict.now result }
    {
        match side {
            Side::Left => cell_of(self.dict, self.left, row, variable),
            Side::Right => cell_of(self.dict, self.right, row, variable),
        }
    }
}

/// Notes that there are rows that nobody looked at, and whether the expression may be an error over them.
fn note_unseen(place: Place<'_>, is_partial: bool) {
    place.note_unseen();
    if is_partial {
        place.note_partial();
    }
}

/// Returns whether an equality may be an error over a term in some row of a side, and a term with another
/// key.
pub(crate) fn may_fail(dict: &Dict, rows: &Rows, keys: &[Equality], side: Side) -> bool
    requires known { AreKnownAt dict.now rows.now.rows }
{
    for row in 0..rows.len() {
        if row_may_fail(dict, rows, row, keys, side) {
            return true;
        }
    }
    false
}

/// Returns whether an equality may be an error over a term in this row of a side, and a term with another
/// key.
fn row_may_fail(dict: &Dict, rows: &Rows, row: usize, keys: &[Equality], side: Side) -> bool
    requires known { AreKnownAt dict.now rows.now.rows }
{
    for key in keys {
        let operand = side.operand(*key);
        if let Some(number) = cell_of(dict, rows, row, operand.variable) {
            if operand.may_fail(dict.term(number)) {
                return true;
            }
        }
    }
    false
}

/// Returns what a row binds a variable to, or None if there is no such row or variable.
fn cell_of(dict: &Dict, rows: &Rows, row: usize, variable: usize) -> Option<u64>
    requires known { AreKnownAt dict.now rows.now.rows }
    ensures known { IsKnownCell dict.now result }
{
    if row < rows.len() && variable < rows.width() {
        rows.get(row, variable)
    } else {
        None
    }
}
