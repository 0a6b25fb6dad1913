//! The right side of a join: rows that are indexed once. All pieces of the left side borrow it.
ghost use Rattle.std.specs.Prelude.{◌≡◌, ◌<◌, ◌++◌, ℕ, All, IfOk, None, [], filter, get_or, is_some, length, nat_eq};
ghost use Rattle.algebra_model.specs.Bag.{IsSameBag};
ghost use Rattle.algebra_model.specs.Keys.{may_meet};
ghost use Rattle.row_join.specs.Pairing.{binds, shares_some};
ghost use Rattle.row_join.specs.Places.{IsTableOf, group_of, rows_at};
ghost use Rattle.row_join.specs.Row.{row_of};
ghost use Rattle.row_join.specs.Tried.{places_of};

use crate::key_choice::{is_ever_bound, key_of};
use crate::keyed::Keyed;
use crate::row_ref::RowRef;
use crate::tried::Tried;
use row_core::Rows;
use std::alloc::{AllocError, Global};
use std::hash::RandomState;

/// The rows of the right side, their places by a key, and a row that binds the variables that some
/// row binds.
#[derive(Drop)]
pub(crate) struct RightSide<'r> {
    pub(crate) rows: &'r Rows,
    key: Vec<usize>,
    keyed: Keyed,
    bound: Rows,
    ghost below: { All (λ v. v < rows.now.width) key.items },
    ghost table: { IsTableOf key.items rows.now.rows keyed },
    ghost bound_some: { 0 < length bound.rows },
    ghost bound_wide: { bound.width ≡ rows.now.width },
    ghost covers: { (v : ℕ) → v < rows.now.width
        → is_some (get_or (get_or bound.rows 0 []) v None) ≡ binds rows.now.rows v },
}

/// Returns a list of one row, which binds each variable that some of the rows binds, to 0.
fn bound_by_some(alloc: Global, rows: &Rows) -> Result<Rows, AllocError>
    ensures some { IfOk result (λ bound. 0 < length bound.rows) }
    ensures wide { IfOk result (λ bound. bound.width ≡ rows.now.width) }
    ensures bound { IfOk result (λ bound. (v : ℕ) → v < rows.now.width
        → is_some (get_or (get_or bound.rows 0 []) v None) ≡ binds rows.now.rows v) }
{
    let mut bound = Rows::new(alloc, rows.width());
    let mut row = Vec::new(alloc);
    for v in 0..rows.width() {
        row.push(is_ever_bound(rows, v).then_some(0))?;
    }
    bound.push(&row)?;
    Ok(bound)
}

impl<'r> RightSide<'r> {
    /// Indexes the rows by the values of variables that both sides bind.
    ///
    /// # Errors
    /// `AllocError` if an allocation fails.
    pub(crate) fn build(
        alloc: Global,
        state: RandomState,
        left: &Rows,
        rows: &'r Rows,
    ) -> Result<RightSide<'r>, AllocError>
        requires same_width { left.now.width ≡ rows.now.width }
        ensures rows { IfOk result (λ right. right.rows.now ≡ rows.now) }
    {
        let (key, column) = key_of(alloc, left, rows)?;
        let keyed = match column {
            Some(column) => Keyed::of_column(alloc, &column)?,
            None => Keyed::build(alloc, state, rows, &key)?,
        };
        let bound = bound_by_some(alloc, rows)?;
        Ok(RightSide {
            rows,
            key,
            keyed,
            bound,
        })
    }

    /// Returns whether the left row shares a bound variable with some right row.
    pub(crate) fn shares(&self, row: RowRef<'_>) -> bool
        requires wide { row.rows.now.width ≡ self.now.rows.now.width }
        ensures value { result ≡ shares_some self.now.rows.now.rows (row_of row.entry) }
    {
        let _wide = row.width();
        row.shares(RowRef {
            rows: &self.bound,
            at: 0,
        })
    }

    /// Returns the places of the right rows that are candidates for a left row. If the left row
    /// binds all variables of the key, these are the rows with its numbers and the rows without a
    /// key. Otherwise they are all rows. Each other row is incompatible with the left row.
    ///
    /// # Errors
    /// `AllocError` if an allocation fails.
    pub(crate) fn tried(
        &self,
        row: RowRef<'_>,
        numbers: &mut Vec<u64>,
    ) -> Result<Tried<'_>, AllocError>
        requires wide { row.rows.now.width ≡ self.now.rows.now.width }
        ensures tried { IfOk result (λ tried. IsSameBag (rows_at self.now.rows.now.rows (places_of tried))
            (filter (may_meet nat_eq self.now.key.items (row_of row.entry)) self.now.rows.now.rows)) }
        ensures inside { IfOk result (λ tried. All (λ i. i < length self.now.rows.now.rows) (places_of tried)) }
    {
        if self.key.len() == 1 {
            if let Some(number) = row.get(self.key[0]) {
                return Ok(self.with_numbers(&[number]));
            }
        } else if row.read_key(&self.key, numbers)? {
            return Ok(self.with_numbers(numbers));
        }
        Ok(Tried::All(self.rows.len()))
    }

    /// Returns the places of the rows with these numbers and of the rows without a key.
    fn with_numbers(&self, numbers: &[u64]) -> Tried<'_>
        ensures value { places_of result ≡ group_of self.now.keyed.keyed numbers.now ++ self.now.keyed.apart }
    {
        Tried::Keyed {
            found: self.keyed.find(numbers),
            apart: self.keyed.apart(),
        }
    }
}
