//! An index of rows by the numbers that they bind some variables to.
ghost use Rattle.std.specs.Prelude.{◌≡◌, ◌<◌, ◌∷◌, [], IfOk, All};
ghost use Rattle.row_join.specs.Places.{IsTableOf, group_of};

use crate::column::{CloseColumn, Column};
use crate::hashed_places::HashedPlaces;
use crate::numbered_places::NumberedPlaces;
use keyed_hash::HashState;
use row_core::Rows;
use std::alloc::{AllocError, Global};
use std::hash::RandomState;
use std::marker::Model;

/// The two forms of the index.
pub(crate) enum TableForm {
    /// For a key of one variable whose numbers are close together.
    Numbered(NumberedPlaces),
    /// For any other key.
    Hashed(HashedPlaces),
}

impl Drop for TableForm {
    /// Drops the table. Written by hand (docs/PROOF.md).
    fn drop(self) {
        match self {
            TableForm::Numbered(_) => {}
            TableForm::Hashed(_) => {}
        }
    }
}

/// The places of rows by a key, which is a list of variables. A row that binds all of them is in
/// the group of its numbers. The places of the other rows are in a list of their own.
///
/// An unbound variable is never compared as if it were a number. If the key is one variable whose
/// numbers are close together, a group is found by its number. Otherwise the groups are in a hash
/// table.
#[derive(Drop)]
pub struct Keyed {
    table: TableForm,
}

impl Model for Keyed {
    ghost use Rattle.row_join.specs.Places.{PlaceTable};

    ghost Value = { PlaceTable };

    ghost use Rattle.row_join.specs.TableForms.{table_of};

    ghost view = { λ k. table_of k.table };
}

impl Keyed {
    /// Builds the index of the rows of a column, whose variable is the key.
    ///
    /// # Errors
    /// `AllocError` if an allocation fails.
    pub(crate) fn of_column(alloc: Global, column: &CloseColumn<'_>) -> Result<Keyed, AllocError>
        ensures table { IfOk result
            (λ keyed. IsTableOf (column.now.variable ∷ []) column.now.rows.now.rows keyed) }
    {
        let places = NumberedPlaces::build(alloc, column)?;
        Ok(Keyed {
            table: TableForm::Numbered(places),
        })
    }

    /// Builds the index of the rows by the values of the key's variables. An empty key puts all
    /// rows into one group. The input chooses the rows, so the runtime supplies a random hash
    /// state.
    ///
    /// # Requires
    /// Each variable of the key is below the width of the rows.
    ///
    /// # Errors
    /// `AllocError` if an allocation fails.
    pub fn build(
        alloc: Global,
        state: RandomState,
        rows: &Rows,
        key: &[usize],
    ) -> Result<Keyed, AllocError>
        requires below { All (λ v. v < rows.now.width) key.now }
        ensures table { IfOk result (λ keyed. IsTableOf key.now rows.now.rows keyed) }
    {
        if key.len() == 1 {
            if let Some(column) = Column::read(rows, key[0]).close() {
                return Keyed::of_column(alloc, &column);
            }
        }
        let places = HashedPlaces::build(alloc, HashState::new(state), rows, key)?;
        Ok(Keyed {
            table: TableForm::Hashed(places),
        })
    }

    /// Returns the places of the rows that bind the key's variables to these numbers, in ascending
    /// order. The slice is empty if the count of numbers differs from that of the key's variables.
    pub fn places(&self, numbers: &Vec<u64>) -> &[usize]
        ensures value { result.now ≡ group_of self.now.keyed numbers.now.items }
    {
        self.find(numbers)
    }

    /// Returns the places of the rows that bind the key's variables to these numbers, as `places`
    /// does.
    pub(crate) fn find(&self, numbers: &[u64]) -> &[usize]
        ensures value { result.now ≡ group_of self.now.keyed numbers.now }
    {
        match &self.table {
            TableForm::Numbered(places) => places.places(numbers),
            TableForm::Hashed(places) => places.places(numbers),
        }
    }

    /// Returns the places of the rows that leave a variable of the key unbound, in ascending order.
    pub fn apart(&self) -> &[usize]
        ensures value { result.now ≡ self.now.apart }
    {
        match &self.table {
            TableForm::Numbered(places) => places.apart(),
            TableForm::Hashed(places) => places.apart(),
        }
    }
}
