//! An index of rows by a key of any variables. The groups are in a hash table.
ghost use Rattle.std.specs.Prelude.{◌≡◌, ◌<◌, All, IfOk};
ghost use Rattle.row_join.specs.Places.{IsTableOf, group_of};

use crate::groups::Groups;
use crate::row_ref::RowRef;
use keyed_hash::HashState;
use row_core::Rows;
use std::alloc::{AllocError, Global};
use std::marker::Model;

/// The places of rows by their keys, and those of the rows without a key.
pub(crate) struct HashedPlaces {
    groups: Groups,
    apart: Vec<usize>,
}

impl Drop for HashedPlaces {
    /// Drops the table. Written by hand (docs/PROOF.md).
    fn drop(self) {
        let HashedPlaces {
            groups: _,
            apart: _,
        } = self;
    }
}

impl Model for HashedPlaces {
    ghost use Rattle.row_join.specs.Places.{PlaceTable};

    ghost Value = { PlaceTable };

    ghost view = { λ p. record { keyed = p.groups.list; apart = p.apart.items } };
}

impl HashedPlaces {
    /// Builds the index of the rows by the values of the key's variables.
    ///
    /// # Requires
    /// Each variable of the key is below the width of the rows.
    ///
    /// # Errors
    /// `AllocError` if an allocation fails.
    pub(crate) fn build(
        alloc: Global,
        state: HashState,
        rows: &Rows,
        key: &[usize],
    ) -> Result<HashedPlaces, AllocError>
        requires below { All (λ v. v < rows.now.width) key.now }
        ensures table { IfOk result (λ made. IsTableOf key.now rows.now.rows made) }
    {
        let mut groups = Groups::new(alloc, state, key.len(), rows.len())?;
        let mut apart = Vec::new(alloc);
        let mut numbers = Vec::new(alloc);
        for place in 0..rows.len() {
            let row = RowRef { rows, at: place };
            if row.read_key(key, &mut numbers)? {
                groups.add(alloc, &numbers, place)?;
            } else {
                apart.push(place)?;
            }
        }
        Ok(HashedPlaces { groups, apart })
    }

    /// Returns the places of the rows that bind the key's variables to these numbers, in ascending
    /// order.
    pub(crate) fn places(&self, numbers: &[u64]) -> &[usize]
        ensures value { result.now ≡ group_of self.now.keyed numbers.now }
    {
        self.groups.places(numbers)
    }

    /// Returns the places of the rows that leave a variable of the key unbound, in ascending order.
    pub(crate) fn apart(&self) -> &[usize]
        ensures value { result.now ≡ self.now.apart }
    {
        &self.apart
    }
}
