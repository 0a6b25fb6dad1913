//! An index of rows by one variable whose numbers are close together. A look-up is a subtraction.
ghost use Rattle.std.specs.Prelude.{◌≡◌, ◌+◌, ◌<◌, ◌∷◌, [], IfOk, length};
ghost use Rattle.row_join.specs.Places.{IsTableOf, group_of};
ghost use Rattle.row_join.specs.Slots.{AreRising, group_at};

use crate::chains::Chains;
use crate::column::CloseColumn;
use std::alloc::{AllocError, Global};
use std::marker::Model;

/// The places of rows by the number that they bind one variable to. All places are in one list: the
/// groups in ascending order of their numbers, and then the rows that leave the variable unbound.
/// `starts` has the start of each group, from that of the least number on, the start of these other
/// rows, and the end.
pub(crate) struct NumberedPlaces {
    least: u64,
    starts: Vec<usize>,
    places: Vec<usize>,
}

impl Drop for NumberedPlaces {
    /// Frees the lists. Written by hand (docs/PROOF.md).
    fn drop(self) {
        let NumberedPlaces {
            least: _,
            starts: _,
            places: _,
        } = self;
    }
}

impl Model for NumberedPlaces {
    ghost use Rattle.std.specs.Prelude.{◌-◌, ◌<◌, length};
    ghost use Rattle.row_join.specs.Places.{PlaceTable};
    ghost use Rattle.row_join.specs.Slots.{AreRising, slot_table};

    ghost Value = { PlaceTable };

    ghost view = { λ p. slot_table p.least (length p.starts.items - 2) p.starts.items p.places.items };

    ghost invariant = { λ p. (1 < length p.starts.items) × AreRising p.starts.items p.places.items };
}

/// Returns the places in a slot, given the fields.
fn group_at<'p>(starts: &[usize], places: &'p [usize], slot: usize) -> &'p [usize]
    requires within { slot + 1 < length starts.now }
    requires rising { AreRising starts.now places.now }
    ensures value { result.now ≡ group_at starts.now places.now slot }
{
    &places[starts[slot]..starts[slot + 1]]
}

impl NumberedPlaces {
    /// Builds the index of the rows of a column.
    ///
    /// # Errors
    /// `AllocError` if an allocation fails.
    pub(crate) fn build(
        alloc: Global,
        column: &CloseColumn<'_>,
    ) -> Result<NumberedPlaces, AllocError>
        ensures table { IfOk result
            (λ made. IsTableOf (column.now.variable ∷ []) column.now.rows.now.rows made) }
    {
        let chains = Chains::build(alloc, column)?;
        let mut starts = Vec::with_capacity(alloc, chains.slots().saturating_add(1))?;
        let mut places = Vec::with_capacity(alloc, column.len())?;
        starts.push(0)?;
        for slot in 0..chains.slots() {
            chains.add_to(slot, &mut places)?;
            starts.push(places.len())?;
        }
        Ok(NumberedPlaces {
            least: column.least,
            starts,
            places,
        })
    }

    /// Returns the places of the rows that bind the variable to the number, which is the only one of
    /// these numbers, in ascending order. The slice is empty if there is none or more than one.
    pub(crate) fn places(&self, numbers: &[u64]) -> &[usize]
        ensures value { result.now ≡ group_of self.now.keyed numbers.now }
    {
        let span = self.starts.len() - 2;
        if numbers.len() != 1 {
            return &[];
        }
        let number = numbers[0];
        if number < self.least {
            return &[];
        }
        let slot = (number - self.least) as usize;
        if slot >= span {
            return &[];
        }
        group_at(&self.starts, &self.places, slot)
    }

    /// Returns the places of the rows that leave the variable unbound, in ascending order.
    pub(crate) fn apart(&self) -> &[usize]
        ensures value { result.now ≡ self.now.apart }
    {
        group_at(&self.starts, &self.places, self.starts.len() - 2)
    }
}
