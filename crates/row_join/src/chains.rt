//! The rows of each slot of a column, linked in ascending order of their places.
ghost use Rattle.std.specs.Prelude.{◌≡◌, ◌+◌, ◌++◌, ◌<◌, IfOk, OnOk, length};
ghost use Rattle.row_join.specs.Slots.{AreLinked, places_in, slot_at};

use crate::column::CloseColumn;
use std::alloc::{AllocError, Global};

/// For each slot of a column its first place, and for each place the next one in its slot. The
/// number of rows marks the end. A link takes four bytes.
pub(crate) struct Chains<'r> {
    column: CloseColumn<'r>,
    first: Vec<u32>,
    next: Vec<u32>,
    ghost slots: { length first.items ≡ column.span + 1 },
    ghost linked: { AreLinked (slot_at column.rows.now.rows column.variable column.least column.span)
        (length column.rows.now.rows) 0 first.items next.items },
}

impl<'r> Drop for Chains<'r> {
    /// Frees the links. Written by hand (docs/PROOF.md).
    fn drop(self) {
        let Chains {
            column: _,
            first: _,
            next: _,
        } = self;
    }
}

impl<'r> Chains<'r> {
    /// Links the rows of a column, from the last one to the first.
    ///
    /// # Errors
    /// `AllocError` if an allocation fails.
    pub(crate) fn build(alloc: Global, column: &CloseColumn<'r>) -> Result<Chains<'r>, AllocError>
        ensures column { IfOk result (λ chains. chains.column ≡ column.now) }
    {
        let Some(slots) = column.span.checked_add(1) else {
            return Err(AllocError);
        };
        let count = column.len();
        let end = count as u32;
        let mut first = vec![in alloc; end; slots]?;
        let mut next = vec![in alloc; end; count]?;
        for place in (0..count).rev() {
            let slot = column.slot(place);
            next[place] = first[slot];
            first[slot] = place as u32;
        }
        Ok(Chains {
            column: *column,
            first,
            next,
        })
    }

    /// Returns the number of slots.
    pub(crate) fn slots(&self) -> usize
        ensures value { result ≡ self.now.column.span + 1 }
    {
        self.first.len()
    }

    /// Appends the places in a slot, in ascending order.
    ///
    /// # Requires
    /// The slot is below `slots`.
    ///
    /// # Errors
    /// `AllocError` if an allocation fails. Some of the places may have been appended.
    pub(crate) fn add_to(&self, slot: usize, places: &mut Vec<usize>) -> Result<(), AllocError>
        requires within { slot < self.now.column.span + 1 }
        ensures added { OnOk result (places.new.items ≡ places.old.items
            ++ places_in (slot_at self.now.column.rows.now.rows self.now.column.variable
            self.now.column.least self.now.column.span) (length self.now.column.rows.now.rows) slot 0) }
    {
        let mut place = self.first[slot] as usize;
        while place < self.next.len() {
            places.push(place)?;
            place = self.next[place] as usize;
        }
        Ok(())
    }
}
