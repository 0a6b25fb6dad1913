//! Groups of places under keys of numbers: the contents of a hash table.
ghost use Rattle.std.specs.Prelude.{◌≡◌, ◌<◌, ◌++◌, ◌∷◌, [], ℕ, List, IfOk, OnOk, length, map, set, get_or};
ghost use Rattle.std.specs.Cmp.Lexicographic.{pointwise};
ghost use Rattle.std.specs.Prelude.{nat_eq};
ghost use Rattle.row_join.specs.Places.{group_of, place_if};

use crate::keys::Keys;
use keyed_hash::HashState;
use smallvec::SmallVec;
use std::alloc::{AllocError, Global};
use std::marker::Model;

/// The places of one group. Two of them need no allocation.
type Group = SmallVec<usize, 2>;

/// Lists of places, each under its key.
pub(crate) struct Groups {
    keys: Keys,
    groups: Vec<Group>,
}

impl Drop for Groups {
    /// Drops the table. Written by hand (docs/PROOF.md).
    fn drop(self) {
        let Groups { keys: _, groups: _ } = self;
    }
}

impl Model for Groups {
    ghost use Rattle.std.specs.Prelude.{◌≡◌, ℕ, List, length, map};
    ghost use Rattle.row_join.specs.KeyTable.{KeyedGroups};

    ghost Value = { KeyedGroups };

    ghost view = { λ g. record { width = g.keys.width; list = record { keys = g.keys.keys; groups = map (λ l. l.items) g.groups.items } } };

    ghost invariant = { λ g. length g.keys.keys ≡ length g.groups.items };
}

/// Appends a place to one group.
fn push_at(groups: &mut Vec<Group>, at: usize, place: usize) -> Result<(), AllocError>
    requires within { at < length groups.old.items }
    ensures added { OnOk result (map (λ l. l.items) groups.new.items
        ≡ set (map (λ l. l.items) groups.old.items) at
        (get_or (map (λ l. l.items) groups.old.items) at [] ++ place ∷ [])) }
    ensures long { length groups.new.items ≡ length groups.old.items }
{
    groups[at].push(place)?;
    Ok(())
}

impl Groups {
    /// Creates a table without places, for keys of this width. It has room for this number of keys; more keys may be
    /// added.
    ///
    /// # Errors
    /// `AllocError` if an allocation fails.
    pub(crate) fn new(
        alloc: Global,
        state: HashState,
        width: usize,
        count: usize,
    ) -> Result<Groups, AllocError>
        ensures empty { IfOk result (λ groups. (numbers : List ℕ) → group_of groups.list numbers ≡ []) }
        ensures width { IfOk result (λ groups. groups.width ≡ width) }
    {
        let keys = Keys::new(alloc, state, width, count)?;
        Ok(Groups {
            keys,
            groups: Vec::new(alloc),
        })
    }

    /// Returns the places under a key, in the order in which they were added.
    pub(crate) fn places(&self, numbers: &[u64]) -> &[usize]
        ensures value { result.now ≡ group_of self.now.list numbers.now }
    {
        match self.keys.place(numbers) {
            Some(at) => &self.groups[at],
            None => &[],
        }
    }

    /// Adds a place under a key.
    ///
    /// # Requires
    /// The key is as long as the table requires.
    ///
    /// # Errors
    /// `AllocError` if an allocation fails.
    pub(crate) fn add(
        &mut self,
        alloc: Global,
        numbers: &[u64],
        place: usize,
    ) -> Result<(), AllocError>
        requires wide { length numbers.now ≡ self.old.width }
        ensures added { OnOk result ((found : List ℕ)
            → group_of self.new.list found ≡ group_of self.old.list found ++ place_if (pointwise nat_eq found numbers.now) place) }
        ensures width { self.new.width ≡ self.old.width }
    {
        self.groups.reserve(1)?;
        let at = self.keys.insert(numbers)?;
        if at == self.groups.len() {
            self.groups.push_reserved(SmallVec::new(alloc));
        }
        push_at(&mut self.groups, at, place)?;
        Ok(())
    }
}
