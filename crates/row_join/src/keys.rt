//! Distinct keys of numbers in one buffer, with a hash table of their places.
//!
//! The table has chains in place of lists: a bucket has the place of its last key, and each key the place of the key
//! before it in its bucket. A place is stored as one more than itself, and 0 is none. The number of buckets is fixed.
ghost use Rattle.std.specs.Prelude.{◌≡◌, ◌+◌, ◌*◌, ◌<◌, ◌≤◌, ℕ, Some, [], IfOk, OnOk, OnErr, MatchOption, length, max, slice_get};
ghost use Rattle.row_core.specs.RowList.{rows_in};
ghost use Rattle.row_join.specs.KeyTable.{IsKeyTable, bucket_of, place_of, with_key};

use crate::hashing::bucket_of;
use keyed_hash::HashState;
use std::alloc::{AllocError, Global};
use std::marker::Model;

/// Distinct keys, each a list of `width` numbers, in the order in which they were added. In contracts this type is the
/// width and the list of the keys.
pub(crate) struct Keys {
    state: HashState,
    width: usize,
    numbers: Vec<u64>,
    buckets: Vec<usize>,
    earlier: Vec<usize>,
}

impl Drop for Keys {
    /// Frees the buffers. Written by hand (docs/PROOF.md).
    fn drop(self) {
        let Keys {
            state: _,
            width: _,
            numbers: _,
            buckets: _,
            earlier: _,
        } = self;
    }
}

impl Model for Keys {
    ghost use Rattle.std.specs.Prelude.{◌≡◌, ◌*◌, length};
    ghost use Rattle.row_core.specs.RowList.{rows_in};
    ghost use Rattle.row_join.specs.KeyTable.{IsKeyTable, KeyList, bucket_of};

    ghost Value = { KeyList };

    ghost view = { λ k. record { width = k.width; keys = rows_in k.width k.width (length k.earlier.items) k.numbers.items } };

    ghost invariant = { λ k. (length k.numbers.items ≡ length k.earlier.items * k.width)
        × IsKeyTable (bucket_of k.state (length k.buckets.items)) (rows_in k.width k.width (length k.earlier.items) k.numbers.items)
        k.buckets.items k.earlier.items };
}

/// Returns the numbers of the key at a place.
fn key_at(numbers: &[u64], width: usize, place: usize) -> &[u64]
    requires within { place * width + width ≤ length numbers.now }
    ensures value { (count : ℕ) → place < count → slice_get (rows_in width width count numbers.now) place ≡ Some result.now }
{
    &numbers[place * width..place * width + width]
}

/// Returns the place of a key, given the fields.
fn find(
    state: HashState,
    width: usize,
    numbers: &[u64],
    buckets: &[usize],
    earlier: &[usize],
    key: &[u64],
) -> Option<usize>
    requires long { length numbers.now ≡ length earlier.now * width }
    requires table { IsKeyTable (bucket_of state (length buckets.now)) (rows_in width width (length earlier.now) numbers.now)
        buckets.now earlier.now }
    ensures value { MatchOption result
        (length earlier.now ≡ place_of key.now (rows_in width width (length earlier.now) numbers.now))
        (λ n. (n ≡ place_of key.now (rows_in width width (length earlier.now) numbers.now)) × (n < length earlier.now)) }
{
    let mut at = buckets[bucket_of(state, buckets.len(), key)];
    while at > 0 {
        if key_at(numbers, width, at - 1) == key {
            return Some(at - 1);
        }
        at = earlier[at - 1];
    }
    None
}

/// Returns the number of buckets for this number of keys: a power of two, and at least one.
fn bucket_count(keys: usize) -> usize
    ensures some { 0 < result }
{
    keys.checked_next_power_of_two().unwrap_or(1).max(1)
}

impl Keys {
    /// Creates an empty list of keys of this width, with buckets for this number of keys. More keys may be added.
    ///
    /// # Errors
    /// `AllocError` if an allocation fails.
    pub(crate) fn new(
        alloc: Global,
        state: HashState,
        width: usize,
        count: usize,
    ) -> Result<Keys, AllocError>
        ensures empty { IfOk result (λ keys. keys.keys ≡ []) }
        ensures width { IfOk result (λ keys. keys.width ≡ width) }
    {
        let buckets = vec![in alloc; 0usize; bucket_count(count)]?;
        Ok(Keys {
            state,
            width,
            numbers: Vec::new(alloc),
            buckets,
            earlier: Vec::new(alloc),
        })
    }

    /// Returns the place of a key, or None if it is not among the keys.
    pub(crate) fn place(&self, key: &[u64]) -> Option<usize>
        ensures value { MatchOption result (length self.now.keys ≡ place_of key.now self.now.keys)
            (λ at. (at ≡ place_of key.now self.now.keys) × (at < length self.now.keys)) }
    {
        find(
            self.state,
            self.width,
            &self.numbers,
            &self.buckets,
            &self.earlier,
            key,
        )
    }

    /// Returns the place of a key. A new key is added.
    ///
    /// # Requires
    /// The key has `width` numbers.
    ///
    /// # Errors
    /// `AllocError` if the key is new and an allocation fails. The keys are unchanged.
    pub(crate) fn insert(&mut self, key: &[u64]) -> Result<usize, AllocError>
        requires wide { length key.now ≡ self.old.width }
        ensures place { IfOk result (λ at. at ≡ place_of key.now self.old.keys) }
        ensures within { IfOk result (λ at. at ≤ length self.old.keys) }
        ensures count { IfOk result (λ at. length self.new.keys ≡ max (length self.old.keys) (at + 1)) }
        ensures keys { OnOk result (self.new.keys ≡ with_key self.old.keys key.now) }
        ensures unchanged { OnErr result (self.new.keys ≡ self.old.keys) }
        ensures width { self.new.width ≡ self.old.width }
    {
        if let Some(at) = self.place(key) {
            return Ok(at);
        }
        self.earlier.reserve(1)?;
        self.numbers.extend_from_slice(key)?;
        let at = self.earlier.len();
        let bucket = bucket_of(self.state, self.buckets.len(), key);
        self.earlier.push_reserved(self.buckets[bucket]);
        self.buckets[bucket] = at + 1;
        Ok(at)
    }
}
