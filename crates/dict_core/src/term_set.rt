//! A set of terms that keeps the order of insertion and the hash of each term.
//!
//! In contracts the set is the list of its terms, the state of the hash function, and the room for more.
ghost use Rattle.std.specs.Prelude.{◌≡◌, ◌+◌, ◌<◌, ◌≤◌, ◌^◌, [], false, is_some, length, position, slice_get, Some, IfOk, IfErr, IsOk, OnOk, OnErr};
ghost use Rattle.std.specs.List.{list_any, position_or_len};
ghost use Rattle.indexmap.specs.IndexSet.{insert_key};
ghost use Rattle.rdf_core.specs.Equality.{term_eq};
ghost use Rattle.dict_core.specs.Dict.{AreDistinct};
ghost use Rattle.dict_core.specs.HashedTerms.{hash_of, terms_in, AreHashed, IsHashed};

use crate::hashed_term::{HashedRef, HashedTerm};
use indexmap::IndexSet;
use keyed_hash::HashState;
use rdf_core::Term;
use std::alloc::{AllocError, Global};
use std::marker::Model;

/// Distinct terms with their hashes, in the order of insertion.
pub struct TermSet {
    hashed: IndexSet<HashedTerm, HashState>,
}

impl Drop for TermSet {
    /// Drops the terms. Written by hand (docs/PROOF.md).
    fn drop(self) {
        let TermSet { hashed: _ } = self;
    }
}

impl Model for TermSet {
    ghost use Rattle.indexmap.specs.IndexSet.{hasher_of, spare};
    ghost use Rattle.dict_core.specs.Dict.{AreDistinct};
    ghost use Rattle.dict_core.specs.HashedTerms.{terms_in, AreHashed};
    ghost use Rattle.dict_core.specs.TermSet.{TermSetView};

    ghost Value = { TermSetView };

    ghost view = { λ s. record { keys = terms_in s.hashed.keys; state = hasher_of s.hashed; spare = spare s.hashed } };

    ghost invariant = { λ s. AreHashed (hasher_of s.hashed) s.hashed.keys };
}

impl TermSet {
    /// Creates an empty set. Allocates nothing.
    pub(crate) fn new(alloc: Global, state: HashState) -> TermSet
        ensures empty { result.keys ≡ [] }
    {
        TermSet {
            hashed: IndexSet::with_hasher(alloc, state),
        }
    }

    /// Returns the number of terms.
    pub(crate) fn len(&self) -> usize
        ensures value { result ≡ length self.now.keys }
        ensures small { result < 2 ^ 63 }
        ensures distinct { AreDistinct self.now.keys }
    {
        self.hashed.len()
    }

    /// Returns the state of the hash function.
    pub(crate) fn state(&self) -> HashState
        ensures value { result ≡ self.now.state }
    {
        *self.hashed.hasher()
    }

    /// Returns the allocator.
    pub(crate) fn allocator(&self) -> Global {
        *self.hashed.allocator()
    }

    /// Makes room for `n` more terms.
    ///
    /// # Errors
    /// `AllocError` if an allocation fails. The terms are unchanged.
    pub(crate) fn reserve(&mut self, n: usize) -> Result<(), AllocError>
        ensures keys { self.new.keys ≡ self.old.keys }
        ensures state { self.new.state ≡ self.old.state }
        ensures room { OnOk result (n ≤ self.new.spare) }
        ensures distinct { AreDistinct self.new.keys }
    {
        self.hashed.reserve(n)
    }

    /// Inserts a term last, unless the set has it. Returns its place.
    ///
    /// # Requires
    /// The hash is that of the term under the state of this set.
    ///
    /// # Errors
    /// The term itself, if it is new and an allocation fails. The terms are unchanged.
    pub(crate) fn insert(&mut self, hashed: HashedTerm) -> Result<usize, Term>
        requires hashed { IsHashed self.old.state hashed }
        ensures keys { OnOk result (self.new.keys ≡ insert_key term_eq self.old.keys hashed.term) }
        ensures index { IfOk result (λ i. i ≡ position_or_len (term_eq hashed.term) self.old.keys) }
        ensures back { IfErr result (λ t. t ≡ hashed.term) }
        ensures unchanged { OnErr result (self.new.keys ≡ self.old.keys) }
        ensures absent { OnErr result (list_any (term_eq hashed.term) self.old.keys ≡ false) }
        ensures succeeds { 0 < self.old.spare → IsOk result }
        ensures spare { self.old.spare ≤ self.new.spare + 1 }
        ensures state { self.new.state ≡ self.old.state }
        ensures distinct { AreDistinct self.new.keys }
    {
        match self.hashed.insert_full(hashed) {
            Ok((place, _)) => Ok(place),
            Err(failed) => Err(failed.value.into_term()),
        }
    }

    /// Returns the place of a term, or None if the set lacks it.
    ///
    /// # Requires
    /// `hash` is the hash of the term under the state of this set.
    pub(crate) fn place(&self, hash: u64, term: &Term) -> Option<usize>
        requires hashed { hash ≡ hash_of self.now.state term.now }
        ensures value { result ≡ position (term_eq term.now) self.now.keys }
        ensures found { is_some result ≡ list_any (term_eq term.now) self.now.keys }
    {
        self.hashed.get_index_of(HashedRef { hash, term })
    }

    /// Returns the term at a place.
    ///
    /// # Requires
    /// The place is below `len`.
    pub(crate) fn term(&self, place: usize) -> &Term
        requires within { place < length self.now.keys }
        ensures value { slice_get self.now.keys place ≡ Some result.now }
    {
        &self.hashed[place].term
    }

    /// Returns the terms with their hashes.
    pub(crate) fn into_hashed(self) -> IndexSet<HashedTerm, HashState>
        ensures terms { terms_in result.keys ≡ self.keys }
        ensures hashed { AreHashed self.state result.keys }
    {
        let TermSet { hashed } = self;
        hashed
    }
}
