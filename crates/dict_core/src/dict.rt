//! The dictionary.
ghost use Rattle.std.specs.Prelude.{◌≡◌, ◌<◌, ◌^◌, [], ◌∷◌, ◌++◌, length, slice_get, Some, Ok, Contains, IfOk, IfErr, OnOk, OnErr, MatchOption};
ghost use Rattle.dict_core.specs.Dict.{AreDistinct, AreNumbersOf};
ghost use Rattle.dict_core.specs.Appearances.{first_appearances};

use crate::hashed_term::{HashedTerm, hash_of};
use crate::inserting::insert_terms;
use crate::term_set::TermSet;
use keyed_hash::HashState;
use rdf_core::Term;
use std::alloc::{AllocError, Global};
use std::hash::RandomState;
use std::marker::Model;

/// Distinct terms, numbered from 0 in the order in which they were added. In contracts this type is their list.
pub struct Dict {
    pub(crate) terms: TermSet,
}

impl Drop for Dict {
    /// Drops the terms. Written by hand (docs/PROOF.md).
    fn drop(self) {
        let Dict { terms: _ } = self;
    }
}

impl Model for Dict {
    ghost use Rattle.std.specs.Prelude.{List};
    ghost use Rattle.rdf_core.specs.declared.term.Term.{Term};
    ghost use Rattle.dict_core.specs.Dict.{AreDistinct};

    ghost Value = { List Term };

    ghost view = { λ d. d.terms.keys };

    ghost invariant = { λ d. AreDistinct d.terms.keys };
}

impl Dict {
    /// Creates an empty dictionary. The hash state comes from the runtime, because the terms are untrusted input.
    ///
    /// Allocates nothing, and does not fail.
    pub fn new(alloc: Global, state: RandomState) -> Result<Dict, AllocError>
        ensures empty { result ≡ Ok [] }
    {
        Ok(Dict {
            terms: TermSet::new(alloc, HashState::new(state)),
        })
    }

    /// Returns the number of terms.
    pub fn len(&self) -> usize
        ensures value { result ≡ length self.now }
        ensures small { result < 2 ^ 63 }
        ensures distinct { AreDistinct self.now }
    {
        self.terms.len()
    }

    /// Returns the number of a term. A new term is appended.
    ///
    /// # Errors
    /// The term itself, if it is new and an allocation fails. The dictionary is unchanged.
    pub fn intern(&mut self, term: Term) -> Result<u64, Term>
        ensures number { IfOk result (λ n. slice_get self.new n ≡ Some term) }
        ensures known { OnOk result (Contains self.old term → self.new ≡ self.old) }
        ensures new { OnOk result (¬ (Contains self.old term) → self.new ≡ self.old ++ term ∷ []) }
        ensures back { IfErr result (λ t. t ≡ term) }
        ensures unchanged { OnErr result (self.new ≡ self.old) }
        ensures not_in_dict { OnErr result (¬ (Contains self.old term)) }
    {
        let hash = hash_of(self.terms.state(), &term);
        match self.terms.insert(HashedTerm { hash, term }) {
            Ok(at) => Ok(at as u64),
            Err(term) => Err(term),
        }
    }

    /// Returns the number of a term, or None if the term is not in the dictionary.
    pub fn number_of(&self, term: &Term) -> Option<u64>
        ensures value { MatchOption result (¬ (Contains self.now term.now))
            (λ n. slice_get self.now n ≡ Some term.now) }
    {
        let hash = hash_of(self.terms.state(), term);
        match self.terms.place(hash, term) {
            Some(at) => Some(at as u64),
            None => None,
        }
    }

    /// Appends the terms of another dictionary that are new, in their order. Returns the number that each term
    /// of `other` has now, in the order of `other`.
    ///
    /// # Errors
    /// `AllocError` if an allocation fails. This dictionary is unchanged, and `other` is dropped.
    pub fn absorb(&mut self, other: Dict) -> Result<Vec<u64>, AllocError>
        ensures terms { OnOk result (self.new ≡ first_appearances (self.old ++ other)) }
        ensures numbers { IfOk result (λ v. AreNumbersOf self.new other v.items) }
        ensures unchanged { OnErr result (self.new ≡ self.old) }
    {
        let alloc = self.terms.allocator();
        insert_terms(alloc, &mut self.terms, other.into_terms())
    }

    /// Returns the terms by number.
    pub(crate) fn into_terms(self) -> TermSet
        ensures terms { result.keys ≡ self }
    {
        let Dict { terms } = self;
        terms
    }

    /// Returns the term with this number.
    ///
    /// # Requires
    /// The number is below `len`.
    pub fn term(&self, n: u64) -> &Term
        requires known { n < length self.now }
        ensures value { slice_get self.now n ≡ Some result.now }
    {
        self.terms.term(n as usize)
    }
}
