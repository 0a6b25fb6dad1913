//! Terms with their hashes. The hash of a term is computed once, where the term gets its first number. A dictionary
//! that absorbs the term takes the hash over.
ghost use Rattle.std.specs.Prelude.{◌≡◌, ◌==◌, ◌&&◌};
ghost use Rattle.std.specs.Hash as fed;
ghost use Rattle.std.specs.Cmp.Rules.{comparing, hashing};
ghost use borrow.Author.Rules.{rules};
ghost use Rattle.rdf_core.specs.Equality.{term_eq};
ghost use Rattle.dict_core.specs.HashedTerms.{hash_of, IsHashed};

use indexmap::Equivalent;
use keyed_hash::HashState;
use rdf_core::Term;
use std::hash::{BuildHasher, Hash, Hasher};

/// A term with a hash.
#[derive(PartialEq, Eq)]
pub struct HashedTerm {
    pub(crate) hash: u64,
    pub(crate) term: Term,
}

impl Drop for HashedTerm {
    /// Drops the term. Written by hand (docs/PROOF.md).
    fn drop(self) {
        let HashedTerm { hash: _, term: _ } = self;
    }
}

impl HashedTerm {
    /// Returns the term without its hash.
    pub(crate) fn into_term(self) -> Term
        ensures value { result ≡ self.term }
    {
        let HashedTerm { hash: _, term } = self;
        term
    }
}

impl Hash for HashedTerm {
    ghost hash_input = { λ t. fed.u64 t.hash };

    ghost respects_eq = { Prim.search (hashing, rules) };

    #[inline(always)]
    fn hash<H: Hasher>(&self, state: &mut H) {
        state.write_u64(self.hash);
    }
}

/// A borrowed term with a hash: what a [`HashedTerm`] is looked up by.
#[derive(Clone, Copy, PartialEq, Eq)]
pub struct HashedRef<'a> {
    pub(crate) hash: u64,
    pub(crate) term: &'a Term,
}

impl<'a> Hash for HashedRef<'a> {
    ghost hash_input = { λ t. fed.u64 t.hash };

    ghost respects_eq = { Prim.search (hashing, rules) };

    #[inline(always)]
    fn hash<H: Hasher>(&self, state: &mut H) {
        state.write_u64(self.hash);
    }
}

impl<'a> Equivalent<HashedTerm> for HashedRef<'a> {
    ghost equivalent = { λ q k. (q.hash == k.hash) && term_eq q.term.now k.term };

    ghost respects_hash = { Prim.search (hashing, rules) };

    ghost respects_eq = { Prim.search (comparing, rules) };

    #[inline(always)]
    fn equivalent(&self, key: &HashedTerm) -> bool {
        self.hash == key.hash && *self.term == key.term
    }
}

/// Returns the hash of a term under a state of the hash function.
pub(crate) fn hash_of(state: HashState, term: &Term) -> u64
    ensures { result ≡ hash_of state term.now }
{
    state.hash_one(term)
}

/// Returns the term with its hash under the state `to`. The hash is computed only if that is another state than the one
/// under which it was computed.
pub(crate) fn rehashed(from: HashState, to: HashState, hashed: HashedTerm) -> HashedTerm
    requires hashed { IsHashed from hashed }
    ensures hashed { IsHashed to result }
    ensures term { result.term ≡ hashed.term }
{
    if to == from {
        return hashed;
    }
    let term = hashed.into_term();
    HashedTerm {
        hash: hash_of(to, &term),
        term,
    }
}
