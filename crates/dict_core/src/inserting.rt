//! Insertions into the set of terms, one after the other.
ghost use Rattle.std.specs.Prelude.{◌≡◌, ◌+◌, ◌<◌, ◌≤◌, map, OnOk, OnErr, IfOk, slice_get, Some};
ghost use Rattle.std.specs.List.{position_or_len};
ghost use Rattle.indexmap.specs.IndexSet.{insert_all, insert_key};
ghost use Rattle.rdf_core.specs.Equality.{term_eq};
ghost use Rattle.dict_core.specs.Dict.{AreDistinct};
ghost use Rattle.dict_core.specs.HashedTerms.{IsHashed};
ghost use Rattle.dict_core.specs.Inserting.{places_in};

use crate::hashed_term::{HashedTerm, rehashed};
use crate::term_set::TermSet;
use keyed_hash::HashState;
use std::alloc::{AllocError, Global};

/// Inserts the terms in turn, and returns the place of each. On error the set is unchanged, because room for
/// all terms is allocated first.
pub(crate) fn insert_terms(
    alloc: Global,
    set: &mut TermSet,
    terms: TermSet,
) -> Result<Vec<u64>, AllocError>
    ensures keys { OnOk result (set.new.keys ≡ insert_all term_eq set.old.keys terms.keys) }
    ensures places { IfOk result (λ v. v.items ≡ places_in set.old.keys terms.keys) }
    ensures unchanged { OnErr result (set.new.keys ≡ set.old.keys) }
    ensures distinct { AreDistinct set.new.keys }
{
    set.reserve(terms.len())?;
    let mut places = Vec::with_capacity(alloc, terms.len())?;
    let from = terms.state();
    for hashed in terms.into_hashed() {
        let place = insert_reserved(set, from, hashed);
        places.push_reserved(place as u64);
    }
    Ok(places)
}

/// Inserts a term into a set that has room for it, and returns its place. The term has its hash under the state
/// `from`.
fn insert_reserved(set: &mut TermSet, from: HashState, hashed: HashedTerm) -> usize
    requires room { 0 < set.old.spare }
    requires hashed { IsHashed from hashed }
    ensures keys { set.new.keys ≡ insert_key term_eq set.old.keys hashed.term }
    ensures index { result ≡ position_or_len (term_eq hashed.term) set.old.keys }
    ensures spare { set.old.spare ≤ set.new.spare + 1 }
    ensures distinct { AreDistinct set.new.keys }
{
    let state = set.state();
    let Ok(place) = set.insert(rehashed(from, state, hashed)) else {
        unreachable!();
    };
    place
}
