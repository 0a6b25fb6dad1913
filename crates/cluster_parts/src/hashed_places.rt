//! The hashes of the distinct quads of a list, by a sort of all hashes.
//!
//! Equal quads have equal hashes. So if no two different quads have the same hash, the different hashes are those of the distinct
//! quads. Only hashes and places are moved, and only neighbours with equal hashes are compared as quads.
ghost use Rattle.std.specs.Prelude.{◌≡◌, ◌<◌, All, length, map, nat_eq, true, IfOk, IfSome, IsPermutation, IsSorted};
ghost use Rattle.std.specs.List.{dedup};
ghost use Rattle.std.specs.List.Sorted.{IsSortedByKey};
ghost use Rattle.std.specs.Ordering.{nat_cmp};
ghost use Rattle.algebra_model.specs.Bag.{without_repeats};
ghost use Rattle.dict_core.specs.Equality.{quad_eq};
ghost use Rattle.dict_core.specs.NumQuad.{AreBelow};
ghost use Rattle.cluster_parts.specs.Numbered.{Agree, IsHashed, NeighboursAgree, hash_by_numbers, quad_there};

use crate::hashing::hash_of_quad;
use dict_core::NumQuad;
use std::alloc::{AllocError, Global};

/// The hash of a quad, and its place in a list of quads.
#[derive(Clone, Copy)]
pub(crate) struct HashedPlace {
    pub(crate) hash: u64,
    pub(crate) place: usize,
}

/// Returns the hash and the place of each quad, in order. `terms` are the hashes of the terms.
fn places_of(
    alloc: Global,
    terms: &[u64],
    quads: &[NumQuad],
) -> Result<Vec<HashedPlace>, AllocError>
    requires below { AreBelow (length terms.now) quads.now }
    ensures hashed { IfOk result (λ places. All (IsHashed terms.now quads.now) places.items) }
    ensures all { IfOk result (λ places. map (quad_there quads.now) places.items ≡ quads.now) }
{
    let mut places = Vec::with_capacity(alloc, quads.len())?;
    for place in 0..quads.len() {
        let hash = hash_of_quad(terms, &quads[place]);
        places.push(HashedPlace { hash, place })?;
    }
    Ok(places)
}

/// Sorts places by their hashes.
fn sort_by_hash(places: &mut Vec<HashedPlace>)
    ensures same { IsPermutation places.old.items places.new.items }
    ensures sorted { IsSortedByKey (λ x. x.hash) nat_cmp places.new.items }
{
    places.sort_unstable_by_key(|it| it.hash);
}

/// Returns whether two places have different hashes or the same quad.
fn agree(quads: &[NumQuad], a: &HashedPlace, b: &HashedPlace) -> bool
    requires first { a.now.place < length quads.now }
    requires second { b.now.place < length quads.now }
    ensures agree { result ≡ true → Agree quads.now a.now b.now }
{
    a.hash != b.hash || quads[a.place] == quads[b.place]
}

/// Returns whether each two neighbours have different hashes or the same quad.
fn neighbours_agree(quads: &[NumQuad], places: &[HashedPlace]) -> bool
    requires within { All (λ x. x.place < length quads.now) places.now }
    ensures agree { result ≡ true → NeighboursAgree quads.now places.now }
{
    for i in 1..places.len() {
        if !agree(quads, &places[i - 1], &places[i]) {
            return false;
        }
    }
    true
}

/// Returns the hashes of places, without those that are equal to the one before.
fn different_hashes(alloc: Global, places: &[HashedPlace]) -> Result<Vec<u64>, AllocError>
    ensures different { IfOk result (λ hashes. hashes.items ≡ dedup nat_eq (map (λ x. x.hash) places.now)) }
{
    let mut hashes = Vec::with_capacity(alloc, places.len())?;
    for it in places {
        hashes.push(it.hash)?;
    }
    hashes.dedup();
    Ok(hashes)
}

/// Returns the hashes of the distinct quads in ascending order, or None if different quads have the same hash. `terms` are the
/// hashes of the terms. No result of the program depends on when it is None, only its speed.
pub(crate) fn hashes_once(
    alloc: Global,
    terms: &[u64],
    quads: &[NumQuad],
) -> Result<Option<Vec<u64>>, AllocError>
    requires below { AreBelow (length terms.now) quads.now }
    ensures once { IfOk result (λ found. IfSome found (λ hashes.
        IsPermutation (map (hash_by_numbers terms.now) (without_repeats quad_eq quads.now)) hashes.items)) }
    ensures ascending { IfOk result (λ found. IfSome found (λ hashes. IsSorted nat_cmp hashes.items)) }
{
    let mut places = places_of(alloc, terms, quads)?;
    sort_by_hash(&mut places);
    if !neighbours_agree(quads, places.as_slice()) {
        return Ok(None);
    }
    let hashes = different_hashes(alloc, places.as_slice())?;
    Ok(Some(hashes))
}
