//! The hashes of the quads of a block, from those of its terms.
ghost use Rattle.std.specs.Prelude.{◌≡◌, List, length, map, IfOk, IsPermutation, IsSorted};
ghost use Rattle.std.specs.Ordering.{nat_cmp};
ghost use Rattle.rdf_core.specs.QuadParts.{QuadParts};
ghost use Rattle.algebra_model.specs.Bag.{without_repeats};
ghost use Rattle.dict_core.specs.Equality.{quad_eq};
ghost use Rattle.dict_core.specs.NumQuad.{AreBelow};
ghost use Rattle.cluster_parts.specs.Hash.{hash, quad_hash};
ghost use Rattle.cluster_parts.specs.Numbered.{AreQuadsOf, hash_by_numbers};
ghost use Rattle.cluster_parts.specs.Output.{AreHashesOf};

use crate::hashed_places::hashes_once;
use crate::hashing::hash_of_quad;
use crate::numbering::NumberedLines;
use dict_core::NumQuad;
use quad_index::{QuadList, Quads, SortOrder, sorted_list};
use std::alloc::{AllocError, Global};

/// Returns the hashes of quads of numbers.
fn hashes_of_quads(alloc: Global, terms: &[u64], quads: &[NumQuad]) -> Result<Vec<u64>, AllocError>
    requires below { AreBelow (length terms.now) quads.now }
    ensures hashes { IfOk result
        (λ hashes. hashes.items ≡ map (hash_by_numbers terms.now) quads.now) }
{
    let mut hashes = Vec::with_capacity(alloc, quads.len())?;
    for quad in quads {
        hashes.push(hash_of_quad(terms, quad))?;
    }
    Ok(hashes)
}

/// Returns the hashes of the quads of a block, in order, with repeats. `terms` are the hashes of its terms.
pub(crate) fn quad_hashes_of(
    alloc: Global,
    terms: &[u64],
    block: &NumberedLines,
) -> Result<Vec<u64>, AllocError>
    requires read { (quads : List QuadParts) × AreQuadsOf quads block.now }
    requires hashed { terms.now ≡ map hash block.now.texts.texts }
    ensures hashes { IfOk result (λ hashes. (quads : List QuadParts) → AreQuadsOf quads block.now
        → hashes.items ≡ map quad_hash quads) }
{
    let hashes = hashes_of_quads(alloc, terms, block.quads.as_slice())?;
    Ok(hashes)
}

/// Returns the hashes of borrowed quads of numbers.
fn hashes_of_list(alloc: Global, terms: &[u64], quads: &Quads<'_>) -> Result<Vec<u64>, AllocError>
    requires below { AreBelow (length terms.now) quads.now }
    ensures hashes { IfOk result
        (λ hashes. hashes.items ≡ map (hash_by_numbers terms.now) quads.now) }
{
    let mut hashes = Vec::with_capacity(alloc, quads.len())?;
    for place in 0..quads.len() {
        hashes.push(hash_of_quad(terms, &quads.get(place)))?;
    }
    Ok(hashes)
}

/// Returns the hashes of the distinct quads in ascending order, by a sort of the quads and one of the hashes. `terms` are the
/// hashes of the terms.
fn hashes_of_sorted(alloc: Global, terms: &[u64], quads: &[NumQuad]) -> Result<Vec<u64>, AllocError>
    requires below { AreBelow (length terms.now) quads.now }
    ensures once { IfOk result (λ hashes.
        IsPermutation (map (hash_by_numbers terms.now) (without_repeats quad_eq quads.now)) hashes.items) }
    ensures ascending { IfOk result (λ hashes. IsSorted nat_cmp hashes.items) }
{
    let mut all = QuadList::new(alloc);
    all.extend(alloc, quads)?;
    let list = sorted_list(alloc, &all, SortOrder::Gspo)?;
    let mut hashes = hashes_of_list(alloc, terms, &list.quads())?;
    hashes.sort_unstable();
    Ok(hashes)
}

/// Returns the hashes of the distinct quads in ascending order. `terms` are the hashes of the terms.
///
/// The quads themselves are sorted only if different ones have the same hash.
fn hashes_of_distinct(
    alloc: Global,
    terms: &[u64],
    quads: &[NumQuad],
) -> Result<Vec<u64>, AllocError>
    requires below { AreBelow (length terms.now) quads.now }
    ensures once { IfOk result (λ hashes.
        IsPermutation (map (hash_by_numbers terms.now) (without_repeats quad_eq quads.now)) hashes.items) }
    ensures ascending { IfOk result (λ hashes. IsSorted nat_cmp hashes.items) }
{
    match hashes_once(alloc, terms, quads)? {
        Some(hashes) => Ok(hashes),
        None => hashes_of_sorted(alloc, terms, quads),
    }
}

/// Returns the hashes of the distinct quads of a block in ascending order. `terms` are the hashes of its terms.
pub(crate) fn distinct_hashes_of(
    alloc: Global,
    terms: &[u64],
    block: &NumberedLines,
) -> Result<Vec<u64>, AllocError>
    requires read { (quads : List QuadParts) × AreQuadsOf quads block.now }
    requires hashed { terms.now ≡ map hash block.now.texts.texts }
    ensures hashes { IfOk result
        (λ hashes. (quads : List QuadParts) → AreQuadsOf quads block.now → AreHashesOf quads hashes.items) }
    ensures ascending { IfOk result (λ hashes. IsSorted nat_cmp hashes.items) }
{
    let hashes = hashes_of_distinct(alloc, terms, block.quads.as_slice())?;
    Ok(hashes)
}
