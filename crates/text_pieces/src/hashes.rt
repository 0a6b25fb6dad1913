//! The hashes of the slices of a piece. They are computed before the slices are looked up.
ghost use Rattle.std.specs.Prelude.{◌≡◌, ◌≤◌, map, take, length, vec_capacity, vec_len, IfOk};
ghost use Rattle.keyed_hash.specs.Hashing.{hash_of};
ghost use Rattle.text_pieces.specs.Hashes.{hash_of_name, hashes_of};

use keyed_hash::HashState;
use nquads_core::RawStatement;
use std::alloc::{AllocError, Global};
use text_dict::TextDict;

/// The hashes of the slices of a statement.
#[derive(Clone, Copy)]
pub(crate) struct SliceHashes {
    pub(crate) subject: u64,
    pub(crate) predicate: u64,
    pub(crate) object: u64,
    /// The hash of the graph label, or 0 if there is none.
    pub(crate) graph: u64,
}

/// Returns the hash of the graph label of a statement, or 0 if there is none.
#[inline(always)]
fn hash_of_name(state: HashState, raw: &RawStatement<'_>) -> u64
    ensures value { result ≡ hash_of_name state raw.now.graph }
{
    match raw.graph {
        Some(name) => state.hash_of(name.as_bytes()),
        None => 0,
    }
}

/// Returns the hashes of the slices of a statement.
#[inline(always)]
fn hashes_of(state: HashState, raw: &RawStatement<'_>) -> SliceHashes
    ensures value { result ≡ hashes_of state raw.now }
{
    SliceHashes {
        subject: state.hash_of(raw.subject.as_bytes()),
        predicate: state.hash_of(raw.predicate.as_bytes()),
        object: state.hash_of(raw.object.as_bytes()),
        graph: hash_of_name(state, raw),
    }
}

/// Returns the hashes of the slices of each statement.
///
/// # Errors
/// `AllocError` if an allocation fails.
pub(crate) fn slice_hashes(
    alloc: Global,
    state: HashState,
    raws: &[RawStatement<'_>],
) -> Result<Vec<SliceHashes>, AllocError>
    ensures hashes { IfOk result (λ v. v.items ≡ map (hashes_of state) raws.now) }
{
    let mut hashes = Vec::with_capacity(alloc, raws.len())?;
    for raw in raws {
        hashes.push_reserved(hashes_of(state, raw));
    }
    Ok(hashes)
}

/// Returns the hash of each text.
///
/// # Errors
/// `AllocError` if an allocation fails.
pub(crate) fn text_hashes(
    alloc: Global,
    state: HashState,
    texts: &TextDict,
) -> Result<Vec<u64>, AllocError>
    ensures hashes { IfOk result (λ v. v.items ≡ map (hash_of state) texts.now.texts) }
{
    let mut hashes = Vec::with_capacity(alloc, texts.len())?;
    for n in 0..texts.len() as u64 {
        hashes.push_reserved(state.hash_of(texts.text(n)));
    }
    Ok(hashes)
}

/// Estimates how many of the texts with these hashes the dictionary lacks.
///
/// Reads the first slot of each hash, one after the other, and so brings them into the cache of the processor. The look-ups
/// that follow do not wait for memory.
pub(crate) fn count_lacking(dict: &TextDict, hashes: &[u64]) -> usize {
    let mut count = 0usize;
    for hash in hashes {
        if dict.may_lack(*hash) {
            count = count.saturating_add(1);
        }
    }
    count
}

/// Estimates how many of the slices with these hashes the dictionary lacks, as `count_lacking`.
pub(crate) fn count_lacking_slices(dict: &TextDict, hashes: &[SliceHashes]) -> usize {
    let mut count = 0usize;
    for it in hashes {
        count = count.saturating_add(count_lacking(dict, &[it.subject, it.predicate, it.object]));
        if it.graph != 0 {
            count = count.saturating_add(count_lacking(dict, &[it.graph]));
        }
    }
    count
}
