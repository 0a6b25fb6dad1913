//! The quads of a block whose hashes occur more than once.
ghost use Rattle.std.specs.Prelude.{◌≡◌, ◌<◌, ℕ, List, Some, None, if◌then◌else◌, length, map, nat_eq, IfErr, IfOk};
ghost use Rattle.indexmap.specs.IndexSet.{contains};
ghost use Rattle.rdf_core.specs.QuadParts.{QuadParts};
ghost use Rattle.nquads_core.specs.Lines.{lines};
ghost use Rattle.nquads_core.specs.Pieces.{HaveStatements, IsFirstMalformed};
ghost use Rattle.nquads_core.specs.declared.fault.PieceFault.TheVariants.{BadLine};
ghost use Rattle.cluster_parts.specs.Numbered.{AreQuadsOf};
ghost use Rattle.cluster_parts.specs.Output.{again_parts};

use crate::hashing::text_hashes;
use crate::keyed::push_keyed_parts;
use crate::numbering::{NumberedLines, number_lines};
use crate::quad_hashes::quad_hashes_of;
use crate::repeated::set_of;
use indexmap::IndexSet;
use keyed_hash::HashState;
use nquads_core::PieceFault;
use std::alloc::{AllocError, Global};
use std::hash::RandomState;

/// Returns the hash, if the set has it.
fn key_among(set: &IndexSet<u64, HashState>, hash: u64) -> Option<u64>
    ensures key { result ≡ (if contains nat_eq set.now hash then Some hash else None) }
{
    if set.contains(&hash) {
        Some(hash)
    } else {
        None
    }
}

/// Returns the key of each quad: its hash, if it is one of these hashes.
fn keys_among(
    alloc: Global,
    quad_hashes: &[u64],
    set: &IndexSet<u64, HashState>,
) -> Result<Vec<Option<u64>>, AllocError>
    ensures keys { IfOk result (λ keys. keys.items
        ≡ map (λ h. if contains nat_eq set.now h then Some h else None) quad_hashes.now) }
{
    let mut keys = Vec::with_capacity(alloc, quad_hashes.len())?;
    for hash in quad_hashes {
        keys.push(key_among(set, *hash))?;
    }
    Ok(keys)
}

/// Returns the quads of a block that have one of the hashes, by partition.
fn parts_again(
    alloc: Global,
    state: RandomState,
    block: &NumberedLines,
    hashes: &[u64],
    partitions: u64,
) -> Result<Vec<u8>, AllocError>
    requires read { (quads : List QuadParts) × AreQuadsOf quads block.now }
    requires some { 0 < partitions }
    ensures parts { IfOk result (λ out. (quads : List QuadParts) → AreQuadsOf quads block.now
        → out.items ≡ again_parts hashes.now partitions quads) }
{
    let term_hashes = text_hashes(alloc, &block.texts)?;
    let quad_hashes = quad_hashes_of(alloc, term_hashes.as_slice(), block)?;
    let set = set_of(alloc, state, hashes)?;
    let keys = keys_among(alloc, quad_hashes.as_slice(), &set)?;
    let mut out = Vec::new(alloc);
    push_keyed_parts(alloc, &mut out, block, keys.as_slice(), partitions)?;
    Ok(out)
}

/// Reads a block of whole lines, and returns its quads that have one of the hashes (`again_parts`): a sealed document of
/// N-Quads for each partition.
///
/// # Requires
/// There is at least one partition.
///
/// # Errors
/// - `BadLine(k)` if line k of the block, counted from 0, is the first that is malformed.
/// - `Memory` if an allocation fails.
pub fn split_again(
    alloc: Global,
    state: RandomState,
    hashes: &[u64],
    block: &[u8],
    partitions: u64,
) -> Result<Vec<u8>, PieceFault>
    requires some { 0 < partitions }
    ensures parts { IfOk result (λ out. (quads : List QuadParts) × HaveStatements (lines block.now) quads
        × (out.items ≡ again_parts hashes.now partitions quads)) }
    ensures bad_line { IfErr result
        (λ fault. (k : ℕ) → fault ≡ BadLine k → IsFirstMalformed (lines block.now) k) }
{
    let numbered = number_lines(alloc, state, block)?;
    match parts_again(alloc, state, &numbered, hashes, partitions) {
        Ok(out) => Ok(out),
        Err(_) => Err(PieceFault::Memory),
    }
}
