//! The quads of a block by subject or by graph name.
ghost use Rattle.std.specs.Prelude.{◌≡◌, ◌<◌, ◌%◌, ℕ, List, length, map, IfErr, IfOk};
ghost use Rattle.std.specs.Option.{option_map};
ghost use Rattle.rdf_core.specs.QuadParts.{QuadParts};
ghost use Rattle.nquads_core.specs.Lines.{lines};
ghost use Rattle.nquads_core.specs.Pieces.{HaveStatements, IsFirstMalformed};
ghost use Rattle.nquads_core.specs.declared.fault.PieceFault.TheVariants.{BadLine};
ghost use Rattle.dict_core.specs.NumQuad.{AreBelow, IsBelow};
ghost use Rattle.cluster_parts.specs.Keys.{key_by_numbers, key_of, reduced_key};
ghost use Rattle.cluster_parts.specs.Numbered.{AreQuadsOf};
ghost use Rattle.cluster_parts.specs.Output.{keyed_parts};

use crate::hashing::text_hashes;
use crate::keyed::{part_of, push_keyed_parts};
use crate::numbering::{NumberedLines, number_lines};
use crate::sealing::{push_sealed, push_sealed_number};
use dict_core::NumQuad;
use nquads_core::PieceFault;
use std::alloc::{AllocError, Global};
use std::hash::RandomState;

/// What decides the partition of a quad.
#[derive(Clone, Copy)]
pub enum QuadKey {
    /// The subject.
    Subject,
    /// The graph name. Quads of the default graph are in no partition.
    Graph,
}

/// Returns the key of a quad of numbers. `hashes` are those of the terms.
fn key_of_quad(hashes: &[u64], quad: &NumQuad, key: &QuadKey) -> Option<u64>
    requires below { IsBelow (length hashes.now) quad.now }
    ensures value { result ≡ key_by_numbers key.now hashes.now quad.now }
{
    match key {
        QuadKey::Subject => Some(hashes[quad.s as usize]),
        QuadKey::Graph => match quad.g {
            Some(name) => Some(hashes[name as usize]),
            None => None,
        },
    }
}

/// Returns the number of the partition that has a key.
fn reduced(key: Option<u64>, partitions: u64) -> Option<u64>
    requires some { 0 < partitions }
    ensures value { result ≡ option_map (λ h. h % partitions) key }
{
    match key {
        Some(key) => Some(key % partitions),
        None => None,
    }
}

/// Returns the number of the partition that has the key of each quad.
fn reduced_keys(
    alloc: Global,
    hashes: &[u64],
    quads: &[NumQuad],
    key: &QuadKey,
    partitions: u64,
) -> Result<Vec<Option<u64>>, AllocError>
    requires below { AreBelow (length hashes.now) quads.now }
    requires some { 0 < partitions }
    ensures keys { IfOk result (λ made. made.items
        ≡ map (λ q. option_map (λ h. h % partitions) (key_by_numbers key.now hashes.now q)) quads.now) }
{
    let mut made = Vec::with_capacity(alloc, quads.len())?;
    for quad in quads {
        made.push(reduced(key_of_quad(hashes, quad, key), partitions))?;
    }
    Ok(made)
}

/// Returns the numbers of the partitions that have the quads of a block. They are keys, too: each partition has the same
/// quads by them, and finds them without a division.
fn reduced_keys_of(
    alloc: Global,
    block: &NumberedLines,
    key: &QuadKey,
    partitions: u64,
) -> Result<Vec<Option<u64>>, AllocError>
    requires read { (quads : List QuadParts) × AreQuadsOf quads block.now }
    requires some { 0 < partitions }
    ensures keys { IfOk result (λ keys. (quads : List QuadParts) → AreQuadsOf quads block.now
        → keys.items ≡ map (reduced_key partitions (key_of key.now)) quads) }
{
    let hashes = text_hashes(alloc, &block.texts)?;
    reduced_keys(
        alloc,
        hashes.as_slice(),
        block.quads.as_slice(),
        key,
        partitions,
    )
}

/// Returns the parts of a block that has been read.
fn parts_by_key(
    alloc: Global,
    block: &NumberedLines,
    key: &QuadKey,
    partitions: u64,
) -> Result<Vec<u8>, AllocError>
    requires read { (quads : List QuadParts) × AreQuadsOf quads block.now }
    requires some { 0 < partitions }
    ensures parts { IfOk result (λ out. (quads : List QuadParts) → AreQuadsOf quads block.now
        → out.items ≡ keyed_parts (key_of key.now) partitions block.now.lines quads) }
{
    let keys = reduced_keys_of(alloc, block, key, partitions)?;
    let unkeyed = part_of(alloc, block, keys.as_slice(), partitions, None)?;
    let mut out = Vec::new(alloc);
    push_sealed_number(alloc, &mut out, block.lines)?;
    push_sealed(&mut out, unkeyed.as_slice())?;
    push_keyed_parts(alloc, &mut out, block, keys.as_slice(), partitions)?;
    Ok(out)
}

/// Reads a block of whole lines, and splits its quads by partition (`keyed_parts`).
///
/// The first sealed text is the number of lines, as eight bytes. Then come the quads without a key, as a document of
/// canonical N-Quads, and then such a document for each partition.
///
/// # Requires
/// There is at least one partition.
///
/// # Errors
/// - `BadLine(k)` if line k of the block, counted from 0, is the first that is malformed.
/// - `Memory` if an allocation fails.
pub fn split_quads(
    alloc: Global,
    state: RandomState,
    block: &[u8],
    key: &QuadKey,
    partitions: u64,
) -> Result<Vec<u8>, PieceFault>
    requires some { 0 < partitions }
    ensures parts { IfOk result (λ out. (quads : List QuadParts) × HaveStatements (lines block.now) quads
        × (out.items ≡ keyed_parts (key_of key.now) partitions (length (lines block.now)) quads)) }
    ensures bad_line { IfErr result
        (λ fault. (k : ℕ) → fault ≡ BadLine k → IsFirstMalformed (lines block.now) k) }
{
    let numbered = number_lines(alloc, state, block)?;
    match parts_by_key(alloc, &numbered, key, partitions) {
        Ok(out) => Ok(out),
        Err(_) => Err(PieceFault::Memory),
    }
}
