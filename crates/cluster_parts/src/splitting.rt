//! The parts of a block, by partition.
ghost use Rattle.std.specs.Prelude.{◌≡◌, ◌<◌, ◌∷◌, ◌++◌, [], if◌then◌else◌, ℕ, List, length, map, IfErr, IfOk, IsSorted, OnOk};
ghost use Rattle.std.specs.Ordering.{nat_cmp};
ghost use Rattle.rdf_core.specs.QuadParts.{QuadParts};
ghost use Rattle.nquads_core.specs.Lines.{lines};
ghost use Rattle.nquads_core.specs.Pieces.{HaveStatements, IsFirstMalformed};
ghost use Rattle.nquads_core.specs.declared.fault.PieceFault.TheVariants.{BadLine};
ghost use Rattle.algebra_model.specs.Dataset.{names};
ghost use Rattle.text_pieces.specs.Forms.{AreFormsOf};
ghost use Rattle.cluster_parts.specs.Hash.{hash};
ghost use Rattle.cluster_parts.specs.Keys.{remainders};
ghost use Rattle.cluster_parts.specs.NumberList.{FitInEightBytes};
ghost use Rattle.cluster_parts.specs.Parts.{hashes_in, is_in, texts_below};
ghost use Rattle.cluster_parts.specs.Known.{counted_part};
ghost use Rattle.cluster_parts.specs.Numbered.{AreQuadsOf};
ghost use Rattle.cluster_parts.specs.Output.{AreHashesOf, check_parts};

use crate::graph_names::names_of;
use crate::hashing::text_hashes;
use crate::number_lists::{numbers_fit, push_one, push_sealed_list};
use crate::numbering::{NumberedLines, number_lines};
use crate::partitions::{is_in, remainders};
use crate::quad_hashes::distinct_hashes_of;
use crate::sealing::push_sealed_number;
use crate::term_lists::push_lines_part;
use nquads_core::PieceFault;
use std::alloc::{AllocError, Global};
use std::hash::RandomState;
use text_dict::TextDict;

/// Appends a hash, if the partition has it. `part` is the number of its partition.
fn push_if_in(
    out: &mut Vec<u64>,
    hash: u64,
    part: u64,
    partitions: u64,
    number: u64,
) -> Result<(), AllocError>
    requires some { 0 < partitions }
    ensures appended { OnOk result (out.new.items
        ≡ out.old.items ++ (if is_in partitions number part then hash ∷ [] else [])) }
{
    if is_in(partitions, number, part) {
        push_one(out, hash)?;
    }
    Ok(())
}

/// Returns the hashes of a partition. `parts` are the numbers of the partitions of all hashes.
fn hashes_part(
    alloc: Global,
    hashes: &[u64],
    parts: &[u64],
    partitions: u64,
    number: u64,
) -> Result<Vec<u64>, AllocError>
    requires reduced { parts.now ≡ remainders partitions hashes.now }
    requires all { length parts.now ≡ length hashes.now }
    requires some { 0 < partitions }
    ensures list { IfOk result (λ chosen. chosen.items ≡ hashes_in partitions number hashes.now) }
{
    let mut chosen = Vec::new(alloc);
    for i in 0..hashes.len() {
        push_if_in(&mut chosen, hashes[i], parts[i], partitions, number)?;
    }
    Ok(chosen)
}

/// The graph names of a block, the hashes of its distinct quads, and the numbers of the partitions of its terms, names and quads.
#[derive(Drop)]
struct Counting {
    names: TextDict,
    term_parts: Vec<u64>,
    name_parts: Vec<u64>,
    quad_hashes: Vec<u64>,
    quad_parts: Vec<u64>,
}

/// Appends the part of a partition.
fn push_part(
    alloc: Global,
    out: &mut Vec<u8>,
    terms: &TextDict,
    counting: &Counting,
    partitions: u64,
    number: u64,
) -> Result<(), AllocError>
    requires terms { counting.now.term_parts.items ≡ remainders partitions (map hash terms.now.texts) }
    requires names { counting.now.name_parts.items ≡ remainders partitions (map hash counting.now.names.texts) }
    requires quads { counting.now.quad_parts.items ≡ remainders partitions counting.now.quad_hashes.items }
    requires all { length counting.now.quad_parts.items ≡ length counting.now.quad_hashes.items }
    requires some { 0 < partitions }
    ensures appended { OnOk result (out.new.items ≡ out.old.items ++ counted_part partitions terms.now.texts
        counting.now.names.texts counting.now.quad_hashes.items number) }
{
    let parts = counting.term_parts.as_slice();
    push_lines_part(alloc, out, terms, parts, partitions, number)?;
    let parts = counting.name_parts.as_slice();
    push_lines_part(alloc, out, &counting.names, parts, partitions, number)?;
    let hashes = counting.quad_hashes.as_slice();
    let parts = counting.quad_parts.as_slice();
    let part = hashes_part(alloc, hashes, parts, partitions, number)?;
    push_sealed_list(alloc, out, part.as_slice())
}

/// Finds what is counted of a block.
fn counting_of(
    alloc: Global,
    state: RandomState,
    block: &NumberedLines,
    partitions: u64,
) -> Result<Counting, AllocError>
    requires read { (quads : List QuadParts) × AreQuadsOf quads block.now }
    requires some { 0 < partitions }
    ensures terms { IfOk result (λ counting. counting.term_parts.items ≡ remainders partitions (map hash block.now.texts.texts)) }
    ensures names { IfOk result (λ counting. (quads : List QuadParts) → AreQuadsOf quads block.now
        → AreFormsOf (names quads) counting.names.texts) }
    ensures name_parts { IfOk result (λ counting. counting.name_parts.items
        ≡ remainders partitions (map hash counting.names.texts)) }
    ensures quad_parts { IfOk result (λ counting. counting.quad_parts.items ≡ remainders partitions counting.quad_hashes.items) }
    ensures all { IfOk result (λ counting. length counting.quad_parts.items ≡ length counting.quad_hashes.items) }
    ensures quads { IfOk result (λ counting. (quads : List QuadParts) → AreQuadsOf quads block.now
        → AreHashesOf quads counting.quad_hashes.items) }
    ensures ascending { IfOk result (λ counting. IsSorted nat_cmp counting.quad_hashes.items) }
    ensures fit { IfOk result (λ counting. FitInEightBytes counting.quad_hashes.items) }
{
    let names = names_of(alloc, state, block)?;
    let term_hashes = text_hashes(alloc, &block.texts)?;
    let name_hashes = text_hashes(alloc, &names)?;
    let quad_hashes = distinct_hashes_of(alloc, term_hashes.as_slice(), block)?;
    let term_parts = remainders(alloc, term_hashes.as_slice(), partitions)?;
    let name_parts = remainders(alloc, name_hashes.as_slice(), partitions)?;
    let quad_parts = remainders(alloc, quad_hashes.as_slice(), partitions)?;
    numbers_fit(quad_hashes.as_slice());
    Ok(Counting {
        names,
        term_parts,
        name_parts,
        quad_hashes,
        quad_parts,
    })
}

/// Appends the parts of all partitions.
fn push_parts(
    alloc: Global,
    out: &mut Vec<u8>,
    terms: &TextDict,
    counting: &Counting,
    partitions: u64,
) -> Result<(), AllocError>
    requires terms { counting.now.term_parts.items ≡ remainders partitions (map hash terms.now.texts) }
    requires names { counting.now.name_parts.items ≡ remainders partitions (map hash counting.now.names.texts) }
    requires quads { counting.now.quad_parts.items ≡ remainders partitions counting.now.quad_hashes.items }
    requires all { length counting.now.quad_parts.items ≡ length counting.now.quad_hashes.items }
    requires some { 0 < partitions }
    ensures appended { OnOk result (out.new.items ≡ out.old.items ++ texts_below (counted_part partitions
        terms.now.texts counting.now.names.texts counting.now.quad_hashes.items) partitions) }
{
    for number in 0..partitions {
        push_part(alloc, out, terms, counting, partitions, number)?;
    }
    Ok(())
}

/// Returns the parts of a block that has been read.
fn parts_of(
    alloc: Global,
    state: RandomState,
    block: &NumberedLines,
    partitions: u64,
) -> Result<Vec<u8>, AllocError>
    requires read { (quads : List QuadParts) × AreQuadsOf quads block.now }
    requires some { 0 < partitions }
    ensures parts { IfOk result (λ out. (quads : List QuadParts) → AreQuadsOf quads block.now
        → (hashes : List ℕ) × AreHashesOf quads hashes × IsSorted nat_cmp hashes × FitInEightBytes hashes
        × (out.items ≡ check_parts partitions block.now.lines quads hashes)) }
{
    let counting = counting_of(alloc, state, block, partitions)?;
    let mut out = Vec::new(alloc);
    push_sealed_number(alloc, &mut out, block.lines)?;
    push_parts(alloc, &mut out, &block.texts, &counting, partitions)?;
    Ok(out)
}

/// Reads a block of whole lines, and splits what `check` counts of it by partition (`check_parts`).
///
/// The first sealed text is the number of lines, as eight bytes. Then come three sealed texts for each partition: its
/// distinct terms and its distinct graph names, each on a line of its own, and the hashes of its distinct quads in ascending
/// order.
///
/// # Requires
/// There is at least one partition.
///
/// # Errors
/// - `BadLine(k)` if line k of the block, counted from 0, is the first that is malformed.
/// - `Memory` if an allocation fails.
pub fn split_for_check(
    alloc: Global,
    state: RandomState,
    block: &[u8],
    partitions: u64,
) -> Result<Vec<u8>, PieceFault>
    requires some { 0 < partitions }
    ensures parts { IfOk result (λ out. (quads : List QuadParts) × (hashes : List ℕ) × HaveStatements (lines block.now) quads
        × AreHashesOf quads hashes × IsSorted nat_cmp hashes × FitInEightBytes hashes
        × (out.items ≡ check_parts partitions (length (lines block.now)) quads hashes)) }
    ensures bad_line { IfErr result
        (λ fault. (k : ℕ) → fault ≡ BadLine k → IsFirstMalformed (lines block.now) k) }
{
    let numbered = number_lines(alloc, state, block)?;
    match parts_of(alloc, state, &numbered, partitions) {
        Ok(out) => Ok(out),
        Err(_) => Err(PieceFault::Memory),
    }
}
