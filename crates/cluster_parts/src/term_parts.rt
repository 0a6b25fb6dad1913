//! The terms of a block, in order and by partition.
ghost use Rattle.std.specs.Prelude.{◌≡◌, ◌<◌, ◌++◌, ℕ, List, length, map, IfErr, IfOk, OnOk};
ghost use Rattle.rdf_core.specs.QuadParts.{QuadParts};
ghost use Rattle.nquads_core.specs.Lines.{lines};
ghost use Rattle.nquads_core.specs.Pieces.{HaveStatements, IsFirstMalformed};
ghost use Rattle.nquads_core.specs.declared.fault.PieceFault.TheVariants.{BadLine};
ghost use Rattle.dict_core.specs.Appearances.{first_appearances, terms_of};
ghost use Rattle.cluster_parts.specs.Hash.{hash};
ghost use Rattle.cluster_parts.specs.Keys.{remainders};
ghost use Rattle.cluster_parts.specs.Parts.{texts_below};
ghost use Rattle.cluster_parts.specs.Known.{lines_part, lines_parts};
ghost use Rattle.cluster_parts.specs.Output.{terms_parts};

use crate::hashing::text_hashes;
use crate::numbering::number_lines;
use crate::partitions::remainders;
use crate::sealing::{push_sealed, push_sealed_number};
use crate::term_lists::{all_lines, push_lines_part};
use nquads_core::PieceFault;
use std::alloc::{AllocError, Global};
use std::hash::RandomState;
use text_dict::TextDict;

/// Appends the sealed texts of each partition.
fn push_line_parts(
    alloc: Global,
    out: &mut Vec<u8>,
    texts: &TextDict,
    parts: &[u64],
    partitions: u64,
) -> Result<(), AllocError>
    requires hashed { parts.now ≡ remainders partitions (map hash texts.now.texts) }
    requires some { 0 < partitions }
    ensures appended { OnOk result
        (out.new.items ≡ out.old.items ++ texts_below (lines_part partitions texts.now.texts) partitions) }
{
    for number in 0..partitions {
        push_lines_part(alloc, out, texts, parts, partitions, number)?;
    }
    Ok(())
}

/// Returns the parts of the texts of a block with this number of lines.
fn parts_of_texts(
    alloc: Global,
    texts: &TextDict,
    count: u64,
    partitions: u64,
) -> Result<Vec<u8>, AllocError>
    requires some { 0 < partitions }
    ensures parts { IfOk result (λ out. out.items ≡ lines_parts partitions count texts.now.texts) }
{
    let hashes = text_hashes(alloc, texts)?;
    let parts = remainders(alloc, hashes.as_slice(), partitions)?;
    let whole = all_lines(alloc, texts)?;
    let mut out = Vec::new(alloc);
    push_sealed_number(alloc, &mut out, count)?;
    push_sealed(&mut out, whole.as_slice())?;
    push_line_parts(alloc, &mut out, texts, parts.as_slice(), partitions)?;
    Ok(out)
}

/// Reads a block of whole lines, and splits its distinct terms by partition (`terms_parts`).
///
/// The first sealed text is the number of lines, as eight bytes. Then comes the list of the distinct terms by first
/// appearance, each on a line of its own, and then such a list for each partition.
///
/// # Requires
/// There is at least one partition.
///
/// # Errors
/// - `BadLine(k)` if line k of the block, counted from 0, is the first that is malformed.
/// - `Memory` if an allocation fails.
pub fn split_for_terms(
    alloc: Global,
    state: RandomState,
    block: &[u8],
    partitions: u64,
) -> Result<Vec<u8>, PieceFault>
    requires some { 0 < partitions }
    ensures parts { IfOk result (λ out. (quads : List QuadParts) × HaveStatements (lines block.now) quads
        × (out.items ≡ terms_parts partitions (length (lines block.now)) (first_appearances (terms_of quads)))) }
    ensures bad_line { IfErr result
        (λ fault. (k : ℕ) → fault ≡ BadLine k → IsFirstMalformed (lines block.now) k) }
{
    let found = number_lines(alloc, state, block)?;
    match parts_of_texts(alloc, &found.texts, found.lines, partitions) {
        Ok(out) => Ok(out),
        Err(_) => Err(PieceFault::Memory),
    }
}
