//! Which lines of the lists of a partition are new.
ghost use Rattle.std.specs.Prelude.{◌≡◌, ◌++◌, List, ℕ, IfErr, IfOk, OnOk};
ghost use Rattle.nquads_core.specs.Lines.{lines};
ghost use Rattle.cluster_parts.specs.Seal.{AreSealed, IsFaultOf, all_sealed};
ghost use Rattle.cluster_parts.specs.Terms.{mark, marks};
ghost use Rattle.cluster_parts.specs.Known.{AreKnown};
ghost use Rattle.cluster_parts.specs.Output.{AreFirst};

use crate::known_lines::add_line;
use crate::sealing::{SealFault, first_sealed, length_of, push_sealed};
use indexmap::IndexSet;
use keyed_hash::HashState;
use nquads_core::first_line;
use std::alloc::{AllocError, Global};
use std::hash::RandomState;

/// Returns the mark of a line: 1 if it is new, and 0 otherwise.
fn mark_of(is_new: bool) -> u8
    ensures value { result ≡ mark is_new }
{
    if is_new { 1 } else { 0 }
}

/// Adds the lines of a list to those that are known, and returns the mark of each.
fn marks_of<'a>(
    alloc: Global,
    known: &mut IndexSet<&'a [u8], HashState>,
    list: &'a [u8],
) -> Result<Vec<u8>, AllocError>
    ensures marks { IfOk result (λ made. (earlier : List (List ℕ)) → AreKnown earlier known.old
        → made.items ≡ marks earlier (lines list.now)) }
    ensures known { OnOk result ((earlier : List (List ℕ)) → AreKnown earlier known.old
        → AreKnown (earlier ++ lines list.now) known.new) }
{
    let mut made = Vec::new(alloc);
    let mut rest = list;
    while !rest.is_empty() {
        let (line, after) = first_line(rest);
        let is_new = add_line(known, line)?;
        made.push(mark_of(is_new))?;
        rest = after;
    }
    Ok(made)
}

/// Returns, for each of the sealed lists of a partition, the mark of each line: 1 if neither a list before it nor the list
/// itself before the line has it, and 0 otherwise (`AreFirst`).
///
/// # Errors
/// - `Version` if a text begins with another head.
/// - `Damaged` if a text is shorter than its length says, or has another checksum.
/// - `Memory` if an allocation fails.
///
/// With `Version` and `Damaged`, the bytes are not sealed texts (`AreSealed`).
pub fn first_terms(alloc: Global, state: RandomState, bytes: &[u8]) -> Result<Vec<u8>, SealFault>
    ensures firsts { IfOk result (λ out. (texts : List (List ℕ)) × (firsts : List (List ℕ))
        × (bytes.now ≡ all_sealed texts) × AreFirst texts firsts × (out.items ≡ all_sealed firsts)) }
    ensures fault { IfErr result (IsFaultOf (AreSealed bytes.now) bytes.now) }
{
    let _len = length_of(bytes);
    let mut known = IndexSet::with_hasher(alloc, HashState::new(state));
    let mut out = Vec::new(alloc);
    let mut rest = bytes;
    while !rest.is_empty() {
        let (list, after) = first_sealed(rest)?;
        let made = marks_of(alloc, &mut known, list)?;
        push_sealed(&mut out, made.as_slice())?;
        rest = after;
    }
    Ok(out)
}
