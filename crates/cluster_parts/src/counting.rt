//! The number of distinct lines.
ghost use Rattle.std.specs.Prelude.{◌≡◌, ◌++◌, [], List, ℕ, length, IfErr, IfOk, OnOk};
ghost use Rattle.std.specs.Str.{bytes_eq};
ghost use Rattle.algebra_model.specs.Bag.{without_repeats};
ghost use Rattle.nquads_core.specs.Lines.{lines};
ghost use Rattle.cluster_parts.specs.Seal.{AreSealed, IsFaultOf, all_sealed};
ghost use Rattle.cluster_parts.specs.Known.{AreKnown};
ghost use Rattle.cluster_parts.specs.Output.{distinct_lines};

use crate::known_lines::add_line;
use crate::sealing::{SealFault, first_sealed, length_of};
use indexmap::IndexSet;
use keyed_hash::HashState;
use nquads_core::first_line;
use std::alloc::{AllocError, Global};
use std::hash::RandomState;

/// Adds the lines of a text to those that are known.
fn add_lines<'a>(
    known: &mut IndexSet<&'a [u8], HashState>,
    text: &'a [u8],
) -> Result<(), AllocError>
    ensures known { OnOk result ((earlier : List (List ℕ)) → AreKnown earlier known.old
        → AreKnown (earlier ++ lines text.now) known.new) }
{
    let mut rest = text;
    while !rest.is_empty() {
        let (line, after) = first_line(rest);
        add_line(known, line)?;
        rest = after;
    }
    Ok(())
}

/// Returns how many lines are known.
fn count_known(known: &IndexSet<&[u8], HashState>) -> u64
    ensures count { (ls : List (List ℕ)) → AreKnown ls known.now → result ≡ length (without_repeats bytes_eq ls) }
{
    known.len() as u64
}

/// Returns the number of distinct lines of sealed texts (`distinct_lines`).
///
/// # Errors
/// - `Version` if a text begins with another head.
/// - `Damaged` if a text is shorter than its length says, or has another checksum.
/// - `Memory` if an allocation fails.
///
/// With `Version` and `Damaged`, the bytes are not sealed texts (`AreSealed`).
pub fn count_lines(alloc: Global, state: RandomState, bytes: &[u8]) -> Result<u64, SealFault>
    ensures count { IfOk result (λ n. (texts : List (List ℕ)) × (bytes.now ≡ all_sealed texts) × (n ≡ distinct_lines texts)) }
    ensures fault { IfErr result (IsFaultOf (AreSealed bytes.now) bytes.now) }
{
    let _len = length_of(bytes);
    let mut known = IndexSet::with_hasher(alloc, HashState::new(state));
    let mut rest = bytes;
    while !rest.is_empty() {
        let (text, after) = first_sealed(rest)?;
        add_lines(&mut known, text)?;
        rest = after;
    }
    Ok(count_known(&known))
}
