//! The counts of an index in parts, which may be counted in parallel.
//!
//! Each quad is in one of [`PARTS`] parts. So the distinct quads of the parts are, together, the distinct quads, and
//! nothing is merged.
ghost use Rattle.std.specs.Prelude.{◌≡◌, ◌||◌, ℕ, length, filter, map, nat_eq, IfOk, OnOk};
ghost use Rattle.std.specs.List.{list_any};
ghost use Rattle.algebra_model.specs.Bag.{without_repeats};
ghost use Rattle.dict_core.specs.Equality.{quad_eq};
ghost use Rattle.quad_index.specs.Matching.{graph_names};
ghost use Rattle.quad_index.specs.Packed.{quad_of};
ghost use Rattle.quad_index.specs.Parts.{count_in_part, is_in, part_of};

use crate::counting::{count_keys, count_plain};
use crate::packed::quad_of;
use crate::quad_list::{QuadList, Stored};
use crate::quads::Quads;
use crate::sort_order::SortOrder;
use dict_core::NumQuad;
use std::alloc::{AllocError, Global};

/// The number of parts. Each part is one pass over the quads, so they are few.
pub const PARTS: u64 = 8;

/// Sums of numbers that are in a block of this length are in the same part. The order of the quads of a part is then mostly
/// that of the document, and sorted runs stay long.
const BLOCK: u64 = 256;

/// One more than the largest number that counts for the part of a quad.
const LIMIT: u64 = 1 << 32;

/// Counts the quads of a part. A repeated quad counts once.
///
/// The quads are only borrowed, so that parts may be counted in parallel. The keys of one part are in memory.
///
/// # Errors
/// `AllocError` if an allocation fails.
pub fn count_part(alloc: Global, quads: &QuadList, part: u64) -> Result<u64, AllocError>
    ensures count { IfOk result (λ n. n ≡ count_in_part part quads.now) }
{
    let counts = match &quads.stored {
        Stored::Packed(keys, order) => {
            count_keys(keys_in_part(alloc, keys.as_slice(), *order, part)?)?
        }
        Stored::Plain(list) => count_plain(alloc, quads_in_part(alloc, list.as_slice(), part)?)?,
    };
    Ok(counts.quads)
}

/// Counts the graph names of quads. A repeated name counts once.
///
/// # Errors
/// `AllocError` if an allocation fails.
pub fn count_names(alloc: Global, quads: &QuadList) -> Result<u64, AllocError>
    ensures count { IfOk result
        (λ n. n ≡ length (without_repeats nat_eq (graph_names quads.now))) }
{
    let mut names = some_names(alloc, &quads.quads())?;
    names.sort()?;
    names.dedup();
    Ok(names.len() as u64)
}

/// Returns the part of a quad.
#[inline(always)]
fn part_of(quad: &NumQuad) -> u64
    ensures part { result ≡ part_of quad.now }
{
    (quad.s % LIMIT + quad.o % LIMIT) / BLOCK % PARTS
}

/// Returns the keys of the quads of a part.
fn keys_in_part(
    alloc: Global,
    keys: &[u128],
    order: SortOrder,
    part: u64,
) -> Result<Vec<u128>, AllocError>
    ensures keys { IfOk result (λ found. map (quad_of order) found.items
        ≡ filter (is_in part) (map (quad_of order) keys.now)) }
{
    let mut found = Vec::new(alloc);
    for key in keys {
        if part_of(&quad_of(order, *key)) == part {
            found.push(*key)?;
        }
    }
    Ok(found)
}

/// Returns the quads of a part.
fn quads_in_part(alloc: Global, quads: &[NumQuad], part: u64) -> Result<Vec<NumQuad>, AllocError>
    ensures quads { IfOk result (λ list. list.items ≡ filter (is_in part) quads.now) }
{
    let mut list = Vec::new(alloc);
    for quad in quads {
        if part_of(quad) == part {
            list.push(*quad)?;
        }
    }
    Ok(list)
}

/// Returns the graph names. A name that is also that of the quad before is not repeated.
fn some_names(alloc: Global, quads: &Quads<'_>) -> Result<Vec<u64>, AllocError>
    ensures same { IfOk result (λ names. (n : ℕ)
        → list_any (nat_eq n) names.items ≡ list_any (nat_eq n) (graph_names quads.now)) }
{
    let mut names = Vec::new(alloc);
    for place in 0..quads.len() {
        if let Some(name) = quads.get(place).g {
            add_name(&mut names, name)?;
        }
    }
    Ok(names)
}

/// Appends a name, unless it is the last one.
#[inline(always)]
fn add_name(names: &mut Vec<u64>, name: u64) -> Result<(), AllocError>
    ensures added { OnOk result ((n : ℕ) → list_any (nat_eq n) names.new.items
        ≡ (list_any (nat_eq n) names.old.items || nat_eq n name)) }
{
    let count = names.len();
    if count > 0 && names[count - 1] == name {
        return Ok(());
    }
    names.push(name)?;
    Ok(())
}
