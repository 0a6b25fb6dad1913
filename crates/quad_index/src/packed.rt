//! Quads as packed keys.
//!
//! Four numbers of 32 bits are packed into a key of 128 bits. The order of the keys is the order of the quads.
//! Keys take less memory than quads, and are sorted several times faster.
ghost use Rattle.std.specs.Prelude.{◌≡◌, ◌++◌, true, map, All, IfOk, IsPermutation, IsSorted, OnErr, OnOk};
ghost use Rattle.algebra_model.specs.Bag.{IsWithoutRepeats, without_repeats};
ghost use Rattle.dict_core.proofs.NumQuadLaws.{quad_eq};
ghost use Rattle.quad_index.specs.Packed.{AreKeys, IsSmall, graph_key_of, key_of, quad_of};
ghost use Rattle.quad_index.specs.SortOrder.{order_cmp};

use crate::sort_order::SortOrder;
use dict_core::NumQuad;
use std::alloc::{AllocError, Global};

/// One more than the largest number of a place.
const PLACE: u128 = 1 << 32;

/// The least number that is not packed.
const TOO_LARGE: u64 = 0xFFFF_FFFF;

/// Returns the keys of the same quads in another order, sorted, each once.
///
/// # Errors
/// `AllocError` if an allocation fails.
pub(crate) fn sorted_keys(
    alloc: Global,
    keys: &[u128],
    from: SortOrder,
    order: SortOrder,
) -> Result<Vec<u128>, AllocError>
    ensures sorted { IfOk result
        (λ sorted. IsSorted (order_cmp order) (map (quad_of order) sorted.items)) }
    ensures each_once { IfOk result
        (λ sorted. IsPermutation (without_repeats quad_eq (map (quad_of from) keys.now))
        (map (quad_of order) sorted.items)) }
    ensures distinct { IfOk result
        (λ sorted. IsWithoutRepeats quad_eq (map (quad_of order) sorted.items)) }
{
    let mut sorted = packed_anew(alloc, keys, from, order)?;
    keys_fit(sorted.as_slice());
    sorted.sort()?;
    sorted.dedup();
    sorted.shrink_to_fit();
    Ok(sorted)
}

/// Returns the keys of the same quads in another order.
fn packed_anew(
    alloc: Global,
    keys: &[u128],
    from: SortOrder,
    order: SortOrder,
) -> Result<Vec<u128>, AllocError>
    ensures same { IfOk result
        (λ packed. map (quad_of order) packed.items ≡ map (quad_of from) keys.now) }
{
    if is_same_order(from, order) {
        return Vec::from_slice(alloc, keys);
    }
    let mut packed = Vec::with_capacity(alloc, keys.len())?;
    for key in keys {
        packed.push_reserved(key_of(order, &quad_of(from, *key)));
    }
    Ok(packed)
}

/// Returns whether two orders are the same.
fn is_same_order(a: SortOrder, b: SortOrder) -> bool
    ensures same { result ≡ true → a ≡ b }
{
    a == b
}

/// Does nothing. Says that each number of the type `u128` is a key.
pub(crate) fn keys_fit(_keys: &[u128])
    ensures fit { AreKeys _keys.now }
{}

/// Appends the keys of quads.
///
/// # Errors
/// `AllocError` if an allocation fails. The keys are unchanged.
pub(crate) fn push_keys(
    keys: &mut Vec<u128>,
    order: SortOrder,
    quads: &[NumQuad],
) -> Result<(), AllocError>
    requires small { All IsSmall quads.now }
    ensures added { OnOk result
        (map (quad_of order) keys.new.items ≡ map (quad_of order) keys.old.items ++ quads.now) }
    ensures unchanged { OnErr result (keys.new.items ≡ keys.old.items) }
{
    keys.reserve(quads.len())?;
    for quad in quads {
        keys.push_reserved(key_of(order, quad));
    }
    Ok(())
}

/// Returns the quads of keys, followed by further quads.
///
/// # Errors
/// `AllocError` if an allocation fails.
pub(crate) fn unpacked(
    alloc: Global,
    keys: &[u128],
    order: SortOrder,
    further: &[NumQuad],
) -> Result<Vec<NumQuad>, AllocError>
    ensures quads { IfOk result
        (λ list. list.items ≡ map (quad_of order) keys.now ++ further.now) }
{
    let mut list = Vec::new(alloc);
    push_quads(&mut list, keys, order)?;
    list.extend_from_slice(further)?;
    Ok(list)
}

/// Appends the quads of keys.
fn push_quads(list: &mut Vec<NumQuad>, keys: &[u128], order: SortOrder) -> Result<(), AllocError>
    ensures added { OnOk result
        (list.new.items ≡ list.old.items ++ map (quad_of order) keys.now) }
{
    list.reserve(keys.len())?;
    for key in keys {
        list.push_reserved(quad_of(order, *key));
    }
    Ok(())
}

/// Returns whether each number of each quad fits into its place in a key.
pub(crate) fn are_small(quads: &[NumQuad]) -> bool
    ensures small { result ≡ true → All IsSmall quads.now }
{
    for quad in quads {
        if !is_small(quad) {
            return false;
        }
    }
    true
}

/// Returns whether each number fits into its place in a key.
#[inline(always)]
fn is_small(quad: &NumQuad) -> bool
    ensures small { result ≡ true → IsSmall quad.now }
{
    quad.g.unwrap_or(0) < TOO_LARGE
        && quad.s < TOO_LARGE
        && quad.p < TOO_LARGE
        && quad.o < TOO_LARGE
}

/// Returns the key of a quad in this order.
#[inline(always)]
fn key_of(order: SortOrder, quad: &NumQuad) -> u128
    requires small { IsSmall quad.now }
    ensures key { result ≡ key_of order quad.now }
{
    let (a, b, c) = match order {
        SortOrder::Gspo => (quad.s, quad.p, quad.o),
        SortOrder::Gpos => (quad.p, quad.o, quad.s),
        SortOrder::Gosp => (quad.o, quad.s, quad.p),
    };
    let g = match quad.g {
        Some(g) => g as u128 + 1,
        None => 0,
    };
    ((g * PLACE + a as u128) * PLACE + b as u128) * PLACE + c as u128
}

/// Returns the part of a key for the graph name. It is 0 if there is no name.
#[inline(always)]
pub(crate) fn graph_key_of(key: u128) -> u64
    ensures graph { result ≡ graph_key_of key }
{
    (key / PLACE / PLACE / PLACE) as u64
}

/// Returns the quad that has this key.
#[inline(always)]
pub(crate) fn quad_of(order: SortOrder, key: u128) -> NumQuad
    ensures quad { result ≡ quad_of order key }
{
    let a = (key / PLACE / PLACE % PLACE) as u64;
    let b = (key / PLACE % PLACE) as u64;
    let c = (key % PLACE) as u64;
    let g = match graph_key_of(key) {
        0 => None,
        g => Some(g - 1),
    };
    match order {
        SortOrder::Gspo => NumQuad {
            g,
            s: a,
            p: b,
            o: c,
        },
        SortOrder::Gpos => NumQuad {
            g,
            s: c,
            p: a,
            o: b,
        },
        SortOrder::Gosp => NumQuad {
            g,
            s: b,
            p: c,
            o: a,
        },
    }
}
