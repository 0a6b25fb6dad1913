//! The part of a sorted list that agrees on the first places of its order.
ghost use Rattle.std.specs.Prelude.{◌≡◌, IsSorted, filter, map};
ghost use Rattle.std.specs.Ordering.{is_eq};
ghost use Rattle.quad_index.specs.Indexed.{prefix_cmp};
ghost use Rattle.quad_index.specs.Packed.{quad_of};

use crate::packed::quad_of;
use crate::prefix::Prefix;
use crate::quads::{Held, Quads};
use crate::sort_order::SortOrder;
use dict_core::NumQuad;
use std::cmp::Ordering;

/// Returns the quads that agree with this one on these places, found by two binary searches.
#[inline(always)]
pub(crate) fn range<'a>(list: &Quads<'a>, by: Prefix, key: NumQuad) -> Quads<'a>
    requires sorted { IsSorted (prefix_cmp by) list.now }
    ensures quads { result ≡ filter (λ q. is_eq (prefix_cmp by q key)) list.now }
{
    match list.held {
        Held::Packed(keys, order) => Quads::packed(packed_range(keys, order, by, &key), order),
        Held::Plain(quads) => Quads::plain(plain_range(quads, by, &key)),
    }
}

/// Returns the keys of the quads that agree.
#[inline(always)]
fn packed_range<'a>(keys: &'a [u128], order: SortOrder, by: Prefix, key: &NumQuad) -> &'a [u128]
    requires sorted { IsSorted (prefix_cmp by) (map (quad_of order) keys.now) }
    ensures quads { map (quad_of order) result.now
        ≡ filter (λ q. is_eq (prefix_cmp by q key.now)) (map (quad_of order) keys.now) }
{
    let start = keys.partition_point(|k| compare(by, &quad_of(order, *k), key).is_lt());
    let rest = &keys[start..];
    let count = rest.partition_point(|k| compare(by, &quad_of(order, *k), key).is_le());
    &rest[..count]
}

/// Returns the quads that agree.
#[inline(always)]
fn plain_range<'a>(quads: &'a [NumQuad], by: Prefix, key: &NumQuad) -> &'a [NumQuad]
    requires sorted { IsSorted (prefix_cmp by) quads.now }
    ensures quads { result.now ≡ filter (λ q. is_eq (prefix_cmp by q key.now)) quads.now }
{
    let start = quads.partition_point(|q| compare(by, q, key).is_lt());
    let rest = &quads[start..];
    let count = rest.partition_point(|q| compare(by, q, key).is_le());
    &rest[..count]
}

/// Compares two quads by these places.
#[inline(always)]
fn compare(by: Prefix, a: &NumQuad, b: &NumQuad) -> Ordering
    ensures order { result ≡ prefix_cmp by a.now b.now }
{
    let g = a.g.cmp(&b.g);
    match by {
        Prefix::G => g,
        Prefix::Gs => g.then(a.s.cmp(&b.s)),
        Prefix::Gsp => g.then(a.s.cmp(&b.s)).then(a.p.cmp(&b.p)),
        Prefix::Gspo => g
            .then(a.s.cmp(&b.s))
            .then(a.p.cmp(&b.p))
            .then(a.o.cmp(&b.o)),
        Prefix::Gp => g.then(a.p.cmp(&b.p)),
        Prefix::Gpo => g.then(a.p.cmp(&b.p)).then(a.o.cmp(&b.o)),
        Prefix::Go => g.then(a.o.cmp(&b.o)),
        Prefix::Gos => g.then(a.o.cmp(&b.o)).then(a.s.cmp(&b.s)),
    }
}
