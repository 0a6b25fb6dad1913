//! Borrowed quads of a sorted list.
ghost use Rattle.std.specs.Prelude.{◌≡◌, ◌<◌, ◌≤◌, ◌==◌, length, map, slice_get, slice_range, Some};
ghost use Rattle.quad_index.specs.Packed.{quad_of};

use crate::packed::quad_of;
use crate::sort_order::SortOrder;
use dict_core::NumQuad;
use std::marker::Model;

/// How the quads are held.
#[derive(Clone, Copy)]
pub(crate) enum Held<'a> {
    /// As packed keys in this order.
    Packed(&'a [u128], SortOrder),
    /// As they are.
    Plain(&'a [NumQuad]),
}

/// Borrowed quads. In contracts this type is their list.
pub struct Quads<'a> {
    pub(crate) held: Held<'a>,
}

impl<'a> Drop for Quads<'a> {
    fn drop(self) {
        let Quads { held: _ } = self;
    }
}

impl<'a> Model for Quads<'a> {
    ghost use Rattle.std.specs.Prelude.{List};
    ghost use Rattle.dict_core.specs.declared.num_quad.NumQuad.{NumQuad};
    ghost use Rattle.quad_index.specs.Lists.{held_quads};

    ghost Value = { List NumQuad };

    ghost view = { λ quads. held_quads quads.held };
}

impl<'a> Quads<'a> {
    /// Returns the quads that have these keys.
    pub(crate) fn packed(keys: &'a [u128], order: SortOrder) -> Quads<'a>
        ensures quads { result ≡ map (quad_of order) keys.now }
    {
        Quads {
            held: Held::Packed(keys, order),
        }
    }

    /// Returns these quads.
    pub(crate) fn plain(quads: &'a [NumQuad]) -> Quads<'a>
        ensures quads { result ≡ quads.now }
    {
        Quads {
            held: Held::Plain(quads),
        }
    }

    /// Returns the number of quads.
    pub fn len(&self) -> usize
        ensures value { result ≡ length self.now }
    {
        match self.held {
            Held::Packed(keys, _) => keys.len(),
            Held::Plain(quads) => quads.len(),
        }
    }

    /// Returns whether there is no quad.
    pub fn is_empty(&self) -> bool
        ensures value { result ≡ (length self.now == 0) }
    {
        self.len() == 0
    }

    /// Returns the quad at a place.
    ///
    /// # Requires
    /// The place is below `len`.
    #[inline(always)]
    pub fn get(&self, place: usize) -> NumQuad
        requires inside { place < length self.now }
        ensures quad { slice_get self.now place ≡ Some result }
    {
        match self.held {
            Held::Packed(keys, order) => quad_of(order, item(keys, place)),
            Held::Plain(quads) => item(quads, place),
        }
    }

    /// Returns the quads at the places from `from` on, up to `to`.
    ///
    /// # Requires
    /// `from` is at most `to`, and `to` is at most `len`.
    pub fn part(&self, from: usize, to: usize) -> Quads<'a>
        requires rising { from ≤ to }
        requires within { to ≤ length self.now }
        ensures quads { result ≡ slice_range self.now from to }
    {
        match self.held {
            Held::Packed(keys, order) => Quads::packed(between(keys, from, to), order),
            Held::Plain(quads) => Quads::plain(between(quads, from, to)),
        }
    }
}

/// Returns the item at a place.
#[inline(always)]
fn item<T: Copy>(items: &[T], place: usize) -> T
    requires inside { place < length items.now }
    ensures item { slice_get items.now place ≡ Some result }
{
    items[place]
}

/// Returns the items at the places from `from` on, up to `to`.
fn between<T>(items: &[T], from: usize, to: usize) -> &[T]
    requires rising { from ≤ to }
    requires within { to ≤ length items.now }
    ensures items { result.now ≡ slice_range items.now from to }
{
    &items[from..to]
}
