//! Lists of quads, packed if their numbers are small.
ghost use Rattle.std.specs.Prelude.{◌≡◌, ◌++◌, [], length, IfOk, IsPermutation, IsSorted, OnErr, OnOk};
ghost use Rattle.algebra_model.specs.Bag.{IsWithoutRepeats, without_repeats};
ghost use Rattle.dict_core.specs.Equality.{quad_eq};
ghost use Rattle.quad_index.specs.Lists.{stored_quads};
ghost use Rattle.quad_index.specs.SortOrder.{order_cmp};

use crate::packed::{are_small, push_keys, sorted_keys, unpacked};
use crate::quads::Quads;
use crate::sort_order::{SortOrder, sorted_quads};
use dict_core::NumQuad;
use std::alloc::{AllocError, Global};
use std::marker::Model;

/// How a list holds its quads.
#[derive(Drop)]
pub(crate) enum Stored {
    /// As packed keys in this order: 16 bytes for each quad.
    Packed(Vec<u128>, SortOrder),
    /// As they are: 40 bytes for each quad. A number of a quad is too large for a key.
    Plain(Vec<NumQuad>),
}

impl Stored {
    /// Appends quads. If a number of one of them is too large for a key, all quads are held as they are from then on.
    ///
    /// # Errors
    /// `AllocError` if an allocation fails. The quads are unchanged.
    fn extend(&mut self, alloc: Global, further: &[NumQuad]) -> Result<(), AllocError>
        ensures added { OnOk result (stored_quads self.new ≡ stored_quads self.old ++ further.now) }
        ensures unchanged { OnErr result (stored_quads self.new ≡ stored_quads self.old) }
    {
        match self {
            Stored::Packed(keys, order) => {
                if are_small(further) {
                    return push_keys(keys, *order, further);
                }
                let quads = unpacked(alloc, keys.as_slice(), *order, further)?;
                *self = Stored::Plain(quads);
                Ok(())
            }
            Stored::Plain(quads) => quads.extend_from_slice(further),
        }
    }
}

/// A list of quads. In contracts this type is the list.
///
/// The quads are packed as long as all their numbers are below 2^32 - 1.
pub struct QuadList {
    pub(crate) stored: Stored,
}

impl Drop for QuadList {
    /// Drops the quads. Written by hand (docs/PROOF.md).
    fn drop(self) {
        let QuadList { stored: _ } = self;
    }
}

impl Model for QuadList {
    ghost use Rattle.std.specs.Prelude.{List};
    ghost use Rattle.dict_core.specs.declared.num_quad.NumQuad.{NumQuad};
    ghost use Rattle.quad_index.specs.Lists.{stored_quads};

    ghost Value = { List NumQuad };

    ghost view = { λ list. stored_quads list.stored };
}

impl QuadList {
    /// Creates an empty list. Allocates nothing.
    pub fn new(alloc: Global) -> QuadList
        ensures empty { result ≡ [] }
    {
        QuadList {
            stored: Stored::Packed(Vec::new(alloc), SortOrder::Gspo),
        }
    }

    /// Appends quads. The first number of 2^32 - 1 or more ends the packing: then the quads before are unpacked, once.
    ///
    /// # Errors
    /// `AllocError` if an allocation fails. The list is unchanged.
    pub fn extend(&mut self, alloc: Global, quads: &[NumQuad]) -> Result<(), AllocError>
        ensures added { OnOk result (self.new ≡ self.old ++ quads.now) }
        ensures unchanged { OnErr result (self.new ≡ self.old) }
    {
        self.stored.extend(alloc, quads)
    }

    /// Returns the quads as the list holds them.
    pub(crate) fn into_stored(self) -> Stored
        ensures quads { stored_quads result ≡ self }
    {
        let QuadList { stored } = self;
        stored
    }

    /// Borrows the quads.
    #[inline(always)]
    pub fn quads(&self) -> Quads<'_>
        ensures quads { result ≡ self.now }
    {
        match &self.stored {
            Stored::Packed(keys, order) => Quads::packed(keys.as_slice(), *order),
            Stored::Plain(quads) => Quads::plain(quads.as_slice()),
        }
    }

    /// Returns the number of quads.
    pub fn len(&self) -> usize
        ensures value { result ≡ length self.now }
    {
        self.quads().len()
    }
}

/// Returns the quads in this order, each once. They are packed if the list is.
///
/// `Index::of_lists` builds an index from the lists of the same quads in the three orders. The lists
/// may thus be sorted in parallel.
///
/// # Errors
/// `AllocError` if an allocation fails.
pub fn sorted_list(
    alloc: Global,
    quads: &QuadList,
    order: SortOrder,
) -> Result<QuadList, AllocError>
    ensures sorted { IfOk result (λ list. IsSorted (order_cmp order) list) }
    ensures each_once { IfOk result
        (λ list. IsPermutation (without_repeats quad_eq quads.now) list) }
    ensures distinct { IfOk result (λ list. IsWithoutRepeats quad_eq list) }
{
    let stored = match &quads.stored {
        Stored::Packed(keys, from) => {
            Stored::Packed(sorted_keys(alloc, keys.as_slice(), *from, order)?, order)
        }
        Stored::Plain(quads) => Stored::Plain(sorted_quads(alloc, quads.as_slice(), order)?),
    };
    Ok(QuadList { stored })
}
