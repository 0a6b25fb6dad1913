//! The three orders, and quads sorted by them.
ghost use Rattle.std.specs.Prelude.{IfOk, IsPermutation, IsSorted};
ghost use Rattle.algebra_model.specs.Bag.{IsWithoutRepeats, without_repeats};
ghost use Rattle.dict_core.specs.Equality.{quad_eq};
ghost use Rattle.quad_index.specs.SortOrder.{order_cmp};

use dict_core::NumQuad;
use std::alloc::{AllocError, Global};

/// An order of quads: by the graph, with the default graph first, and then by the places that the
/// name lists.
#[derive(Clone, Copy, PartialEq, Eq)]
pub enum SortOrder {
    /// Graph, subject, predicate, object.
    Gspo,
    /// Graph, predicate, object, subject.
    Gpos,
    /// Graph, object, subject, predicate.
    Gosp,
}

/// Returns the quads in this order, each once. Their numbers may have any size.
pub(crate) fn sorted_quads(
    alloc: Global,
    quads: &[NumQuad],
    order: SortOrder,
) -> Result<Vec<NumQuad>, AllocError>
    ensures sorted { IfOk result (λ list. IsSorted (order_cmp order) list.items) }
    ensures each_once { IfOk result
        (λ list. IsPermutation (without_repeats quad_eq quads.now) list.items) }
    ensures distinct { IfOk result (λ list. IsWithoutRepeats quad_eq list.items) }
{
    let mut list = Vec::from_slice(alloc, quads)?;
    sort_once(&mut list, order);
    Ok(list)
}

/// Sorts the quads and drops the repeats.
pub(crate) fn sort_once(list: &mut Vec<NumQuad>, order: SortOrder)
    ensures sorted { IsSorted (order_cmp order) list.new.items }
    ensures each_once { IsPermutation (without_repeats quad_eq list.old.items) list.new.items }
    ensures distinct { IsWithoutRepeats quad_eq list.new.items }
{
    sort_quads(list, order);
    list.dedup();
    list.shrink_to_fit();
}

/// Sorts the quads.
pub(crate) fn sort_quads(list: &mut Vec<NumQuad>, order: SortOrder)
    ensures sorted { IsSorted (order_cmp order) list.new.items }
    ensures same { IsPermutation list.old.items list.new.items }
{
    match order {
        SortOrder::Gspo => sort_gspo(list),
        SortOrder::Gpos => sort_gpos(list),
        SortOrder::Gosp => sort_gosp(list),
    }
}

fn sort_gspo(list: &mut Vec<NumQuad>)
    ensures sorted { IsSorted (order_cmp SortOrder.Gspo) list.new.items }
    ensures same { IsPermutation list.old.items list.new.items }
{
    list.sort_unstable_by_key(|q| (q.g, q.s, q.p, q.o));
}

fn sort_gpos(list: &mut Vec<NumQuad>)
    ensures sorted { IsSorted (order_cmp SortOrder.Gpos) list.new.items }
    ensures same { IsPermutation list.old.items list.new.items }
{
    list.sort_unstable_by_key(|q| (q.g, q.p, q.o, q.s));
}

fn sort_gosp(list: &mut Vec<NumQuad>)
    ensures sorted { IsSorted (order_cmp SortOrder.Gosp) list.new.items }
    ensures same { IsPermutation list.old.items list.new.items }
{
    list.sort_unstable_by_key(|q| (q.g, q.o, q.s, q.p));
}
