//! The counts of an index that is not built.
ghost use Rattle.std.specs.Prelude.{◌≡◌, ◌≤◌, length, map, IfOk};
ghost use Rattle.quad_index.specs.Counting.{IsCountOf, names_after};
ghost use Rattle.quad_index.specs.Packed.{quad_of};
ghost use Rattle.quad_index.specs.declared.sort_order.SortOrder.{SortOrder};

use crate::index::names_of;
use crate::packed::{graph_key_of, keys_fit};
use crate::quad_list::{QuadList, Stored};
use crate::quads::Quads;
use crate::sort_order::{SortOrder, sort_once};
use dict_core::NumQuad;
use std::alloc::{AllocError, Global};

/// The numbers of quads and graph names of an index.
#[derive(Clone, Copy)]
pub struct IndexCounts {
    /// The number of distinct quads.
    pub quads: u64,
    /// The number of distinct graph names.
    pub graphs: u64,
}

/// Counts the quads and the graph names of the index of these quads. A repeated quad counts once.
///
/// The index is not built. The list itself is sorted.
///
/// # Errors
/// `AllocError` if an allocation fails. The list is dropped.
pub fn count_quads(alloc: Global, quads: QuadList) -> Result<IndexCounts, AllocError>
    ensures counts { IfOk result (IsCountOf quads) }
{
    match quads.into_stored() {
        Stored::Packed(keys, _) => count_keys(keys),
        Stored::Plain(list) => count_plain(alloc, list),
    }
}

/// Counts the quads that have these keys, and their graph names. The order of the keys does not matter, since the graph
/// name is in the highest place in each order.
pub(crate) fn count_keys(keys: Vec<u128>) -> Result<IndexCounts, AllocError>
    ensures counts { IfOk result (λ counts. (order : SortOrder)
        → IsCountOf (map (quad_of order) keys.items) counts) }
{
    let mut keys = keys;
    keys_fit(keys.as_slice());
    keys.sort()?;
    keys.dedup();
    Ok(IndexCounts {
        quads: keys.len() as u64,
        graphs: count_graphs(keys.as_slice()),
    })
}

/// Counts the graph names of sorted keys. No graph name is 0.
fn count_graphs(keys: &[u128]) -> u64
    ensures names { result ≡ names_after 0 keys.now }
    ensures few { result ≤ length keys.now }
{
    let mut count = 0;
    let mut last = 0;
    for key in keys {
        let name = graph_key_of(*key);
        if name != 0 && name != last {
            count += 1;
            last = name;
        }
    }
    count
}

/// Counts the quads and the graph names of quads whose numbers may have any size.
pub(crate) fn count_plain(alloc: Global, quads: Vec<NumQuad>) -> Result<IndexCounts, AllocError>
    ensures counts { IfOk result (IsCountOf quads.items) }
{
    let mut list = quads;
    sort_once(&mut list, SortOrder::Gspo);
    let names = names_of(alloc, &Quads::plain(list.as_slice()))?;
    Ok(IndexCounts {
        quads: list.len() as u64,
        graphs: names.len() as u64,
    })
}
