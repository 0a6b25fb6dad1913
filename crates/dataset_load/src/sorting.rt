//! The three lists of an index.
ghost use Rattle.std.specs.Prelude.{◌≡◌, ◌∷◌, [], length, IfOk, IsPermutation};
ghost use Rattle.algebra_model.specs.Bag.{without_repeats};
ghost use Rattle.dict_core.specs.Equality.{quad_eq};
ghost use Rattle.dataset_load.specs.Rounds.{AreSortedLists, order_at};

use quad_index::{Index, QuadList, SortOrder};
use std::alloc::{AllocError, Global};

/// The number of lists of an index.
pub(crate) const LISTS: u64 = 3;

/// Returns the order of list `i`.
pub(crate) fn order_at(i: u64) -> SortOrder
    ensures order { result ≡ order_at i }
{
    if i == 0 {
        SortOrder::Gspo
    } else if i == 1 {
        SortOrder::Gpos
    } else {
        SortOrder::Gosp
    }
}

/// Builds the index of these three lists.
pub(crate) fn index_of(alloc: Global, lists: Vec<QuadList>) -> Result<Index, AllocError>
    requires lists { (quads : _) × AreSortedLists quads lists.items }
    ensures each_once { IfOk result (λ index. (quads : _) → AreSortedLists quads lists.items
        → IsPermutation (without_repeats quad_eq quads) index) }
{
    let (gspo, gpos, gosp) = three(lists);
    Index::of_lists(alloc, gspo, gpos, gosp)
}

/// Returns the three values of a list.
fn three<T: Drop>(list: Vec<T>) -> (T, T, T)
    requires three { length list.items ≡ 3 }
    ensures same { list.items ≡ result.0 ∷ result.1 ∷ result.2 ∷ [] }
{
    let mut list = list;
    let Some(third) = list.pop() else {
        unreachable!();
    };
    let Some(second) = list.pop() else {
        unreachable!();
    };
    let Some(first) = list.pop() else {
        unreachable!();
    };
    (first, second, third)
}
