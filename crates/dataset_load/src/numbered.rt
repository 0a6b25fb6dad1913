//! What was read of a document so far.

use quad_filter::QuadFilter;
use quad_index::QuadList;
use std::alloc::Global;
use std::hash::RandomState;
use text_dict::TextDict;
use text_pieces::Seen;

/// The quads of the lines that were read so far, and the count of these lines. The quads that the filter keeps are all there, and
/// perhaps others. They are numbered by a dictionary of the texts of their terms.
#[derive(Drop)]
pub(crate) struct Numbered<'f> {
    pub(crate) filter: &'f QuadFilter,
    pub(crate) dict: TextDict,
    pub(crate) quads: QuadList,
    pub(crate) lines: u128,
    /// What the pieces of these lines have, also in statements that are left out.
    pub(crate) seen: Seen,
}

impl<'f> Numbered<'f> {
    ghost use Rattle.std.specs.Prelude.{[], ◌≡◌};
    ghost use Rattle.dataset_load.specs.Rounds.{HasRead};

    /// Creates the state in which no line is read. The hash state comes from the runtime, because the terms are
    /// untrusted input. Allocates nothing.
    pub(crate) fn new(alloc: Global, state: RandomState, filter: &'f QuadFilter) -> Numbered<'f>
        ensures none { HasRead result [] }
        ensures no_lines { result.lines ≡ 0 }
        ensures filter { result.filter.now ≡ filter.now }
    {
        Numbered {
            filter,
            dict: TextDict::new(alloc, state),
            quads: QuadList::new(alloc),
            lines: 0,
            seen: Seen {
                default_graph: false,
                named_graph: false,
                lacks_beyond_ascii: false,
            },
        }
    }
}
