//! Sets of lines.
ghost use Rattle.std.specs.Prelude.{◌≡◌, ◌||◌, List, ℕ, not, IfOk, OnOk};
ghost use Rattle.std.specs.Str.{bytes_eq};
ghost use Rattle.cluster_parts.specs.Terms.{has_line};
ghost use Rattle.cluster_parts.specs.Known.{known_lines};

use indexmap::IndexSet;
use keyed_hash::HashState;
use std::alloc::AllocError;

/// Adds a line to those that are known, and returns whether it is new.
pub(crate) fn add_line<'a>(
    known: &mut IndexSet<&'a [u8], HashState>,
    line: &'a [u8],
) -> Result<bool, AllocError>
    ensures new { IfOk result (λ is_new. is_new ≡ not (has_line (known_lines known.old) line.now)) }
    ensures known { OnOk result ((l : List ℕ)
        → has_line (known_lines known.new) l ≡ (has_line (known_lines known.old) l || bytes_eq l line.now)) }
{
    match known.insert(line) {
        Ok(is_new) => Ok(is_new),
        Err(_) => Err(AllocError),
    }
}
