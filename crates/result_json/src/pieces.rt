//! Pieces of a list: how many elements a piece has for a worker, and which, and what follows the
//! first elements.
ghost use Rattle.std.specs.Int.{div_ceil};
ghost use Rattle.std.specs.Prelude.{◌≡◌, ◌≤◌, drop};
ghost use Rattle.piece_pool.specs.Limits.{most_pieces};
ghost use Rattle.row_pieces.specs.How.{IsRunnable};
ghost use Rattle.row_pieces.specs.Pieces.{piece_of};

use row_pieces::{How, piece_ends, piece_size};

/// Returns the number of elements in a piece, if each worker gets one piece of `count` elements. It
/// is at least the number of rows that `how` has in a piece.
///
/// # Requires
/// `how` is within its limits.
pub(crate) fn worker_piece_size(count: usize, how: &How) -> usize
    requires how { IsRunnable how.now }
    ensures some { 1 ≤ result }
    ensures few { div_ceil count result ≤ most_pieces }
{
    piece_size(count, how.rows.max(count.div_ceil(how.workers)))
}

/// Returns the elements of a piece of `size` elements.
pub(crate) fn piece<T>(elements: &[T], size: usize, number: u64) -> &[T]
    ensures value { result.now ≡ piece_of size number elements.now }
{
    let (from, to) = piece_ends(elements.len(), size, number);
    &elements[from..to]
}

/// Returns the elements after the first `count`.
pub(crate) fn following<T>(elements: &[T], count: usize) -> &[T]
    ensures value { result.now ≡ drop count elements.now }
{
    &elements[elements.len().min(count)..]
}
