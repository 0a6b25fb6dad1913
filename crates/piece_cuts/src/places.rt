//! Where a document may be split, and the two ends of a piece.
ghost use Rattle.std.specs.Prelude.{◌≡◌, ◌↔◌, ◌+◌, ◌<◌, ◌≤◌, IsTrue, ◌∷◌, ◌++◌, [], slice_index, MatchOption, length};
ghost use Rattle.piece_cuts.specs.Cuts.{AreCuts, HasNoNextCut, IsNextCut};

use memchr::memchr;

/// Returns the next cut from this start: the first place that is at least `size` bytes later and
/// follows a line feed.
pub fn next_cut(doc: &[u8], start: usize, size: usize) -> Option<usize>
    requires some { 1 ≤ size }
    requires inside { start ≤ length doc.now }
    ensures cut { MatchOption result (HasNoNextCut doc.now size start) (IsNextCut doc.now size start) }
{
    if doc.len() - start < size {
        return None;
    }
    let from = start + size - 1;
    match memchr(b'\n', &doc[from..]) {
        Some(k) if from + k + 1 < doc.len() => Some(from + k + 1),
        _ => None,
    }
}

/// Returns whether the places increase strictly, and each is a cut of the document.
pub fn are_cuts(doc: &[u8], places: &[usize]) -> bool
    ensures value { IsTrue result ↔ AreCuts doc.now places.now }
{
    let mut low = 0;
    for place in places {
        if *place <= low || *place >= doc.len() || doc[*place - 1] != b'\n' {
            return false;
        }
        low = *place;
    }
    true
}

/// Returns the two ends of piece `i`.
fn ends(places: &[usize], len: usize, i: usize) -> (usize, usize)
    requires inside { i < length places.now + 1 }
    ensures from { result.0 ≡ slice_index (0 ∷ places.now) i }
    ensures to { result.1 ≡ slice_index (places.now ++ len ∷ []) i }
{
    let from = if i == 0 { 0 } else { places[i - 1] };
    let to = if i < places.len() { places[i] } else { len };
    (from, to)
}

/// Returns the two ends of piece `i`, which are in order and inside the document.
pub fn bounds(doc: &[u8], places: &[usize], i: usize) -> (usize, usize)
    requires cuts { AreCuts doc.now places.now }
    requires inside { i < length places.now + 1 }
    ensures from { result.0 ≡ slice_index (0 ∷ places.now) i }
    ensures to { result.1 ≡ slice_index (places.now ++ length doc.now ∷ []) i }
    ensures in_order { result.0 ≤ result.1 }
    ensures within { result.1 ≤ length doc.now }
{
    ends(places, doc.len(), i)
}
