//! A row of ranks.
ghost use Rattle.std.specs.Prelude.{◌≡◌, get_or};

/// The borrowed ranks of a row's cells. The first two are copied into this value, so that most rows
/// are compared and printed without a look into the buffer.
#[derive(Clone, Copy, PartialEq, Eq, PartialOrd, Ord)]
pub(crate) struct RankedRow<'a> {
    first: u64,
    second: u64,
    pub(crate) ranks: &'a [u64],
    ghost first_is: { first ≡ get_or ranks.now 0 0 },
    ghost second_is: { second ≡ get_or ranks.now 1 0 },
}

/// Returns the rank at a place of a row, or 0 past its end.
fn rank_at(ranks: &[u64], place: usize) -> u64
    ensures value { result ≡ get_or ranks.now place 0 }
{
    if place < ranks.len() { ranks[place] } else { 0 }
}

/// Makes a row of these ranks.
pub(crate) fn ranked_row(ranks: &[u64]) -> RankedRow<'_>
    ensures ranks { result.ranks.now ≡ ranks.now }
{
    RankedRow {
        first: rank_at(ranks, 0),
        second: rank_at(ranks, 1),
        ranks,
    }
}

impl<'a> RankedRow<'a> {
    /// Returns the rank at a place of the row, or 0 past its end.
    pub(crate) fn rank(&self, place: usize) -> u64
        ensures value { result ≡ get_or self.now.ranks.now place 0 }
    {
        match place {
            0 => self.first,
            1 => self.second,
            _ => rank_at(self.ranks, place),
        }
    }
}
