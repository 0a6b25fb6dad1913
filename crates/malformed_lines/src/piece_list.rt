//! The list of the malformed lines of a piece.
ghost use Rattle.std.specs.Prelude.{◌≡◌, ◌≤◌};
ghost use Rattle.malformed_lines.specs.Counts.{total_of};

use crate::reason_counts::ReasonCounts;

/// The largest number of lines that are kept.
pub(crate) const MOST_SHOWN: usize = 20;

/// A malformed line of a piece.
#[derive(Clone, Copy)]
pub struct FoundLine<'d> {
    /// The number of the line in the piece, from 0.
    pub place: u64,
    /// Its bytes, without its line end.
    pub bytes: &'d [u8],
}

/// The malformed lines of a piece.
#[derive(Drop)]
pub struct PieceList<'d> {
    /// The first of them, at most twenty.
    pub shown: Vec<FoundLine<'d>>,
    /// How many there are.
    pub total: u64,
    /// How many there are for each reason.
    pub reasons: ReasonCounts,
    /// The number of lines of the piece, the well-formed ones included.
    pub lines: u64,
    /// Whether the piece ends inside of a line: no line end follows its last line.
    pub is_open: bool,
    ghost counted: { total_of reasons.counts.items ≡ total },
    ghost few: { total ≤ lines },
}
