//! The list of the malformed lines of a document.
ghost use Rattle.std.specs.Prelude.{◌≡◌, ◌≤◌};
ghost use Rattle.malformed_lines.specs.Counts.{total_of};

use crate::reason_counts::ReasonCounts;

/// A malformed line of a document.
#[derive(Drop)]
pub struct MalformedLine {
    /// The number of the line, from 1.
    pub number: u128,
    /// Its first bytes, at most 1,048,576, without its line end.
    pub bytes: Vec<u8>,
    /// Whether these are all its bytes.
    pub is_whole: bool,
    /// Whether the document ends with this line, and no line end follows it.
    pub is_cut: bool,
}

/// The malformed lines of a document.
#[derive(Drop)]
pub struct MalformedLines {
    /// The first of them, at most twenty.
    pub shown: Vec<MalformedLine>,
    /// How many there are.
    pub total: u128,
    /// How many there are for each reason.
    pub reasons: ReasonCounts,
    /// The number of lines that were read, the well-formed ones included.
    pub lines: u128,
    ghost counted: { total_of reasons.counts.items ≡ total },
    ghost few: { total ≤ lines },
}
