//! Adding the list of a piece to that of the pieces before.
ghost use Rattle.std.specs.Prelude.{◌≡◌, ◌+◌, ◌-◌, ◌≤◌, ◌<◌, ◌++◌, ◌^◌, [], List, ℕ, length, IfOk, OnOk, OnErr, take};
ghost use Rattle.malformed_lines.specs.Counts.{total_of};
ghost use Rattle.rdf_core.specs.QuadParts.{QuadParts};
ghost use Rattle.nquads_core.specs.Pieces.{HaveStatements};
ghost use Rattle.malformed_lines.specs.Malformed.{AreKept, IsCopy, IsListOf, IsListed};

use crate::document_list::{MalformedLine, MalformedLines};
use crate::piece_list::{FoundLine, MOST_SHOWN, PieceList};
use crate::reason_counts::{ReasonCount, ReasonCounts};
use std::alloc::{AllocError, Global};

/// The largest number of bytes of a line that are kept.
const MOST_KEPT: usize = 1 << 20;

/// Returns the first bytes of a line, at most `most`.
fn beginning(line: &[u8], most: usize) -> &[u8]
    ensures value { result.now ≡ take most line.now }
{
    if line.len() <= most {
        return line;
    }
    &line[..most]
}

/// Copies a malformed line of a piece. `before` is the number of lines before the piece.
fn copied(
    alloc: Global,
    before: u128,
    piece: &PieceList<'_>,
    found: &FoundLine<'_>,
) -> Result<MalformedLine, AllocError>
    requires countable { before ≤ 2 ^ 127 }
    ensures copy { IfOk result (IsCopy before piece.now found.now) }
{
    Ok(MalformedLine {
        number: before + (found.place as u128 + 1),
        bytes: Vec::from_slice(alloc, beginning(found.bytes, MOST_KEPT))?,
        is_whole: found.bytes.len() <= MOST_KEPT,
        is_cut: piece.is_open && found.place as u128 + 1 == piece.lines as u128,
    })
}

/// Keeps copies of the malformed lines of a piece, until twenty lines are kept.
fn keep_all(
    alloc: Global,
    shown: &mut Vec<MalformedLine>,
    before: u128,
    piece: &PieceList<'_>,
) -> Result<(), AllocError>
    requires countable { before ≤ 2 ^ 127 }
    ensures kept { OnOk result (AreKept before piece.now shown.old.items shown.new.items) }
{
    for line in piece.shown.as_slice() {
        if shown.len() >= MOST_SHOWN {
            return Ok(());
        }
        shown.push(copied(alloc, before, piece, line)?)?;
    }
    Ok(())
}

impl MalformedLines {
    /// Returns the list of a document that begins with this number of well-formed lines, as far as these lines.
    /// Allocates nothing.
    pub fn after(alloc: Global, lines: u128) -> MalformedLines
        ensures listed { (before : List (List ℕ)) (quads : List QuadParts)
            → HaveStatements before quads → lines ≡ length before → IsListed before result }
        ensures lines { result.lines ≡ lines }
    {
        MalformedLines {
            shown: Vec::new(alloc),
            total: 0,
            reasons: ReasonCounts::new(alloc),
            lines,
        }
    }

    /// Adds the list of the next piece of the document.
    ///
    /// # Requires
    /// At most 2^127 lines were added.
    ///
    /// # Errors
    /// `AllocError` if an allocation fails. The list may then lack lines of the piece.
    pub fn add(&mut self, alloc: Global, piece: &PieceList<'_>) -> Result<(), AllocError>
        requires countable { self.old.lines ≤ 2 ^ 127 }
        ensures listed { OnOk result ((before after : List (List ℕ)) → IsListed before self.old
            → IsListOf after piece.now → IsListed (before ++ after) self.new) }
        ensures copied { OnOk result (AreKept self.old.lines piece.now
            self.old.shown.items self.new.shown.items) }
        ensures lines { OnOk result (self.new.lines ≤ self.old.lines + (2 ^ 64 - 1)) }
    {
        let (before, lines, total) = (self.lines, piece.lines, piece.total);
        keep_all(alloc, &mut self.shown, before, piece)?;
        self.reasons
            .add_all(before, piece.reasons.counts.as_slice())?;
        self.lines += lines as u128;
        self.total += total as u128;
        Ok(())
    }
}
