//! Listing the malformed lines of a piece.
ghost use Rattle.std.specs.Prelude.{◌≡◌, ◌+◌, ◌≤◌, ◌<◌, ◌∷◌, ◌++◌, ◌^◌, [], List, ℕ, length, true, IfOk, OnOk};
ghost use Rattle.rdf_core.specs.QuadParts.{QuadParts};
ghost use Rattle.nquads_core.specs.Grammar.{IsMalformed};
ghost use Rattle.line_diagnosis.specs.Explained.{IsExplained};
ghost use Rattle.nquads_core.specs.Lines.{lines};
ghost use Rattle.nquads_core.specs.Pieces.{HaveStatements};
ghost use Rattle.malformed_lines.specs.Malformed.{EndsInside, EndsWith, IsKept, IsListOf};

use crate::piece_list::{FoundLine, MOST_SHOWN, PieceList};
use crate::reason_counts::{ReasonCount, ReasonCounts};
use crate::well_formed::{is_well_formed_line, skip_well_formed_lines};
use line_diagnosis::{Diagnosis, diagnose};
use nquads_core::first_line;
use nquads_scan::skip_plain_lines;
use std::alloc::{AllocError, Global};

/// The number of bytes of well-formed lines in a row after which blocks of lines are tested.
const LEAST_BLOCK: usize = 1 << 12;

/// The largest number of bytes that a block has at least.
const MOST_BLOCK: usize = 1 << 16;

/// Keeps a malformed line, unless twenty are kept.
fn keep<'d>(shown: &mut Vec<FoundLine<'d>>, place: u64, bytes: &'d [u8]) -> Result<(), AllocError>
    ensures kept { OnOk result (IsKept shown.old.items place bytes.now shown.new.items) }
{
    if shown.len() < MOST_SHOWN {
        shown.push(FoundLine { place, bytes })?;
    }
    Ok(())
}

impl<'d> PieceList<'d> {
    /// Returns the list of a piece that begins with this number of well-formed lines, as far as these lines.
    fn after(alloc: Global, lines: u64) -> PieceList<'d>
        ensures listed { (before : List (List ℕ)) (quads : List QuadParts)
            → HaveStatements before quads → length before ≡ lines → IsListOf before result }
        ensures lines { result.lines ≡ lines }
    {
        PieceList {
            shown: Vec::new(alloc),
            total: 0,
            reasons: ReasonCounts::new(alloc),
            lines,
            is_open: false,
        }
    }

    /// Adds this number of well-formed lines.
    fn add_well_formed(&mut self, count: u64)
        requires few { self.old.lines + count < 2 ^ 64 }
        ensures listed { (before after : List (List ℕ)) (quads : List QuadParts) → IsListOf before self.old
            → HaveStatements after quads → length after ≡ count → IsListOf (before ++ after) self.new }
        ensures lines { self.new.lines ≡ self.old.lines + count }
    {
        self.lines += count;
    }

    /// Adds a malformed line.
    fn add_malformed(&mut self, line: &'d [u8], diagnosis: &Diagnosis) -> Result<(), AllocError>
        requires few { self.old.lines < 2 ^ 63 }
        ensures listed { OnOk result ((before : List (List ℕ)) → IsListOf before self.old
            → IsMalformed line.now → IsExplained line.now diagnosis.now
            → IsListOf (before ++ line.now ∷ []) self.new) }
        ensures lines { OnOk result (self.new.lines ≡ self.old.lines + 1) }
    {
        keep(&mut self.shown, self.lines, line)?;
        self.reasons.add(ReasonCount {
            reason: diagnosis.reason.summary(),
            count: 1,
            first: self.lines as u128,
            column: diagnosis.column,
            counted: diagnosis.counted,
        })?;
        self.lines += 1;
        self.total += 1;
        Ok(())
    }

    /// Adds the next line. `form` is a buffer for the N-Quads form of a term.
    fn add_line(
        &mut self,
        alloc: Global,
        line: &'d [u8],
        form: &mut Vec<u8>,
    ) -> Result<(), AllocError>
        requires few { self.old.lines < 2 ^ 63 }
        ensures listed { OnOk result ((before : List (List ℕ)) → IsListOf before self.old
            → IsListOf (before ++ line.now ∷ []) self.new) }
        ensures lines { OnOk result (self.new.lines ≡ self.old.lines + 1) }
    {
        if is_well_formed_line(alloc, line, form)? {
            self.lines += 1;
            return Ok(());
        }
        match diagnose(line) {
            Some(diagnosis) => self.add_malformed(line, &diagnosis),
            None => {
                self.lines += 1;
                Ok(())
            }
        }
    }
}

fn ends_with(bytes: &[u8], last: u8) -> bool
    ensures yes { result ≡ true → EndsWith last bytes.now }
    ensures no { EndsWith last bytes.now → result ≡ true }
{
    if bytes.is_empty() {
        return false;
    }
    bytes[bytes.len() - 1] == last
}

/// Returns whether a text ends inside of a line: whether a last line has no line end.
fn ends_inside(bytes: &[u8]) -> bool
    ensures yes { result ≡ true → EndsInside bytes.now }
    ensures no { EndsInside bytes.now → result ≡ true }
{
    !bytes.is_empty() && !ends_with(bytes, b'\n') && !ends_with(bytes, b'\r')
}

/// Lists the malformed lines of a piece of a document: the first twenty, how many there are, and how many for each
/// reason (RDF 1.1 N-Quads, grammar). Only a line that is not seen to be well-formed is diagnosed.
///
/// After some kilobytes of well-formed lines, blocks of lines are tested at once. A block is at most two times as long as
/// the well-formed lines before it. So a malformed line in it costs at most about as much as these lines.
///
/// # Errors
/// `AllocError` if an allocation fails.
pub fn list_piece(alloc: Global, bytes: &[u8]) -> Result<PieceList<'_>, AllocError>
    ensures listed { IfOk result (IsListOf (lines bytes.now)) }
    ensures open { IfOk result (λ list. list.is_open ≡ true → EndsInside bytes.now) }
    ensures closed { IfOk result (λ list. EndsInside bytes.now → list.is_open ≡ true) }
{
    let (plain, mut rest) = skip_plain_lines(bytes);
    let mut list = PieceList::after(alloc, plain);
    let mut form = Vec::new(alloc);
    let mut run = LEAST_BLOCK;
    while !rest.is_empty() {
        if run >= LEAST_BLOCK {
            let size = run.min(MOST_BLOCK);
            if let Some((count, after)) = skip_well_formed_lines(alloc, rest, size, &mut form)? {
                list.add_well_formed(count);
                run = run.saturating_add(size);
                rest = after;
                continue;
            }
            run = 0;
        }
        let (line, after) = first_line(rest);
        let before = list.total;
        list.add_line(alloc, line, &mut form)?;
        run = if list.total == before {
            run.saturating_add(line.len())
        } else {
            0
        };
        rest = after;
    }
    list.is_open = ends_inside(bytes);
    Ok(list)
}
