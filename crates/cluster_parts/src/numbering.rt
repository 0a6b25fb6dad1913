//! The lines of a block, read piece by piece and numbered.
ghost use Rattle.std.specs.Prelude.{◌≡◌, ◌+◌, ◌<◌, ◌++◌, ◌^◌, ℕ, List, length, IfErr, IfOk, OnOk};
ghost use Rattle.rdf_core.specs.QuadParts.{QuadParts};
ghost use Rattle.nquads_core.specs.Lines.{lines};
ghost use Rattle.nquads_core.specs.Pieces.{HaveStatements, IsFirstMalformed};
ghost use Rattle.nquads_core.specs.declared.fault.PieceFault.TheVariants.{BadLine};
ghost use Rattle.piece_cuts.specs.Cuts.{AreCuts};
ghost use Rattle.quad_filter.specs.Filter.{keeps};
ghost use Rattle.quad_filter.specs.Kept.{IsKept};
ghost use Rattle.text_pieces.specs.Forms.{AreNumberedBy};
ghost use Rattle.text_dict.specs.Forms.{IsForm};
ghost use Rattle.text_pieces.specs.Pieces.{AreGrown, IsPieceOf};
ghost use Rattle.cluster_parts.specs.Numbered.{AreQuadsOf, AreRead, text_at};

use dict_core::NumQuad;
use nquads_core::PieceFault;
use piece_cuts::Cuts;
use piece_cuts::laws::pieces_are_the_document;
use quad_filter::QuadFilter;
use std::alloc::{AllocError, Global};
use std::hash::RandomState;
use text_dict::TextDict;
use text_pieces::{TextPiece, add_piece, read_lines};

/// The least number of bytes of a piece, except of the last one. The text of a piece, and what is read of it, stay in the cache
/// of the processor.
const BYTES_A_PIECE: usize = 1 << 18;

/// The numbered quads of the lines of a block, and the number of its lines.
#[derive(Drop)]
pub(crate) struct NumberedLines {
    /// The N-Quads forms of the terms, by first appearance.
    pub(crate) texts: TextDict,
    /// The quads, in order, with repeats. Each number is that of a text.
    pub(crate) quads: Vec<NumQuad>,
    /// The number of lines, including those without a statement.
    pub(crate) lines: u64,
}

impl NumberedLines {
    ghost use Rattle.std.specs.Prelude.{[]};
    ghost use Rattle.quad_filter.specs.declared.filter.QuadFilter.{QuadFilter};
    ghost use Rattle.cluster_parts.specs.Numbered.{AreRead};

    /// Creates the state in which no line is read. Allocates nothing.
    fn new(alloc: Global, state: RandomState) -> NumberedLines
        ensures none { (filter : QuadFilter) → AreRead filter result [] }
    {
        NumberedLines {
            texts: TextDict::new(alloc, state),
            quads: Vec::new(alloc),
            lines: 0,
        }
    }
}

/// Returns the text with this number.
pub(crate) fn text_of(texts: &TextDict, number: u64) -> &[u8]
    requires known { number < length texts.now.texts }
    ensures value { result.now ≡ text_at texts.now.texts number }
    ensures form { IsForm result.now }
{
    texts.text(number)
}

/// Adds the quads and the lines of a piece to those that were read before.
fn add_read(alloc: Global, so_far: &mut NumberedLines, piece: TextPiece) -> Result<(), AllocError>
    requires room { so_far.old.lines + piece.lines < 2 ^ 64 }
    ensures numbered { OnOk result ((earlier : List (List ℕ)) (done quads : List QuadParts)
        → AreGrown earlier so_far.old.texts.texts → IsPieceOf earlier quads piece
        → AreNumberedBy done so_far.old.texts.texts so_far.old.quads.items
        → AreNumberedBy (done ++ quads) so_far.new.texts.texts so_far.new.quads.items) }
    ensures count { OnOk result (so_far.new.lines ≡ so_far.old.lines + piece.lines) }
{
    let lines = piece.lines;
    let added = add_piece(alloc, &mut so_far.texts, piece)?;
    so_far.quads.extend_from_slice(added.as_slice())?;
    so_far.lines += lines;
    Ok(())
}

/// Returns the fault of a piece that follows this many lines, with the number of the line among all of them.
fn fault_after(lines: u64, fault: PieceFault) -> PieceFault
    requires room { (k : ℕ) → fault ≡ BadLine k → lines + k < 2 ^ 64 }
    ensures line { (k : ℕ) → result ≡ BadLine k → (j : ℕ) × (fault ≡ BadLine j) × (k ≡ lines + j) }
{
    match fault {
        PieceFault::BadLine(line) => PieceFault::BadLine(lines + line),
        PieceFault::Memory => PieceFault::Memory,
    }
}

/// Reads the lines of a piece, after those that were read before, and adds the quads that the filter keeps.
fn add_lines(
    alloc: Global,
    state: RandomState,
    filter: &QuadFilter,
    so_far: &mut NumberedLines,
    piece: &[u8],
) -> Result<(), PieceFault>
    requires room { so_far.old.lines + length piece.now < 2 ^ 64 }
    ensures read { OnOk result ((before : List (List ℕ)) → AreRead filter.now so_far.old before
        → AreRead filter.now so_far.new (before ++ lines piece.now)) }
    ensures bad_line { IfErr result (λ fault. (k : ℕ) → fault ≡ BadLine k
        → (before : List (List ℕ)) → AreRead filter.now so_far.old before → IsFirstMalformed (before ++ lines piece.now) k) }
{
    let read = match read_lines(alloc, state, &so_far.texts, filter, piece) {
        Ok(read) => read,
        Err(fault) => return Err(fault_after(so_far.lines, fault)),
    };
    match add_read(alloc, so_far, read) {
        Ok(()) => Ok(()),
        Err(_) => Err(PieceFault::Memory),
    }
}

/// Reads the pieces of a block, one after the other.
fn number_pieces(
    alloc: Global,
    state: RandomState,
    filter: &QuadFilter,
    bytes: &[u8],
    cuts: &Cuts,
) -> Result<NumberedLines, PieceFault>
    requires fits { AreCuts bytes.now cuts.now }
    ensures quads { IfOk result (λ block. (all quads : List QuadParts) × HaveStatements (lines bytes.now) all
        × IsKept (keeps filter.now) all quads × AreQuadsOf quads block) }
    ensures count { IfOk result (λ block. block.lines ≡ length (lines bytes.now)) }
    ensures bad_line { IfErr result
        (λ fault. (k : ℕ) → fault ≡ BadLine k → IsFirstMalformed (lines bytes.now) k) }
{
    pieces_are_the_document();
    let mut so_far = NumberedLines::new(alloc, state);
    for i in 0..cuts.pieces() {
        match add_lines(alloc, state, filter, &mut so_far, cuts.piece(bytes, i)) {
            Ok(()) => {}
            Err(fault) => return Err(fault),
        }
    }
    Ok(so_far)
}

/// Reads a block of whole lines (RDF 1.1 N-Quads, grammar). Numbers the quads that the filter keeps, and perhaps others, by the
/// N-Quads forms of their terms, and counts the lines.
///
/// It reads the block in pieces. The quads that the filter keeps do not depend on where they end.
///
/// # Errors
/// - `BadLine(k)` if line k of the block, counted from 0, is the first that is malformed.
/// - `Memory` if an allocation fails.
pub(crate) fn number_kept(
    alloc: Global,
    state: RandomState,
    filter: &QuadFilter,
    bytes: &[u8],
) -> Result<NumberedLines, PieceFault>
    ensures quads { IfOk result (λ block. (all quads : List QuadParts) × HaveStatements (lines bytes.now) all
        × IsKept (keeps filter.now) all quads × AreQuadsOf quads block) }
    ensures count { IfOk result (λ block. block.lines ≡ length (lines bytes.now)) }
    ensures bad_line { IfErr result
        (λ fault. (k : ℕ) → fault ≡ BadLine k → IsFirstMalformed (lines bytes.now) k) }
{
    match Cuts::every(alloc, bytes, BYTES_A_PIECE) {
        Ok(cuts) => number_pieces(alloc, state, filter, bytes, &cuts),
        Err(_) => Err(PieceFault::Memory),
    }
}

/// Reads a block of whole lines, and numbers all its quads, as [`number_kept`] does.
///
/// # Errors
/// As [`number_kept`].
pub(crate) fn number_lines(
    alloc: Global,
    state: RandomState,
    bytes: &[u8],
) -> Result<NumberedLines, PieceFault>
    ensures quads { IfOk result (λ block. (quads : List QuadParts) × HaveStatements (lines bytes.now) quads
        × AreQuadsOf quads block) }
    ensures count { IfOk result (λ block. block.lines ≡ length (lines bytes.now)) }
    ensures bad_line { IfErr result
        (λ fault. (k : ℕ) → fault ≡ BadLine k → IsFirstMalformed (lines bytes.now) k) }
{
    match number_kept(alloc, state, &QuadFilter::All, bytes) {
        Ok(block) => Ok(block),
        Err(fault) => Err(fault),
    }
}
