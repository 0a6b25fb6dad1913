//! A piece of a document, read against a dictionary.
ghost use Rattle.std.specs.Prelude.{◌≡◌, ◌≤◌, ℕ, [], length, map, IfOk, IfErr, OnOk};
ghost use Rattle.std.specs.List.{All};
ghost use Rattle.rdf_core.specs.QuadParts.{parts_of};
ghost use Rattle.rdf_core.specs.Serialization.{serialization};
ghost use Rattle.nquads_core.specs.Laws.{IsNQuadsTerm};
ghost use Rattle.nquads_core.specs.Lines.{lines};
ghost use Rattle.nquads_core.specs.Pieces.{IsFirstMalformed};
ghost use Rattle.nquads_core.specs.declared.fault.PieceFault.TheVariants.{BadLine};
ghost use Rattle.dict_core.specs.Appearances.{terms_of};
ghost use Rattle.text_pieces.specs.Pieces.{IsRead};
ghost use Rattle.text_pieces.specs.Slices.{AreQuadsOf, AreTermNumbers, IsNumberedPiece, IsPlaced};

use crate::hashes::{count_lacking_slices, slice_hashes};
use crate::naming::{NamingFault, number_text};
use crate::new_texts::NewTexts;
use crate::relevance::relevant_statements;
use crate::renumbering::renumbered_quads;
use crate::statements::number_statements;
use crate::text_piece::{Seen, TextPiece};
use dict_core::{Dict, NumQuad, number_piece};
use nquads_core::{Piece, PieceFault, RawStatement, read_piece};
use nquads_scan::split_piece;
use quad_filter::QuadFilter;
use rdf_core::{Term, write_term};
use std::alloc::{AllocError, Global};
use std::hash::RandomState;
use text_dict::TextDict;

/// Reads a piece of an N-Quads document (RDF 1.1 N-Quads, grammar) against a dictionary. Numbers its quads, and counts
/// its lines. The dictionary is only borrowed, so pieces may be read in parallel.
///
/// Each quad that the filter keeps is numbered. Others may be left out, after they were validated.
///
/// For speed the piece is split into slices, and a slice that is a text of the dictionary is not read. A piece
/// that cannot be read like this is read by `read_piece`.
///
/// # Errors
/// - `BadLine(k)` if line k of the piece, counted from 0, is the first that is malformed.
/// - `Memory` if an allocation fails.
pub fn read_lines(
    alloc: Global,
    state: RandomState,
    dict: &TextDict,
    filter: &QuadFilter,
    bytes: &[u8],
) -> Result<TextPiece, PieceFault>
    ensures read { IfOk result (IsRead filter.now dict.now.texts bytes.now) }
    ensures bad_line { IfErr result
        (λ fault. (k : ℕ) → fault ≡ BadLine k → IsFirstMalformed (lines bytes.now) k) }
{
    match read_split(alloc, dict, filter, bytes) {
        Ok(piece) => Ok(piece),
        Err(NamingFault::NeedsFullReader) => read_quads(alloc, state, dict, filter, bytes),
        Err(NamingFault::Memory) => Err(PieceFault::Memory),
    }
}

/// Reads a piece by its slices.
fn read_split(
    alloc: Global,
    dict: &TextDict,
    filter: &QuadFilter,
    bytes: &[u8],
) -> Result<TextPiece, NamingFault>
    ensures read { IfOk result (IsRead filter.now dict.now.texts bytes.now) }
{
    let Some(split) = split_piece(alloc, bytes)? else {
        return Err(NamingFault::NeedsFullReader);
    };
    let raws = split.statements.as_slice();
    match filter {
        QuadFilter::All => number_kept(alloc, dict, raws, seen_in(raws, false), split.lines),
        QuadFilter::AnyOf(_) => {
            let kept = relevant_statements(alloc, filter, raws)?;
            let seen = seen_in(raws, !bytes.is_ascii());
            number_kept(alloc, dict, kept.as_slice(), seen, split.lines)
        }
    }
}

/// Returns what statements have. The last field is given.
fn seen_in(raws: &[RawStatement<'_>], lacks_beyond_ascii: bool) -> Seen {
    Seen {
        default_graph: raws.iter().any(|raw| raw.graph.is_none()),
        named_graph: raws.iter().any(|raw| raw.graph.is_some()),
        lacks_beyond_ascii,
    }
}

/// Returns what quads have, of which none is left out.
fn seen_in_quads(quads: &[NumQuad]) -> Seen {
    Seen {
        default_graph: quads.iter().any(|quad| quad.g.is_none()),
        named_graph: quads.iter().any(|quad| quad.g.is_some()),
        lacks_beyond_ascii: false,
    }
}

/// Numbers the statements of a piece that are kept. The piece has this number of lines.
fn number_kept(
    alloc: Global,
    dict: &TextDict,
    kept: &[RawStatement<'_>],
    seen: Seen,
    lines: u64,
) -> Result<TextPiece, NamingFault>
    ensures numbered { IfOk result (IsNumberedPiece dict.now.texts kept.now) }
    ensures lines { IfOk result (λ piece. piece.lines ≡ lines) }
{
    let hashes = slice_hashes(alloc, dict.state(), kept)?;
    let room = count_lacking_slices(dict, hashes.as_slice());
    let mut new = TextDict::with_room(alloc, dict.state(), room)?;
    let quads = number_statements(alloc, dict, &mut new, kept, hashes.as_slice())?;
    let hashed = NewTexts::of(alloc, new)?;
    Ok(TextPiece {
        base: dict.len(),
        new: hashed,
        quads,
        lines,
        seen,
    })
}

/// Reads a piece quad by quad. Leaves out none.
fn read_quads(
    alloc: Global,
    state: RandomState,
    dict: &TextDict,
    filter: &QuadFilter,
    bytes: &[u8],
) -> Result<TextPiece, PieceFault>
    ensures read { IfOk result (IsRead filter.now dict.now.texts bytes.now) }
    ensures bad_line { IfErr result
        (λ fault. (k : ℕ) → fault ≡ BadLine k → IsFirstMalformed (lines bytes.now) k) }
{
    let piece = match read_piece(alloc, bytes) {
        Ok(piece) => piece,
        Err(fault) => return Err(fault),
    };
    let lines = piece.lines;
    match number_quads(alloc, state, dict, piece) {
        Ok((new, quads)) => Ok(TextPiece {
            base: dict.len(),
            new,
            seen: seen_in_quads(quads.as_slice()),
            quads,
            lines,
        }),
        Err(_) => Err(PieceFault::Memory),
    }
}

/// Numbers the quads of a piece.
fn number_quads(
    alloc: Global,
    state: RandomState,
    dict: &TextDict,
    piece: Piece,
) -> Result<(NewTexts, Vec<NumQuad>), AllocError>
    requires occur { All IsNQuadsTerm (terms_of (map parts_of piece.quads.items)) }
    ensures numbered { IfOk result (λ x. AreQuadsOf dict.now.texts x.0.texts
        (map parts_of piece.quads.items) x.1.items) }
{
    let local = number_piece(alloc, state, piece)?;
    let mut new = TextDict::with_state(alloc, dict.state());
    let numbers = number_terms(alloc, dict, &mut new, local.dict())?;
    let quads = renumbered_quads(alloc, numbers.as_slice(), local.quads())?;
    let hashed = NewTexts::of(alloc, new)?;
    Ok((hashed, quads))
}

/// Returns the number of each of these terms. Texts that the dictionary lacks are appended to the new texts.
fn number_terms(
    alloc: Global,
    dict: &TextDict,
    new: &mut TextDict,
    terms: &Dict,
) -> Result<Vec<u64>, AllocError>
    requires state { new.old.state ≡ dict.now.state }
    requires no_texts { new.old.texts ≡ [] }
    requires occur { All IsNQuadsTerm terms.now }
    ensures numbers { IfOk result
        (λ v. AreTermNumbers dict.now.texts new.new.texts terms.now v.items) }
{
    let mut numbers = Vec::with_capacity(alloc, terms.len())?;
    let mut form = Vec::new(alloc);
    for n in 0..terms.len() as u64 {
        numbers.push_reserved(number_term(dict, new, &mut form, terms.term(n))?);
    }
    Ok(numbers)
}

/// Returns the number of a term. If the dictionary lacks its text and it is new in the piece, the text is appended. `form` is a
/// buffer for the text.
fn number_term(
    dict: &TextDict,
    new: &mut TextDict,
    form: &mut Vec<u8>,
    term: &Term,
) -> Result<u64, AllocError>
    requires state { new.old.state ≡ dict.now.state }
    requires occurs { IsNQuadsTerm term.now }
    ensures state { new.new.state ≡ dict.now.state }
    ensures number { IfOk result
        (IsPlaced dict.now.texts new.old.texts new.new.texts (serialization term.now)) }
{
    form.clear();
    write_term(term, form)?;
    number_text(dict, new, form.as_slice())
}
