//! Reading a piece of a document.

ghost use Rattle.std.specs.Prelude.{◌≡◌, ◌<◌, ◌∷◌, ◌+◌, ◌++◌, ℕ, length, map, option_map, option_to_list, OnOk, IfOk, IfErr};
ghost use Rattle.rdf_core.specs.QuadParts.{parts_of};
ghost use Rattle.nquads_core.specs.Lines.{begins_with_lf, lines};
ghost use Rattle.nquads_core.specs.LineCuts.{HasNoCr, IsLineAfter};
ghost use Rattle.nquads_core.specs.Pieces.{HaveStatements, IsFirstMalformed};
ghost use Rattle.nquads_core.specs.declared.fault.PieceFault.TheVariants.{BadLine};

use crate::fault::{LineFault, PieceFault};
use crate::line::read_line;
use memchr::{memchr, memchr2};
use rdf_core::Quad;
use std::alloc::{AllocFailed, Global};

/// What a piece of a document holds.
#[derive(Drop)]
pub struct Piece {
    /// The quads of its lines, in order, with repeats.
    pub quads: Vec<Quad>,
    /// The number of its lines, including those without a statement.
    pub lines: u64,
}

fn begins_with_lf(text: &[u8]) -> bool
    ensures { result ≡ begins_with_lf text.now }
{
    !text.is_empty() && text[0] == b'\n'
}

/// Splits off the first line of a text. Returns it without its line end, and what follows the line end (RDF 1.1
/// N-Quads, [8] `EOL`).
///
/// # Requires
/// The text is not empty.
pub fn first_line(text: &[u8]) -> (&[u8], &[u8])
    requires { 0 < length text.now }
    ensures lines { lines text.now ≡ result.0.now ∷ lines result.1.now }
    ensures shorter { length result.1.now < length text.now }
{
    let Some(end) = memchr2(b'\n', b'\r', text) else {
        return (text, &[]);
    };
    let line = &text[..end];
    let rest = &text[end + 1..];
    if text[end] == b'\n' {
        return (line, rest);
    }
    if begins_with_lf(rest) {
        return (line, &rest[1..]);
    }
    (line, rest)
}

/// Appends a quad, if there is one.
fn add(quads: &mut Vec<Quad>, quad: Option<Quad>) -> Result<(), AllocFailed<Quad>>
    ensures { OnOk result (map parts_of quads.new.items
        ≡ map parts_of quads.old.items ++ option_to_list (option_map parts_of quad)) }
{
    if let Some(quad) = quad {
        quads.push(quad)?;
    }
    Ok(())
}

/// Reads a piece of an N-Quads document (RDF 1.1 N-Quads, [1] `nquadsDoc`). Returns the quads of its
/// lines, in order, with repeats, and the number of its lines.
///
/// A line ends with LF, with CR LF, or with a CR that no LF follows ([8] `EOL`). What follows the last line
/// end is a line if it is not empty. A line without a statement counts, but has no quad.
///
/// # Errors
/// - `BadLine(k)` if line k of the piece, counted from 0, is the first that is malformed.
/// - `Memory` if an allocation fails.
pub fn read_piece(alloc: Global, bytes: &[u8]) -> Result<Piece, PieceFault>
    ensures quads { IfOk result
        (λ piece. HaveStatements (lines bytes.now) (map parts_of piece.quads.items)) }
    ensures lines { IfOk result (λ piece. piece.lines ≡ length (lines bytes.now)) }
    ensures bad_line { IfErr result
        (λ fault. (k : ℕ) → fault ≡ BadLine k → IsFirstMalformed (lines bytes.now) k) }
{
    let mut quads = Vec::new(alloc);
    let mut count = 0u64;
    let mut rest = bytes;
    while !rest.is_empty() {
        let (line, after) = first_line(rest);
        let quad = match read_line(alloc, line) {
            Ok(quad) => quad,
            Err(LineFault::Bad) => return Err(PieceFault::BadLine(count)),
            Err(LineFault::Memory) => return Err(PieceFault::Memory),
        };
        add(&mut quads, quad)?;
        count += 1;
        rest = after;
    }
    Ok(Piece {
        quads,
        lines: count,
    })
}

/// Returns what follows the first line of a text without CR.
fn after_line(text: &[u8]) -> &[u8]
    requires some { 0 < length text.now }
    requires no_cr { HasNoCr text.now }
    ensures lines { IsLineAfter text.now result.now }
    ensures no_cr { HasNoCr result.now }
    ensures shorter { length result.now < length text.now }
{
    match memchr(b'\n', text) {
        Some(end) => &text[end + 1..],
        None => &[],
    }
}

/// Counts the lines of a text without CR. A search for one byte is faster than a search for two.
fn count_plain_lines(text: &[u8]) -> u64
    requires no_cr { HasNoCr text.now }
    ensures count { result ≡ length (lines text.now) }
{
    let mut count = 0u64;
    let mut rest = text;
    while !rest.is_empty() {
        rest = after_line(rest);
        count += 1;
    }
    count
}

/// Counts the lines of a text that may contain a CR.
fn count_all_lines(text: &[u8]) -> u64
    ensures count { result ≡ length (lines text.now) }
{
    let mut count = 0u64;
    let mut rest = text;
    while !rest.is_empty() {
        let (_, after) = first_line(rest);
        count += 1;
        rest = after;
    }
    count
}

/// Returns the number of lines of a piece, as `read_piece` counts them. Malformed lines count too.
///
/// It allocates nothing.
pub fn count_lines(bytes: &[u8]) -> u64
    ensures count { result ≡ length (lines bytes.now) }
{
    match memchr(b'\r', bytes) {
        Some(_) => count_all_lines(bytes),
        None => count_plain_lines(bytes),
    }
}
