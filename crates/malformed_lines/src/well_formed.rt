//! Lines that are seen to be well-formed by their slices, as loading sees it.
//!
//! Of another line `false` says nothing, and `diagnose` of line_diagnosis decides.
ghost use Rattle.std.specs.Prelude.{◌≡◌, ◌+◌, ◌-◌, ◌≤◌, ◌<◌, ◌^◌, ◌++◌, true, List, Option, get_or, length, IfOk, IfSome};
ghost use Rattle.rdf_core.specs.declared.term.Term.{Term};
ghost use Rattle.rdf_core.specs.QuadFacts.{is_iri, is_node};
ghost use Rattle.rdf_core.specs.QuadParts.{QuadParts};
ghost use Rattle.rdf_core.specs.Serialization.{serialization};
ghost use Rattle.nquads_core.specs.Grammar.{HasStatement};
ghost use Rattle.nquads_core.specs.Lines.{lines};
ghost use Rattle.nquads_core.specs.Pieces.{HaveStatements};
ghost use Rattle.nquads_core.specs.Slices.{Denotes};
ghost use Rattle.nquads_core.specs.Splitting.{DenoteAll, DenotesQuad};
ghost use Rattle.nquads_scan.specs.PlainLines.{AreLinesBefore};

use memchr::memchr;
use nquads_core::RawStatement;
use nquads_scan::{Form, canonical, split_piece};
use std::alloc::{AllocError, Global};

/// Returns the first byte of a text, or 0 if it is empty.
fn first_byte(text: &[u8]) -> u8
    ensures value { result ≡ get_or text.now 0 0 }
{
    if text.is_empty() { 0 } else { text[0] }
}

/// Returns the first byte of the N-Quads form of the term that a slice denotes, or None if the slice denotes no term.
/// `form` is a buffer for that form.
fn first_of_form(alloc: Global, raw: &str, form: &mut Vec<u8>) -> Result<Option<u8>, AllocError>
    ensures first { IfOk result (λ first. IfSome first
        (λ b. (t : Term) × Denotes raw.now t × (get_or (serialization t) 0 0 ≡ b))) }
{
    form.clear();
    match canonical(alloc, raw, form)? {
        Some(Form::Same) => Ok(Some(first_byte(raw.as_bytes()))),
        Some(Form::Other) => Ok(Some(first_byte(form.as_slice()))),
        None => Ok(None),
    }
}

/// Returns whether a slice denotes a term.
fn denotes_term(alloc: Global, raw: &str, form: &mut Vec<u8>) -> Result<bool, AllocError>
    ensures term { IfOk result (λ is. is ≡ true → (t : Term) × Denotes raw.now t) }
{
    match first_of_form(alloc, raw, form)? {
        Some(_) => Ok(true),
        None => Ok(false),
    }
}

/// Returns whether a slice denotes an IRI.
fn denotes_iri(alloc: Global, raw: &str, form: &mut Vec<u8>) -> Result<bool, AllocError>
    ensures iri { IfOk result
        (λ is. is ≡ true → (t : Term) × Denotes raw.now t × (is_iri t ≡ true)) }
{
    match first_of_form(alloc, raw, form)? {
        Some(first) => Ok(first == b'<'),
        None => Ok(false),
    }
}

/// Returns whether a slice denotes an IRI or a blank node.
fn denotes_node(alloc: Global, raw: &str, form: &mut Vec<u8>) -> Result<bool, AllocError>
    ensures node { IfOk result
        (λ is. is ≡ true → (t : Term) × Denotes raw.now t × (is_node t ≡ true)) }
{
    match first_of_form(alloc, raw, form)? {
        Some(first) => Ok(first != b'"'),
        None => Ok(false),
    }
}

/// Returns whether each slice of a statement denotes a term that is allowed at its place.
fn denotes_quad(
    alloc: Global,
    raw: &RawStatement<'_>,
    form: &mut Vec<u8>,
) -> Result<bool, AllocError>
    ensures quad { IfOk result (λ is. is ≡ true → (q : QuadParts) × DenotesQuad raw.now q) }
{
    if !denotes_node(alloc, raw.subject, form)? {
        return Ok(false);
    }
    if !denotes_iri(alloc, raw.predicate, form)? {
        return Ok(false);
    }
    if !denotes_term(alloc, raw.object, form)? {
        return Ok(false);
    }
    match raw.graph {
        Some(name) => denotes_node(alloc, name, form),
        None => Ok(true),
    }
}

/// Returns whether each of these statements denotes a quad.
fn denote_quads(
    alloc: Global,
    raws: &[RawStatement<'_>],
    form: &mut Vec<u8>,
) -> Result<bool, AllocError>
    ensures quads { IfOk result
        (λ are. are ≡ true → (quads : List QuadParts) × DenoteAll raws.now quads) }
{
    for raw in raws {
        if !denotes_quad(alloc, raw, form)? {
            return Ok(false);
        }
    }
    Ok(true)
}

/// Returns the number of lines of a text, if each of them is seen to be well-formed: it holds a statement, or it is blank
/// or a comment (RDF 1.1 N-Quads, grammar). `form` is a buffer for the N-Quads form of a term.
///
/// None says nothing.
fn well_formed_lines(
    alloc: Global,
    text: &[u8],
    form: &mut Vec<u8>,
) -> Result<Option<u64>, AllocError>
    ensures statements { IfOk result (λ found. IfSome found
        (λ _. (quads : List QuadParts) × HaveStatements (lines text.now) quads)) }
    ensures count { IfOk result (λ found. IfSome found (λ n. n ≡ length (lines text.now))) }
{
    let Some(split) = split_piece(alloc, text)? else {
        return Ok(None);
    };
    if !denote_quads(alloc, split.statements.as_slice(), form)? {
        return Ok(None);
    }
    Ok(Some(split.lines))
}

/// Splits off the lines at the front of a text, up to the first line feed after `size` bytes. Returns them and what
/// follows them, or None if no line feed is near.
fn first_lines(text: &[u8], size: usize) -> Option<(&[u8], &[u8])>
    requires some { 0 < length text.now }
    requires small { size < 2 ^ 62 }
    ensures lines { IfSome result (λ x. lines text.now ≡ lines x.0.now ++ lines x.1.now) }
    ensures lengths { IfSome result (λ x. length x.0.now + length x.1.now ≡ length text.now) }
    ensures some { IfSome result (λ x. 0 < length x.0.now) }
{
    if text.len() <= size {
        return Some((text, &[]));
    }
    let end = text.len().min(2 * size);
    match memchr(b'\n', &text[size..end]) {
        Some(at) => Some(text.split_at(size + at + 1)),
        None => None,
    }
}

/// Counts lines at the front of a text that are seen to be well-formed, at least `size` bytes or all, and returns what
/// follows them. Returns None if one of them is not. `form` is a buffer for the N-Quads form of a term.
///
/// None says nothing. The lines are at most two times `size` bytes.
pub(crate) fn skip_well_formed_lines<'d>(
    alloc: Global,
    text: &'d [u8],
    size: usize,
    form: &mut Vec<u8>,
) -> Result<Option<(u64, &'d [u8])>, AllocError>
    requires some { 0 < length text.now }
    requires small { size < 2 ^ 62 }
    ensures lines { IfOk result (λ found. IfSome found
        (λ x. (quads : List QuadParts) × AreLinesBefore quads x.0 x.1.now text.now)) }
    ensures fewer { IfOk result (λ found. IfSome found
        (λ x. x.0 + length x.1.now ≤ length text.now)) }
    ensures shorter { IfOk result (λ found. IfSome found
        (λ x. length x.1.now < length text.now)) }
{
    let Some((block, after)) = first_lines(text, size) else {
        return Ok(None);
    };
    match well_formed_lines(alloc, block, form)? {
        Some(count) => Ok(Some((count, after))),
        None => Ok(None),
    }
}

/// Returns the last byte of a text, or 0 if it is empty.
fn last_byte(text: &[u8]) -> u8
    ensures value { result ≡ get_or text.now (length text.now - 1) 0 }
{
    if text.is_empty() {
        0
    } else {
        text[text.len() - 1]
    }
}

/// Returns whether a line, without its line end, is seen to be well-formed. `form` is a buffer for the N-Quads form of a
/// term.
///
/// `false` says nothing.
pub(crate) fn is_well_formed_line(
    alloc: Global,
    line: &[u8],
    form: &mut Vec<u8>,
) -> Result<bool, AllocError>
    ensures well_formed { IfOk result
        (λ is. is ≡ true → (q : Option QuadParts) × HasStatement line.now q) }
{
    let last = last_byte(line);
    if last == b'\n' || last == b'\r' {
        return Ok(false);
    }
    match well_formed_lines(alloc, line, form)? {
        Some(count) => Ok(count == 1),
        None => Ok(false),
    }
}
