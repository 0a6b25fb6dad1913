//! Lines whose terms are written without an escape and as in the canonical texts. They are found without an allocation.
//!
//! Only such lines are found. Of another line nothing is said, and `read_line` of nquads_core decides.

ghost use Rattle.std.specs.Prelude.{◌≡◌, ◌+◌, ◌≤◌, ◌<◌, true, List, Option, length, option_copied, IfSome};
ghost use Rattle.std.specs.Str.{IsUtf8};
ghost use Rattle.rdf_core.specs.declared.term.Term.{Term};
ghost use Rattle.rdf_core.specs.QuadFacts.{is_graph_name, is_iri, is_node};
ghost use Rattle.rdf_core.specs.QuadParts.{QuadParts};
ghost use Rattle.nquads_core.specs.Slices.{Denotes};
ghost use Rattle.nquads_core.specs.Splitting.{DenotesGraph, DenotesQuad};
ghost use Rattle.nquads_scan.specs.PlainLines.{AreLinesBefore, FirstLine};

use crate::checks::is_label;
use crate::plain::{after_label_sign, between_brackets, is_plain_form, is_plain_iri};
use crate::statement::cut_line;
use nquads_core::RawStatement;

/// Returns whether a slice is an IRI with a scheme, written without an escape.
fn is_iri_form(raw: &str) -> bool
    ensures { result ≡ true → (t : Term) × Denotes raw.now t × (is_iri t ≡ true) }
{
    match between_brackets(raw) {
        Some(iri) => is_plain_iri(iri),
        None => false,
    }
}

/// Returns whether a slice is a blank node label.
fn is_label_form(raw: &str) -> bool
    ensures { result ≡ true → (t : Term) × Denotes raw.now t × (is_node t ≡ true) }
{
    match after_label_sign(raw) {
        Some(label) => is_label(label),
        None => false,
    }
}

/// Returns whether a slice is an IRI, written without an escape, or a blank node label.
fn is_node_form(raw: &str) -> bool
    ensures { result ≡ true → (t : Term) × Denotes raw.now t × (is_node t ≡ true) }
{
    if is_iri_form(raw) {
        return true;
    }
    is_label_form(raw)
}

/// Returns whether there is no graph label, or it is an IRI, written without an escape, or a blank node label.
fn is_graph_form(raw: &RawStatement<'_>) -> bool
    ensures { result ≡ true → (g : Option Term) × DenotesGraph (option_copied raw.now.graph) g
        × (is_graph_name g ≡ true) }
{
    match raw.graph {
        Some(name) => is_node_form(name),
        None => true,
    }
}

/// Returns whether each slice of a statement is its own canonical text, and may be at its place.
fn is_plain_statement(raw: &RawStatement<'_>) -> bool
    ensures { result ≡ true → (q : QuadParts) × DenotesQuad raw.now q }
{
    if !is_node_form(raw.subject) {
        return false;
    }
    if !is_iri_form(raw.predicate) {
        return false;
    }
    is_plain_form(raw.object) && is_graph_form(raw)
}

/// Returns what follows the first line, if that line is plain.
fn after_plain_line(text: &str) -> Option<&str>
    requires some { 0 < length text.now }
    ensures line { IfSome result (λ rest. (q : Option QuadParts) × FirstLine text.now rest.now q) }
    ensures utf8 { IfSome result (λ rest. IsUtf8 rest.now) }
    ensures shorter { IfSome result (λ rest. length rest.now < length text.now) }
{
    let (statement, rest) = cut_line(text)?;
    let Some(raw) = statement else {
        return Some(rest);
    };
    if !is_plain_statement(&raw) {
        return None;
    }
    Some(rest)
}

/// Counts the lines at the front of a text that are seen to be well-formed (RDF 1.1 N-Quads, grammar), and returns what follows
/// them. Such a line holds a statement whose slices are their own canonical texts, or it is blank or a comment.
///
/// Of the next line this says nothing: one with an escape, a language tag in capitals or the datatype `xsd:string` is not seen to
/// be well-formed here, and may be. If the text is not UTF-8, returns 0 and the text. Allocates nothing.
pub fn skip_plain_lines(text: &[u8]) -> (u64, &[u8])
    ensures lines { (quads : List QuadParts) × AreLinesBefore quads result.0 result.1.now text.now }
    ensures shorter { result.0 + length result.1.now ≤ length text.now }
{
    let Ok(utf8) = simdutf8::basic::from_utf8(text) else {
        return (0, text);
    };
    let mut count = 0u64;
    let mut rest = utf8;
    while !rest.is_empty() {
        let Some(after) = after_plain_line(rest) else {
            return (count, rest.as_bytes());
        };
        count += 1;
        rest = after;
    }
    (count, rest.as_bytes())
}
