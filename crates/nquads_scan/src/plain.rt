//! Slices that are their own canonical text, found without decoding the term.
//!
//! Only slices without an escape are found. Of other slices `false` says nothing.

ghost use Rattle.std.specs.Prelude.{◌≡◌, true, not, IfSome};
ghost use Rattle.std.specs.List.{list_all};
ghost use Rattle.rdf_core.specs.Characters.{is_iri_char};
ghost use Rattle.nquads_scan.specs.Canonical.{HasForm};
ghost use Rattle.nquads_scan.specs.Plain.{is_plain_iri, IsBracketed, IsLabelled, IsPlainString, IsPlainSuffix};

use crate::checks::{is_label, is_lower_tag};
use crate::search::search;
use rdf_core::lexical::has_scheme;
use rdf_core::vocabulary::XSD_STRING;

/// Returns whether this byte may not occur unescaped in an IRI.
#[inline(always)]
fn ends_iri(b: u8) -> bool
    ensures { is_iri_char b ≡ not result }
{
    (b <= b' ')
        | (b == b'<')
        | (b == b'>')
        | (b == b'"')
        | (b == b'{')
        | (b == b'}')
        | (b == b'|')
        | (b == b'^')
        | (b == b'`')
        | (b == b'\\')
}

/// Returns whether all these bytes may occur unescaped in an IRI. It has no early exit, so that the compiler compares
/// many bytes at once.
#[inline(always)]
fn are_iri_bytes(bytes: &[u8]) -> bool
    ensures { result ≡ list_all is_iri_char bytes.now }
{
    let mut ends = false;
    for b in bytes {
        ends = ends | ends_iri(*b);
    }
    !ends
}

/// Returns whether this is an IRI with a scheme, written without an escape.
pub fn is_plain_iri(inside: &str) -> bool
    ensures { result ≡ is_plain_iri inside.now }
{
    are_iri_bytes(inside.as_bytes()) && has_scheme(inside)
}

/// Returns what is between `<` and `>`, if these are at the ends of the text.
pub fn between_brackets(text: &str) -> Option<&str>
    ensures { IfSome result (λ inside. IsBracketed text.now inside.now) }
{
    let bytes = text.as_bytes();
    let len = bytes.len();
    if len < 2 || bytes[0] != b'<' || bytes[len - 1] != b'>' {
        return None;
    }
    Some(&text[1..len - 1])
}

/// Splits a literal into its string, if this has no escape, and what follows the closing quote.
fn cut_string(text: &str) -> Option<(&str, &str)>
    ensures { IfSome result (λ x. IsPlainString text.now x.0.now x.1.now) }
{
    let bytes = text.as_bytes();
    if bytes.is_empty() || bytes[0] != b'"' {
        return None;
    }
    let end = search(bytes, 1, b'"', b'\\');
    if end >= bytes.len() || bytes[end] != b'"' {
        return None;
    }
    Some((&text[1..end], &text[end + 1..]))
}

/// Returns whether the text after a closing quote is as in the canonical text: nothing, a language tag in lower case,
/// or a datatype other than xsd:string.
pub fn is_plain_suffix(suffix: &str) -> bool
    ensures { result ≡ true → IsPlainSuffix suffix.now }
{
    let bytes = suffix.as_bytes();
    if bytes.is_empty() {
        return true;
    }
    if bytes[0] == b'@' {
        return is_lower_tag(&bytes[1..]);
    }
    if bytes.len() < 2 || bytes[0] != b'^' || bytes[1] != b'^' {
        return false;
    }
    match between_brackets(&suffix[2..]) {
        Some(datatype) => datatype != XSD_STRING && is_plain_iri(datatype),
        None => false,
    }
}

/// Returns the label of a blank node after `_:`, if the text begins with that.
pub fn after_label_sign(text: &str) -> Option<&str>
    ensures { IfSome result (λ label. IsLabelled text.now label.now) }
{
    let bytes = text.as_bytes();
    if bytes.len() < 2 || bytes[0] != b'_' || bytes[1] != b':' {
        return None;
    }
    Some(&text[2..])
}

/// Returns whether a slice is its own canonical text, for slices without an escape.
pub fn is_plain_form(raw: &str) -> bool
    ensures { result ≡ true → HasForm raw.now raw.now }
{
    if let Some(iri) = between_brackets(raw) {
        return is_plain_iri(iri);
    }
    if let Some(label) = after_label_sign(raw) {
        return is_label(label);
    }
    match cut_string(raw) {
        Some((_, suffix)) => is_plain_suffix(suffix),
        None => false,
    }
}
