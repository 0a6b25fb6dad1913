//! Delimited texts without an escape, found byte by byte and copied at once.
//!
//! `read_parts` is the plain form, which reads character by character. Two facts make this form
//! faster. A byte above 127 belongs to a character that may occur unescaped, so the bytes need no
//! decoding. A run without an escape is itself the decoded text.
//!
//! Blocks of 16 bytes are checked without an early exit, so that the compiler checks the bytes of a
//! block at once. The rest is checked byte by byte.

ghost use Rattle.std.specs.Prelude.{◌≡◌, ◌<◌, ◌≤◌, true, not, length, take, get_or, IfSome};
ghost use Rattle.std.specs.List.{list_all};
ghost use Rattle.rdf_core.specs.Characters.{is_iri_char, is_string_char};
ghost use Rattle.rdf_core.specs.LexicalReading.{IsPlain};
ghost use Rattle.rdf_core.specs.declared.lexical.escapes.Inside.TheVariants as inside;

/// How many bytes are checked at once.
const BLOCK: usize = 16;

/// Returns whether this byte may not occur unescaped in an IRI.
#[inline(always)]
fn ends_iri(b: u8) -> bool
    ensures { is_iri_char b ≡ not result }
{
    (b <= b' ')
        | (b == b'<')
        | (b == b'>')
        | (b == b'"')
        | (b == b'{')
        | (b == b'}')
        | (b == b'|')
        | (b == b'^')
        | (b == b'`')
        | (b == b'\\')
}

/// Returns whether all these bytes may occur unescaped in an IRI.
#[inline(always)]
fn are_iri_bytes(bytes: &[u8]) -> bool
    ensures { result ≡ list_all is_iri_char bytes.now }
{
    let mut ends = false;
    for b in bytes {
        ends = ends | ends_iri(*b);
    }
    !ends
}

/// Returns the length of the blocks at the front whose bytes may all occur unescaped in an IRI.
fn iri_blocks(bytes: &[u8]) -> usize
    ensures within { result ≤ length bytes.now }
    ensures raw { list_all is_iri_char (take result bytes.now) ≡ true }
{
    let mut at = 0;
    while bytes.len() - at >= BLOCK && are_iri_bytes(&bytes[at..at + BLOCK]) {
        at += BLOCK;
    }
    at
}

/// Returns whether this byte may not occur unescaped in a string.
#[inline(always)]
fn ends_string(b: u8) -> bool
    ensures { is_string_char b ≡ not result }
{
    (b == b'"') | (b == b'\\') | (b == b'\n') | (b == b'\r')
}

/// Returns whether all these bytes may occur unescaped in a string.
#[inline(always)]
fn are_string_bytes(bytes: &[u8]) -> bool
    ensures { result ≡ list_all is_string_char bytes.now }
{
    let mut ends = false;
    for b in bytes {
        ends = ends | ends_string(*b);
    }
    !ends
}

/// Returns the length of the blocks at the front whose bytes may all occur unescaped in a string.
fn string_blocks(bytes: &[u8]) -> usize
    ensures within { result ≤ length bytes.now }
    ensures raw { list_all is_string_char (take result bytes.now) ≡ true }
{
    let mut at = 0;
    while bytes.len() - at >= BLOCK && are_string_bytes(&bytes[at..at + BLOCK]) {
        at += BLOCK;
    }
    at
}

/// Returns the place of the `>` that ends an IRI without an escape.
fn end_of_iri(bytes: &[u8]) -> Option<usize>
    ensures { IfSome result (λ end. (end < length bytes.now) × (get_or bytes.now end 0 ≡ 62)
        × (list_all is_iri_char (take end bytes.now) ≡ true)) }
{
    for i in iri_blocks(bytes)..bytes.len() {
        if ends_iri(bytes[i]) {
            return if bytes[i] == b'>' { Some(i) } else { None };
        }
    }
    None
}

/// Returns the place of the quote that ends a string without an escape.
fn end_of_string(bytes: &[u8]) -> Option<usize>
    ensures { IfSome result (λ end. (end < length bytes.now) × (get_or bytes.now end 0 ≡ 34)
        × (list_all is_string_char (take end bytes.now) ≡ true)) }
{
    for i in string_blocks(bytes)..bytes.len() {
        if ends_string(bytes[i]) {
            return if bytes[i] == b'"' { Some(i) } else { None };
        }
    }
    None
}

/// Returns an IRI without an escape up to its `>`, and the text after that. Returns None if the IRI
/// has an escape, a character that must be escaped, or no `>`.
pub fn plain_iri(text: &str) -> Option<(&str, &str)>
    ensures { IfSome result (λ p. IsPlain inside.Iri 62 text.now p.0.now p.1.now) }
{
    let end = end_of_iri(text.as_bytes())?;
    Some((&text[..end], &text[end + 1..]))
}

/// Returns a string without an escape up to its closing quote, and the text after that. Returns
/// None if the string has an escape, a line end, or no closing quote.
pub fn plain_string(text: &str) -> Option<(&str, &str)>
    ensures { IfSome result (λ p. IsPlain inside.Quoted 34 text.now p.0.now p.1.now) }
{
    let end = end_of_string(text.as_bytes())?;
    Some((&text[..end], &text[end + 1..]))
}
