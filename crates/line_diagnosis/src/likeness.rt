//! What the bytes of a malformed line look like, for its reason and its hint.

ghost use Rattle.std.specs.Prelude.{◌≡◌, ◌||◌, ◌==◌, true, nat_eq, IfSome};
ghost use Rattle.std.specs.List.{starts_with};
ghost use Rattle.line_diagnosis.specs.Likeness.{begins_with, begins_with_mark, ends_word, goes_on, has_one_nul, is_conflict_mark, is_html, is_html_tag, is_html_text, is_marked, is_utf16, magic};

use crate::reason::{Next, Packing};

impl Packing {
    /// Returns the first bytes of a file in this format.
    fn magic(self) -> &'static [u8]
        ensures value { result.now ≡ magic self }
    {
        match self {
            Packing::Gzip => b"\x1F\x8B",
            Packing::Xz => b"\xFD7zXZ",
            Packing::Zstd => b"\x28\xB5\x2F\xFD",
            Packing::Bzip2 => b"BZh",
        }
    }
}

/// Returns the format of a compressed file that begins with these bytes.
pub fn packing_of(line: &[u8]) -> Option<Packing>
    ensures begins { IfSome result (λ packing. starts_with nat_eq line.now (magic packing) ≡ true) }
{
    for packing in [Packing::Gzip, Packing::Xz, Packing::Zstd, Packing::Bzip2] {
        if line.starts_with(packing.magic()) {
            return Some(packing);
        }
    }
    None
}

/// Returns whether the bytes begin with a byte order mark in UTF-8.
pub fn begins_with_mark(line: &[u8]) -> bool
    ensures value { result ≡ begins_with_mark line.now }
{
    line.starts_with(b"\xEF\xBB\xBF")
}

/// Returns whether the bytes have no control characters but tabs.
pub fn is_text(bytes: &[u8]) -> bool {
    bytes.iter().all(|byte| *byte >= b' ' || *byte == b'\t')
}

/// Returns whether one of the first two bytes is NUL, and the other is not.
fn has_one_nul(first: Option<u8>, second: Option<u8>) -> bool
    ensures value { result ≡ has_one_nul first second }
{
    match (first, second) {
        (Some(0), Some(second)) => second != 0,
        (Some(_), Some(second)) => second == 0,
        _ => false,
    }
}

/// Returns whether the bytes begin as a UTF-16 text does: with its byte order mark, or with an
/// ASCII character other than NUL.
pub fn is_utf16(line: &[u8]) -> bool
    ensures value { result ≡ is_utf16 line.now }
{
    line.starts_with(b"\xFF\xFE")
        || line.starts_with(b"\xFE\xFF")
        || has_one_nul(line.get(0).copied(), line.get(1).copied())
}

/// Returns whether a byte is a blank.
fn is_blank(byte: u8) -> bool
    ensures value { result ≡ (byte == 32 || byte == 9) }
{
    byte == b' ' || byte == b'\t'
}

/// Returns the text before its first blank, and the text after this and further blanks.
fn split_word(text: &[u8]) -> (&[u8], &[u8]) {
    match text.iter().position(|byte| is_blank(*byte)) {
        Some(end) => (&text[..end], text[end..].trim_ascii_start()),
        None => (text, &[]),
    }
}

/// Returns whether a text begins with these letters, in any case.
fn begins_with(text: &[u8], letters: &[u8]) -> bool
    ensures value { result ≡ begins_with text.now letters.now }
{
    match text.get(..letters.len()) {
        Some(front) => front.eq_ignore_ascii_case(letters),
        None => false,
    }
}

/// Returns whether the name of a tag goes on with this byte.
fn goes_on(next: Option<u8>) -> bool
    ensures value { result ≡ goes_on next }
{
    match next {
        Some(byte) => byte.is_ascii_alphanumeric() || byte == b':',
        None => false,
    }
}

/// Returns whether a text begins with the first tag of an HTML document.
fn is_html_tag(text: &[u8]) -> bool
    ensures value { result ≡ is_html_tag text.now }
{
    begins_with(text, b"<html") && !goes_on(text.get(5).copied())
}

/// Returns whether a text begins with the first tag or the type of an HTML document.
fn is_html_text(text: &[u8]) -> bool
    ensures value { result ≡ is_html_text text.now }
{
    is_html_tag(text) || begins_with(text, b"<!doctype html")
}

/// Returns whether a line begins as an HTML document does.
pub fn is_html(line: &[u8]) -> bool
    ensures value { result ≡ is_html line.now }
{
    is_html_text(line.trim_ascii_start())
}

/// Returns whether a word ends before this byte, or at the end of the line.
fn ends_word(next: Option<u8>) -> bool
    ensures value { result ≡ ends_word next }
{
    match next {
        Some(byte) => is_blank(byte),
        None => true,
    }
}

/// Returns whether a line begins with a mark, which is a word.
fn is_marked(line: &[u8], mark: &[u8]) -> bool
    ensures value { result ≡ is_marked line.now mark.now }
{
    line.starts_with(mark) && ends_word(line.get(mark.len()).copied())
}

/// Returns whether a line is a mark of a merge conflict.
pub fn is_conflict_mark(line: &[u8]) -> bool
    ensures value { result ≡ is_conflict_mark line.now }
{
    is_marked(line, b"<<<<<<<")
        || is_marked(line, b"|||||||")
        || is_marked(line, b"=======")
        || is_marked(line, b">>>>>>>")
}

/// Returns whether `>` closes the IRI that goes on with a text: it comes before each `<` and `"`.
pub fn closes_iri(text: &[u8]) -> bool {
    match text
        .iter()
        .position(|byte| matches!(*byte, b'<' | b'>' | b'"'))
    {
        Some(at) => text[at] == b'>',
        None => false,
    }
}

/// Returns the text before the first byte with this value, and the text from it on. Returns None if there is none.
fn split_before(text: &[u8], mark: u8) -> Option<(&[u8], &[u8])> {
    let end = text.iter().position(|byte| *byte == mark)?;
    Some((&text[..end], &text[end..]))
}

/// Returns whether a text begins with an attribute of an XML tag, such as `xmlns:ex="..`, perhaps after white space.
pub fn is_attribute(text: &[u8]) -> bool {
    let Some((name, rest)) = split_before(text.trim_ascii_start(), b'=') else {
        return false;
    };
    !name.is_empty()
        && (rest.starts_with(b"=\"") || rest.starts_with(b"='"))
        && name
            .iter()
            .all(|byte| is_prefix_byte(*byte) || *byte == b':')
}

/// Returns whether a text has an end tag of XML.
pub fn has_end_tag(text: &[u8]) -> bool {
    text.windows(2).any(|pair| pair == b"</".as_slice())
}

/// Returns whether a text that follows `<` is the rest of an end tag of XML, and of the line.
pub fn is_end_tag(text: &[u8]) -> bool {
    match split_before(text, b'>') {
        Some((name, end)) => name.starts_with(b"/") && end.trim_ascii_end().len() == 1,
        None => false,
    }
}

/// Returns whether a text begins with an IRI without its angle brackets, such as `http://..`.
pub fn is_bare_iri(text: &[u8]) -> bool {
    match split_before(text, b':') {
        Some((scheme, rest)) => {
            !scheme.is_empty()
                && scheme.iter().all(|byte| byte.is_ascii_alphanumeric())
                && rest.starts_with(b"://")
        }
        None => false,
    }
}

/// Returns whether a byte may be in the prefix of a prefixed name (Turtle, section 6.5,
/// PN_PREFIX). Each byte of a character beyond ASCII may be.
fn is_prefix_byte(byte: u8) -> bool {
    byte.is_ascii_alphanumeric() || matches!(byte, b'_' | b'-' | b'.') || !byte.is_ascii()
}

/// Returns whether a byte may begin the local part of a prefixed name (Turtle, section 6.5, PN_LOCAL).
fn begins_local_part(byte: u8) -> bool {
    byte.is_ascii_alphanumeric() || matches!(byte, b'_' | b':' | b'%' | b'\\') || !byte.is_ascii()
}

/// Returns what follows the prefix and the colon that a text begins with.
fn after_prefix(text: &[u8]) -> Option<&[u8]> {
    let (prefix, rest) = split_before(text, b':')?;
    let begins_well =
        !matches!(prefix.first(), Some(byte) if byte.is_ascii_digit() || matches!(*byte, b'-' | b'.'));
    if begins_well && prefix.iter().all(|byte| is_prefix_byte(*byte)) {
        rest.get(1..)
    } else {
        None
    }
}

/// Returns whether a text begins with a prefixed name that has a local part, such as `ex:a`.
fn is_prefixed_name(text: &[u8]) -> bool {
    match after_prefix(text) {
        Some(rest) => matches!(rest.first(), Some(byte) if begins_local_part(*byte)),
        None => false,
    }
}

/// Returns whether a text begins with `a` in the place of a predicate.
fn is_a(text: &[u8]) -> bool {
    let (word, _) = split_word(text);
    word == b"a".as_slice() || text.starts_with(b"a<")
}

/// Returns whether a text begins with a directive of Turtle (section 2.4).
fn is_directive(text: &[u8]) -> bool {
    let (word, rest) = split_word(text);
    if word == b"@prefix".as_slice() || word == b"@base".as_slice() {
        return true;
    }
    if word.eq_ignore_ascii_case(b"prefix") {
        let (name, _) = split_word(rest);
        return after_prefix(name).is_some();
    }
    word.eq_ignore_ascii_case(b"base") && rest.starts_with(b"<")
}

/// Returns whether a text begins with a prefixed name as a subject: a predicate, a block of TriG, or nothing
/// follows it.
fn is_subject(text: &[u8]) -> bool {
    let (word, rest) = split_word(text);
    is_prefixed_name(word)
        && (rest.is_empty()
            || matches!(rest[0], b'<' | b'{')
            || is_a(rest)
            || is_prefixed_name(rest))
}

/// Returns whether a text begins with a collection as a subject, such as `(<a:s>) <a:p> ..`.
fn is_collection(text: &[u8]) -> bool {
    match text.strip_prefix(b"(") {
        Some(rest) => {
            let rest = rest.trim_ascii_start();
            rest.starts_with(b"<") || rest.starts_with(b"\"") || is_prefixed_name(rest)
        }
        None => false,
    }
}

/// Returns whether a text begins with a number of Turtle (section 2.5.2).
fn is_number(text: &[u8]) -> bool {
    let (word, _) = split_word(text);
    let digits = match word {
        [b'+' | b'-', digits @ ..] => digits,
        _ => word,
    };
    match digits {
        [b'.', digit, ..] => digit.is_ascii_digit(),
        [digit, ..] => digit.is_ascii_digit(),
        [] => false,
    }
}

/// Returns whether a text begins with a boolean of Turtle (section 2.5.3).
fn is_boolean(text: &[u8]) -> bool {
    let (word, _) = split_word(text);
    let name = match word {
        [name @ .., b'.' | b';' | b','] => name,
        _ => word,
    };
    name == b"true".as_slice() || name == b"false".as_slice()
}

/// Returns whether a text is Turtle, given what N-Quads would have at its beginning.
pub fn is_turtle(next: Next, text: &[u8]) -> bool {
    match next {
        Next::Subject => is_directive(text) || is_subject(text) || is_collection(text),
        Next::Predicate => is_a(text) || is_prefixed_name(text) || text.starts_with(b"{"),
        Next::Object => {
            is_prefixed_name(text)
                || is_number(text)
                || is_boolean(text)
                || matches!(text.first().copied(), Some(b'[' | b'(' | b';'))
        }
        Next::Datatype => is_prefixed_name(text),
        Next::Graph => text.starts_with(b";") || text.starts_with(b","),
        Next::Dot | Next::End => false,
    }
}
