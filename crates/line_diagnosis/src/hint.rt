//! The hint for a malformed line.

ghost use Rattle.std.specs.Prelude.{◌≡◌, ℕ, List, length, min, take, true, IfSome, Some};
ghost use Rattle.line_diagnosis.specs.Safe.{IsSafe, suits};
ghost use Rattle.line_diagnosis.specs.declared.reason.Found.TheVariants.{Char};
ghost use Rattle.line_diagnosis.specs.declared.hint.Hint.TheVariants.{Unpack};
ghost use Rattle.line_diagnosis.specs.declared.hint.LineContext.{LineContext};
ghost use Rattle.line_diagnosis.specs.declared.reason.Packing.{Packing};
ghost use Rattle.line_diagnosis.specs.declared.reason.Reason.TheVariants.{IriChar, Packed, Unexpected};

use crate::diagnosis::Diagnosis;
use crate::likeness::{
    closes_iri, has_end_tag, is_attribute, is_bare_iri, is_conflict_mark, is_end_tag, is_html,
    is_text, is_turtle,
};
use crate::reason::{Found, Next, Packing, Reason, write_char};
use excerpt::visible;
use std::fmt;

/// What is known of a line besides its bytes.
#[derive(Clone, Copy)]
pub struct LineContext {
    /// The number of the line in its document, from 1.
    pub number: u128,
    /// Whether the line is the last of its document and no line end follows it.
    pub is_cut: bool,
    /// Whether a line before it is known to have a character beyond ASCII, in UTF-8.
    pub is_after_utf8: bool,
}

/// What a user can do about a malformed line.
#[derive(Clone, Copy)]
pub enum Hint {
    /// Unpack the input, whose first bytes are those of a compressed file
    Unpack(Packing),
    /// Unpack the file that begins in the middle of the input
    UnpackPart,
    FromLatin1,
    /// Repair the line with this number. Text before it is UTF-8
    Repair(u128),
    FromUtf16,
    /// Leave out the byte order mark that the input begins with
    DropFirstBytes,
    /// Leave out the byte order marks at the beginning of lines
    DropMarks,
    Truncated,
    Turtle,
    Xml,
    Html,
    Json,
    Conflict,
    /// Write this character of an IRI as an octet in hexadecimal digits (RFC 3987, section 3.1)
    PercentEncode(char),
    CloseIri,
    WholeIri,
    AngleBrackets,
    DoubleQuotes,
    QuoteInside,
    BreakInside,
    Backslash,
    HyphenInTag,
    OtherBlank,
    OneStatement,
}

/// Writes how to encode an ASCII character of an IRI.
fn write_octet<W: fmt::Write>(f: &mut fmt::Formatter<W>, c: char) -> fmt::Result {
    f.write_str("write ")?;
    write_char(f, c)?;
    write!(f, " in an IRI as %{:02X}", c as u32)
}

impl fmt::Display for Hint {
    fn fmt<W: fmt::Write>(&self, f: &mut fmt::Formatter<W>) -> fmt::Result {
        f.write_str(match self {
            Hint::Unpack(Packing::Gzip) => "unpack it: zcat FILE | spq check",
            Hint::Unpack(Packing::Xz) => "unpack it: xzcat FILE | spq check",
            Hint::Unpack(Packing::Zstd) => "unpack it: zstdcat FILE | spq check",
            Hint::Unpack(Packing::Bzip2) => "unpack it: bzcat FILE | spq check",
            Hint::UnpackPart => {
                "a compressed file begins in this line: unpack files before they are joined"
            }
            Hint::FromLatin1 => {
                "if the input is Latin-1 or Windows-1252, convert it: iconv -f CP1252 -t UTF-8 FILE | spq check"
            }
            Hint::Repair(number) => {
                return write!(
                    f,
                    "the text before this byte is UTF-8, so the byte is damaged: repair line {number}"
                );
            }
            Hint::FromUtf16 => "convert it: iconv -f UTF-16 -t UTF-8 FILE | spq check",
            Hint::DropFirstBytes => "leave the mark out: tail -c +4 FILE | spq check",
            Hint::DropMarks => {
                "leave the mark out: sed $'s/^\\xEF\\xBB\\xBF//' FILE | spq check"
            }
            Hint::Truncated => "the document ends inside its last line: truncated?",
            Hint::Turtle => {
                "this looks like Turtle; N-Quads has no prefixes and no abbreviations: write each term in full"
            }
            Hint::Xml => "this looks like XML; spq reads N-Quads",
            Hint::Html => "this looks like HTML; spq reads N-Quads",
            Hint::Conflict => "this looks like the mark of a merge conflict: resolve it",
            Hint::Json => "this looks like JSON or TriG; spq reads N-Quads",
            Hint::PercentEncode(c) => return write_octet(f, *c),
            Hint::CloseIri => "an IRI ends with '>': is it missing here?",
            Hint::WholeIri => {
                "N-Quads has no relative IRIs: write the whole IRI, as <http://example.org/name>"
            }
            Hint::AngleBrackets => "write an IRI in angle brackets, as <http://example.org/name>",
            Hint::DoubleQuotes => "write a literal in straight double quotes, as \"text\"",
            Hint::QuoteInside => "write a double quote inside a literal as \\\"",
            Hint::BreakInside => "write a line break inside a literal as \\n",
            Hint::Backslash => "write a backslash as \\\\ in a literal, and as %5C in an IRI",
            Hint::HyphenInTag => "a language tag has hyphens, as in @en-US",
            Hint::OtherBlank => "only spaces and tabs may be between terms",
            Hint::OneStatement => "write each statement on a line of its own",
        })
    }
}

/// Returns the place after the last byte that is not an ASCII letter.
fn letters_at_end(bytes: &[u8]) -> usize {
    let mut start = 0;
    for i in 0..bytes.len() {
        if !bytes[i].is_ascii_alphabetic() {
            start = i + 1;
        }
    }
    start
}

/// Returns whether the bytes end with `@` and ASCII letters.
fn is_tag(bytes: &[u8]) -> bool {
    let start = letters_at_end(bytes);
    start < bytes.len() && start > 0 && bytes.get(start.saturating_sub(1)).copied() == Some(b'@')
}

/// Returns whether the bytes end with a language tag and an underscore.
fn ends_with_tag(front: &[u8]) -> bool {
    match front.split_last() {
        Some((last, tag)) => *last == b'_' && is_tag(tag),
        None => false,
    }
}

/// Returns whether the last digit of an escape of a space is between these parts of the line.
fn is_escaped_space(before: &[u8], rest: &[u8]) -> bool {
    rest.starts_with(b"0") && (before.ends_with(b"\\u002") || before.ends_with(b"\\U0000002"))
}

/// Returns whether a character looks like white space, or like nothing, and is no space and no tab.
fn is_other_blank(c: char) -> bool {
    !matches!(c, ' ' | '\t') && (c.is_whitespace() || !c.is_ascii() && visible(c) != c)
}

/// Returns the hint for a character that an IRI may not have, given the line from it on.
fn hint_in_iri(c: char, rest: &[u8]) -> Hint
    ensures safe { (context : LineContext) (line before : List ℕ)
        → IsSafe context line before result }
    ensures suits { suits result (IriChar c) ≡ true }
{
    let after = rest.get(1..).unwrap_or(&[]);
    if c == ' ' && is_attribute(after) {
        Hint::Xml
    } else if c != '<' && closes_iri(after) {
        Hint::PercentEncode(c)
    } else {
        Hint::CloseIri
    }
}

/// Returns the hint for a character that begins no terminal, between these parts of the line.
fn hint_of_char(before: &[u8], rest: &[u8], next: Next, c: char) -> Option<Hint>
    ensures safe { (context : LineContext) (line front : List ℕ)
        → IfSome result (IsSafe context line front) }
    ensures suits { IfSome result (λ hint. suits hint (Unexpected next (Char c)) ≡ true) }
{
    let touches_quote = next == Next::Graph && before.last().copied() == Some(b'"');
    match c {
        '\'' | '“' | '‘' if next == Next::Object => Some(Hint::DoubleQuotes),
        '{' | '[' if before.is_empty() => Some(Hint::Json),
        _ if is_other_blank(c) => Some(Hint::OtherBlank),
        _ if is_attribute(rest) || next == Next::Predicate && has_end_tag(rest) => Some(Hint::Xml),
        _ if is_bare_iri(rest) => Some(Hint::AngleBrackets),
        _ if is_turtle(next, rest) => Some(Hint::Turtle),
        _ if touches_quote => Some(Hint::QuoteInside),
        _ => None,
    }
}

/// Returns the hint for a term in the place of another part.
fn hint_of_term(before: &[u8], next: Next, found: Found) -> Option<Hint>
    ensures safe { (context : LineContext) (line front : List ℕ)
        → IfSome result (IsSafe context line front) }
    ensures suits { IfSome result (λ hint. suits hint (Unexpected next found) ≡ true) }
{
    match (next, found) {
        (Next::Graph, Found::Literal) if before.ends_with(b" \"\"") => Some(Hint::Turtle),
        (Next::Graph, Found::Literal) if before.ends_with(b"\"") => Some(Hint::QuoteInside),
        (Next::End, Found::Iri | Found::BlankNode) => Some(Hint::OneStatement),
        _ => None,
    }
}

/// Returns the hint for a line that ends too early.
fn hint_at_end(reason: Reason, context: &LineContext) -> Option<Hint>
    ensures safe { (line before : List ℕ) → IfSome result (IsSafe context.now line before) }
    ensures suits { IfSome result (λ hint. suits hint reason ≡ true) }
{
    if context.is_cut {
        Some(Hint::Truncated)
    } else if matches!(reason, Reason::OpenLiteral) {
        Some(Hint::BreakInside)
    } else {
        None
    }
}

/// Returns the hint for bytes that are no text, or that are those of another format.
fn hint_of_bytes(before: &[u8], rest: &[u8], reason: Reason, context: &LineContext) -> Option<Hint>
    ensures safe { (line : List ℕ) → IfSome result (IsSafe context.now line before.now) }
    ensures suits { IfSome result (λ hint. suits hint reason ≡ true) }
    ensures packed { (packing : Packing) → reason ≡ Packed packing → context.now.number ≡ 1
        → result ≡ Some (Unpack packing) }
{
    let is_first = context.number == 1;
    match reason {
        Reason::Packed(packing) if is_first => Some(Hint::Unpack(packing)),
        Reason::Packed(_) => Some(Hint::UnpackPart),
        Reason::Utf16 if is_first => Some(Hint::FromUtf16),
        Reason::ByteOrderMark if is_first => Some(Hint::DropFirstBytes),
        Reason::ByteOrderMark => Some(Hint::DropMarks),
        Reason::InvalidUtf8(_) if context.is_after_utf8 || !before.is_ascii() => {
            Some(Hint::Repair(context.number))
        }
        Reason::InvalidUtf8(_) if is_text(before) && is_text(rest) => Some(Hint::FromLatin1),
        Reason::CutCharacter if context.is_cut => Some(Hint::Truncated),
        _ => None,
    }
}

/// Returns the hint for text, given the parts of the line before the place and from it on.
fn hint_of_text(before: &[u8], rest: &[u8], reason: Reason, context: &LineContext) -> Option<Hint>
    ensures safe { (line front : List ℕ) → IfSome result (IsSafe context.now line front) }
    ensures suits { IfSome result (λ hint. suits hint reason ≡ true) }
{
    match reason {
        Reason::IriChar(c) => Some(hint_in_iri(c, rest)),
        Reason::IriEscape if is_escaped_space(before, rest) => Some(Hint::PercentEncode(' ')),
        Reason::NoScheme(Found::Char('?' | '!')) => Some(Hint::Xml),
        Reason::NoScheme(Found::Char('/')) if is_end_tag(rest) => Some(Hint::Xml),
        Reason::NoScheme(_) => Some(Hint::WholeIri),
        Reason::UnknownEscape(_) => Some(Hint::Backslash),
        Reason::NoColon(_) if ends_with_tag(before) => Some(Hint::HyphenInTag),
        Reason::Unexpected(next, Found::Char(c)) => hint_of_char(before, rest, next, c),
        reason if rest.is_empty() => hint_at_end(reason, context),
        Reason::Unexpected(next, found) => hint_of_term(before, next, found),
        _ => None,
    }
}

/// Returns the hint for a malformed line, or None if there is none.
///
/// A command that changes a whole document is in the hint only if it harms no other line. So a document is
/// unpacked or converted for its first line alone, and from Latin-1 only if no text in UTF-8 is before the
/// place. Only the last line can be truncated.
pub fn hint_of(line: &[u8], diagnosis: &Diagnosis, context: &LineContext) -> Option<Hint>
    ensures safe { IfSome result (IsSafe context.now line.now
        (take (min diagnosis.now.offset (length line.now)) line.now)) }
    ensures suits { IfSome result (λ hint. suits hint diagnosis.now.reason ≡ true) }
    ensures packed { (packing : Packing) → diagnosis.now.reason ≡ Packed packing
        → context.now.number ≡ 1 → result ≡ Some (Unpack packing) }
{
    let (before, rest) = line.split_at(diagnosis.offset.min(line.len()));
    if let Some(hint) = hint_of_bytes(before, rest, diagnosis.reason, context) {
        return Some(hint);
    }
    if is_html(line) {
        return Some(Hint::Html);
    }
    if is_conflict_mark(line) {
        return Some(Hint::Conflict);
    }
    hint_of_text(before, rest, diagnosis.reason, context)
}
