//! Escapes: the character that a backslash and the text after it denote.

ghost use Rattle.std.specs.Prelude.{◌≡◌, ◌≤◌, ◌+◌, None, Some, IfSome, MatchOption, drop};
ghost use Rattle.std.specs.Str.{IsUtf8, chars};
ghost use Rattle.rdf_core.specs.Characters.{echar};
ghost use Rattle.rdf_core.specs.LexicalReading.{Finds, NamesChar, hex_at, scalar_of, uchar_at, string_escape_at, escape_at};
ghost use Rattle.rdf_core.specs.declared.lexical.escapes.Inside.TheVariants as inside;

use crate::lexical::characters::{first_char, is_iri_char};

/// The kind of a delimited text. It decides which characters may occur unescaped.
#[derive(Clone, Copy)]
pub enum Inside {
    /// An IRI in angle brackets.
    Iri,
    /// A string in double quotes on one line.
    Quoted,
    /// A string with any quotes, which the caller has already removed.
    Any,
}

/// Returns the character that a letter after a backslash denotes ([160] ECHAR of SPARQL, [153s] of
/// N-Quads), or None if ECHAR has no such letter.
pub fn echar(c: char) -> Option<char>
    ensures value { result ≡ echar c }
{
    match c {
        't' => Some('\t'),
        'b' => Some('\u{8}'),
        'n' => Some('\n'),
        'r' => Some('\r'),
        'f' => Some('\u{c}'),
        '"' => Some('"'),
        '\'' => Some('\''),
        '\\' => Some('\\'),
        _ => None,
    }
}

/// Returns the value of the first `count` characters, which must be hexadecimal digits, and the
/// text after them.
fn hex_digits(count: u32, text: &str) -> Option<(u32, &str)>
    requires { count ≤ 8 }
    ensures value { Finds (λ p. (p.0, chars p.1.now)) result (hex_at count 0 (chars text.now)) }
    ensures text { IfSome result (λ p. IsUtf8 p.1.now) }
{
    let mut value = 0u32;
    let mut rest = text;
    for _ in 0..count {
        let (c, after) = first_char(rest)?;
        let digit = c.to_digit(16)?;
        value = value * 16 + digit;
        rest = after;
    }
    Some((value, rest))
}

/// Returns the character whose code point the first `count` hexadecimal digits are.
fn named_char(count: u32, text: &str) -> Option<(char, &str)>
    requires { count ≤ 8 }
    ensures { MatchOption result (scalar_of count (hex_at count 0 (chars text.now)) ≡ None)
        (λ p. (scalar_of count (hex_at count 0 (chars text.now)) ≡ Some (p.0, count + 1)) × (chars p.1.now ≡ drop count (chars text.now)) × IsUtf8 p.1.now) }
{
    let (value, rest) = hex_digits(count, text)?;
    let c = char::from_u32(value)?;
    Some((c, rest))
}

/// Reads [12] UCHAR of N-Quads after its backslash.
fn uchar(text: &str) -> Option<(char, &str)>
    ensures { MatchOption result (uchar_at (chars text.now) ≡ None)
        (λ p. NamesChar (uchar_at (chars text.now)) text.now p.0 p.1.now) }
{
    let (letter, digits) = first_char(text)?;
    if letter == 'u' {
        named_char(4, digits)
    } else if letter == 'U' {
        named_char(8, digits)
    } else {
        None
    }
}

/// Reads an escape of an IRI after its backslash. Its character must be one that may occur
/// unescaped.
fn iri_escape(text: &str) -> Option<(char, &str)>
    ensures { MatchOption result (escape_at inside.Iri (chars text.now) ≡ None)
        (λ p. NamesChar (escape_at inside.Iri (chars text.now)) text.now p.0 p.1.now) }
{
    let (c, rest) = uchar(text)?;
    if is_iri_char(c) {
        Some((c, rest))
    } else {
        None
    }
}

/// Reads an escape of a string after its backslash.
fn string_escape(text: &str) -> Option<(char, &str)>
    ensures { MatchOption result (string_escape_at (chars text.now) ≡ None)
        (λ p. NamesChar (string_escape_at (chars text.now)) text.now p.0 p.1.now) }
{
    let (letter, after) = first_char(text)?;
    match echar(letter) {
        Some(c) => Some((c, after)),
        None => uchar(text),
    }
}

/// Reads an escape after its backslash. Returns the character that it denotes and the text after
/// it, or None if the text begins with no escape of this kind.
#[tactic(auto, unfolding(crate::specs::LexicalReading::escape_at))]
pub fn escape(kind: Inside, text: &str) -> Option<(char, &str)>
    ensures { MatchOption result (escape_at kind (chars text.now) ≡ None)
        (λ p. NamesChar (escape_at kind (chars text.now)) text.now p.0 p.1.now) }
{
    match kind {
        Inside::Iri => iri_escape(text),
        Inside::Quoted => string_escape(text),
        Inside::Any => string_escape(text),
    }
}
