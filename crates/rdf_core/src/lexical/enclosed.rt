//! Delimited texts: an IRI in angle brackets, a string in quotes.

ghost use Rattle.std.specs.Prelude.{◌≡◌, ℕ, List, [], None, Some, IfSome, IfOk, MatchOption};
ghost use Rattle.std.specs.Str.{IsUtf8, chars};
ghost use Rattle.rdf_core.specs.Characters.{is_iri_char, is_string_char};
ghost use Rattle.rdf_core.specs.Escapes.{IsPart, IsIriPart, IsStringPart, IsAnyPart, IsWritten, IsEnclosed};
ghost use Rattle.rdf_core.specs.LexicalReading.{Finds, is_raw, is_close, parts_at, with_bytes};

use crate::lexical::characters::{first_char, is_iri_char, is_string_char};
use crate::lexical::escapes::{Inside, escape};
use crate::lexical::plain::{plain_iri, plain_string};
use crate::text::Text;
use std::alloc::{AllocError, Global};

fn is_raw(kind: Inside, c: char) -> bool
    ensures { result ≡ is_raw kind c }
{
    match kind {
        Inside::Iri => is_iri_char(c),
        Inside::Quoted => is_string_char(c),
        Inside::Any => c != '\\',
    }
}

fn is_close(close: Option<char>, c: char) -> bool
    ensures { result ≡ is_close close c }
{
    match close {
        Some(close) => c == close,
        None => false,
    }
}

/// Returns the decoded text up to the closing delimiter, or up to the end if there is none, and the
/// text after it. Returns None if the text is not valid for its kind or the closing delimiter is
/// missing. It reads character by character.
fn read_parts(
    alloc: Global,
    kind: Inside,
    close: Option<char>,
    text: &str,
) -> Result<Option<(Text, &str)>, AllocError>
    ensures value { IfOk result (λ found. Finds (λ x. (x.0, chars x.1.now)) found
        (with_bytes [] (parts_at kind close 0 (chars text.now)))) }
    ensures text { IfOk result (λ found. IfSome found (λ x. IsUtf8 x.1.now)) }
{
    let mut value = String::new(alloc);
    let mut rest = text;
    while let Some((c, after)) = first_char(rest) {
        if is_close(close, c) {
            return Ok(Some((Text::from_string(value), after)));
        }
        if c == '\\' {
            let Some((meant, remaining)) = escape(kind, after) else {
                return Ok(None);
            };
            value.push(meant)?;
            rest = remaining;
        } else if is_raw(kind, c) {
            value.push(c)?;
            rest = after;
        } else {
            return Ok(None);
        }
    }
    match close {
        Some(_) => Ok(None),
        None => Ok(Some((Text::from_string(value), rest))),
    }
}

/// Reads an IRI in angle brackets, without the opening `<` ([139] IRIREF of SPARQL, [10] IRIREF of
/// N-Quads). Returns its decoded text, and the text after the `>`.
///
/// Returns None in these cases:
///
/// - There is no closing `>`.
/// - A character occurs that must be escaped.
/// - An escape is malformed or is not the number of a Unicode scalar value.
/// - An escape denotes a character that may not occur unescaped.
///
/// Does not check whether the IRI has a scheme.
///
/// # Errors
/// `AllocError` if an allocation fails.
pub fn read_iri_ref(alloc: Global, text: &str) -> Result<Option<(Text, &str)>, AllocError>
    ensures found { IfOk result (λ found. MatchOption found
        ((bytes rest : List ℕ) → IsEnclosed IsIriPart 62 (chars text.now) bytes rest → ⊥)
        (λ x. IsEnclosed IsIriPart 62 (chars text.now) x.0 (chars x.1.now))) }
    ensures text { IfOk result (λ found. IfSome found (λ x. IsUtf8 x.1.now)) }
{
    match plain_iri(text) {
        Some((plain, rest)) => {
            let copy = String::from_str(alloc, plain)?;
            Ok(Some((Text::from_string(copy), rest)))
        }
        None => read_parts(alloc, Inside::Iri, Some('>'), text),
    }
}

/// Reads a string in double quotes, without the opening quote ([11] STRING_LITERAL_QUOTE of
/// N-Quads, [157] STRING_LITERAL2 of SPARQL). Returns its decoded text, and the text after the
/// closing quote.
///
/// Returns None in these cases:
///
/// - There is no closing quote.
/// - An LF or CR occurs before the closing quote.
/// - An escape is malformed or is not the number of a Unicode scalar value.
///
/// # Errors
/// `AllocError` if an allocation fails.
pub fn read_quoted(alloc: Global, text: &str) -> Result<Option<(Text, &str)>, AllocError>
    ensures found { IfOk result (λ found. MatchOption found
        ((bytes rest : List ℕ) → IsEnclosed IsStringPart 34 (chars text.now) bytes rest → ⊥)
        (λ x. IsEnclosed IsStringPart 34 (chars text.now) x.0 (chars x.1.now))) }
    ensures text { IfOk result (λ found. IfSome found (λ x. IsUtf8 x.1.now)) }
{
    match plain_string(text) {
        Some((plain, rest)) => {
            let copy = String::from_str(alloc, plain)?;
            Ok(Some((Text::from_string(copy), rest)))
        }
        None => read_parts(alloc, Inside::Quoted, Some('"'), text),
    }
}

/// Decodes a whole text of this kind. Returns None if it is not valid for its kind.
fn unescape(alloc: Global, kind: Inside, inside: &str) -> Result<Option<Text>, AllocError>
    ensures written { IfOk result (λ found. MatchOption found
        ((bytes : List ℕ) → IsWritten (IsPart kind) (chars inside.now) bytes → ⊥)
        (λ text. IsWritten (IsPart kind) (chars inside.now) text)) }
{
    match read_parts(alloc, kind, None, inside)? {
        Some((text, _)) => Ok(Some(text)),
        None => Ok(None),
    }
}

/// Decodes the text of an IRI, given without the angle brackets.
///
/// Returns None in these cases:
///
/// - A character occurs that must be escaped.
/// - An escape is malformed or is not the number of a Unicode scalar value.
/// - An escape denotes a character that may not occur unescaped.
///
/// Does not check whether the IRI has a scheme.
///
/// # Errors
/// `AllocError` if an allocation fails.
pub fn unescape_iri(alloc: Global, inside: &str) -> Result<Option<Text>, AllocError>
    ensures written { IfOk result (λ found. MatchOption found
        ((bytes : List ℕ) → IsWritten IsIriPart (chars inside.now) bytes → ⊥)
        (λ iri. IsWritten IsIriPart (chars inside.now) iri)) }
{
    unescape(alloc, Inside::Iri, inside)
}

/// Decodes the text of a string, given without its quotes.
///
/// Every character except the backslash denotes itself. The function does not check which
/// characters the quotes of the string allow unescaped. Returns None if an escape is malformed or
/// is not the number of a Unicode scalar value.
///
/// # Errors
/// `AllocError` if an allocation fails.
pub fn unescape_string(alloc: Global, inside: &str) -> Result<Option<Text>, AllocError>
    ensures written { IfOk result (λ found. MatchOption found
        ((bytes : List ℕ) → IsWritten IsAnyPart (chars inside.now) bytes → ⊥)
        (λ string. IsWritten IsAnyPart (chars inside.now) string)) }
{
    unescape(alloc, Inside::Any, inside)
}
