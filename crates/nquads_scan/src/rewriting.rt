//! Literals with escapes, rewritten to their canonical texts. No term is built.
//!
//! Only literals with the suffix of a canonical text are rewritten. Of other slices `false` says nothing, and `read_term` of
//! nquads_core decides.

ghost use Rattle.std.specs.Prelude.{◌≡◌, ◌<◌, ◌≤◌, ◌⊎◌, ◌++◌, ◌∷◌, [], true, get_or, length, IfOk, IfSome, OnOk, OnErr};
ghost use Rattle.std.specs.Char.{encode_utf8, IsScalar};
ghost use Rattle.std.specs.List.{flat_map};
ghost use Rattle.rdf_core.specs.Characters.{all_pass, hex_from, is_hex};
ghost use Rattle.rdf_core.specs.Serialization.{escaped};
ghost use Rattle.nquads_scan.specs.Rewriting.{IsEscapeThen, IsLonger, IsPut, IsPutString, IsPutTo, IsRunThen};

use crate::plain::is_plain_suffix;
use crate::search::search;
use rdf_core::lexical::echar;
use std::alloc::AllocError;

/// Returns the character whose number these hexadecimal digits are.
#[inline(always)]
fn named_char(digits: &[u8]) -> Option<char>
    requires few { length digits.now ≤ 8 }
    ensures { IfSome result (λ c. (all_pass is_hex digits.now ≡ true)
        × (hex_from 0 digits.now ≡ c) × IsScalar c) }
{
    let mut value = 0u32;
    for b in digits {
        let digit = (*b as char).to_digit(16)?;
        value = value * 16 + digit;
    }
    char::from_u32(value)
}

/// Splits off the escape at the front, which has this length: a backslash, a letter, and the number of a character ([12]
/// `UCHAR`). Returns the character, and what follows the escape.
#[inline(always)]
fn cut_uchar(text: &str, len: usize) -> Option<(char, &str)>
    requires backslash { get_or text.now 0 0 ≡ 92 }
    requires letter { ((get_or text.now 1 0 ≡ 117) × (len ≡ 6))
        ⊎ ((get_or text.now 1 0 ≡ 85) × (len ≡ 10)) }
    ensures { IfSome result (λ x. IsEscapeThen text.now x.0 x.1.now) }
{
    let bytes = text.as_bytes();
    if bytes.len() < len {
        return None;
    }
    let c = named_char(&bytes[2..len])?;
    Some((c, &text[len..]))
}

/// Splits off the escape at the front. Returns the character that it denotes, and what follows it.
#[inline(always)]
fn cut_escape(text: &str) -> Option<(char, &str)>
    ensures { IfSome result (λ x. IsEscapeThen text.now x.0 x.1.now) }
{
    let bytes = text.as_bytes();
    if bytes.len() < 2 || bytes[0] != b'\\' {
        return None;
    }
    let letter = bytes[1];
    if letter == b'u' {
        return cut_uchar(text, 6);
    }
    if letter == b'U' {
        return cut_uchar(text, 10);
    }
    let c = echar(letter as char)?;
    Some((c, &text[2..]))
}

/// Returns whether a byte is a quote or a backslash.
#[inline(always)]
fn is_sign(b: u8) -> bool
    ensures { result ≡ true → b < 128 }
{
    b == b'"' || b == b'\\'
}

/// Splits off the characters before the first quote or backslash. Returns None if there are none, or no such sign follows them.
#[inline(always)]
fn cut_run(text: &str) -> Option<(&str, &str)>
    ensures { IfSome result (λ x. IsRunThen text.now x.0.now x.1.now) }
{
    let bytes = text.as_bytes();
    let end = search(bytes, 0, b'"', b'\\');
    if end == 0 || end >= bytes.len() || !is_sign(bytes[end]) {
        return None;
    }
    Some((&text[..end], &text[end..]))
}

/// Appends the bytes of a character that the canonical text does not escape.
#[inline(always)]
fn put_plain(c: char, out: &mut Vec<u8>) -> Result<(), AllocError>
    requires plain { escaped c ≡ c ∷ [] }
    ensures ok { OnOk result (out.new.items ≡ out.old.items ++ flat_map escaped (encode_utf8 c)) }
    ensures err { OnErr result (IsLonger out.old.items out.new.items) }
{
    out.extend_from_slice(c.encode_utf8(&mut [0; 4]).as_bytes())
}

/// Appends a character of a literal as the canonical text has it: escaped if necessary.
#[inline(always)]
fn put_char(c: char, out: &mut Vec<u8>) -> Result<(), AllocError>
    ensures ok { OnOk result (out.new.items ≡ out.old.items ++ flat_map escaped (encode_utf8 c)) }
    ensures err { OnErr result (IsLonger out.old.items out.new.items) }
{
    match c {
        '"' => out.extend_from_slice(b"\\\""),
        '\\' => out.extend_from_slice(b"\\\\"),
        '\n' => out.extend_from_slice(b"\\n"),
        '\r' => out.extend_from_slice(b"\\r"),
        _ => put_plain(c, out),
    }
}

/// Appends the escape at the front, or the characters before the next quote or backslash, as the canonical text has them.
/// Returns what follows, or None if the text is not seen to be part of a well-formed string.
#[inline(always)]
fn put_part<'a>(text: &'a str, out: &mut Vec<u8>) -> Result<Option<&'a str>, AllocError>
    requires some { 0 < length text.now }
    ensures put { IfOk result (λ found. IfSome found
        (λ rest. IsPutTo text.now out.old.items out.new.items rest.now)) }
    ensures shorter { IfOk result (λ found. IfSome found
        (λ rest. length rest.now < length text.now)) }
    ensures longer { IsLonger out.old.items out.new.items }
{
    if text.as_bytes()[0] == b'\\' {
        let Some((c, rest)) = cut_escape(text) else {
            return Ok(None);
        };
        put_char(c, out)?;
        return Ok(Some(rest));
    }
    let Some((run, rest)) = cut_run(text) else {
        return Ok(None);
    };
    out.extend_from_slice(run.as_bytes())?;
    Ok(Some(rest))
}

/// Appends the string after an opening quote as the canonical text has it. Returns what follows the closing quote, or None if
/// the string is not seen to be well-formed.
fn put_string<'a>(text: &'a str, out: &mut Vec<u8>) -> Result<Option<&'a str>, AllocError>
    ensures put { IfOk result (λ found. IfSome found
        (λ rest. IsPutString text.now out.old.items out.new.items rest.now)) }
    ensures longer { IsLonger out.old.items out.new.items }
{
    let mut rest = text;
    while !rest.is_empty() {
        if rest.as_bytes()[0] == b'"' {
            return Ok(Some(&rest[1..]));
        }
        let Some(after) = put_part(rest, out)? else {
            return Ok(None);
        };
        rest = after;
    }
    Ok(None)
}

/// Appends the canonical text of a literal, or a part of it if the literal is not seen to be well-formed.
fn put_literal(raw: &str, out: &mut Vec<u8>) -> Result<bool, AllocError>
    ensures put { IfOk result (λ done. done ≡ true → IsPut raw.now out.old.items out.new.items true) }
    ensures longer { IsLonger out.old.items out.new.items }
{
    let bytes = raw.as_bytes();
    if bytes.is_empty() || bytes[0] != b'"' {
        return Ok(false);
    }
    out.push(b'"')?;
    let Some(suffix) = put_string(&raw[1..], out)? else {
        return Ok(false);
    };
    if !is_plain_suffix(suffix) {
        return Ok(false);
    }
    out.push(b'"')?;
    out.extend_from_slice(suffix.as_bytes())?;
    Ok(true)
}

/// Appends the canonical text of a slice if it is a literal that is seen to be well-formed. Otherwise returns `false`, and appends
/// nothing.
///
/// # Errors
/// `AllocError` if an allocation fails. `out` is unchanged.
pub fn rewrite(raw: &str, out: &mut Vec<u8>) -> Result<bool, AllocError>
    ensures put { IfOk result (IsPut raw.now out.old.items out.new.items) }
    ensures err { OnErr result (out.new.items ≡ out.old.items) }
{
    let start = out.len();
    match put_literal(raw, out) {
        Ok(true) => Ok(true),
        unfinished => {
            out.truncate(start);
            unfinished
        }
    }
}
