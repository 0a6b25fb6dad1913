//! Strings of JSON, as `spq select` prints them (RFC 8259, section 7, with the shortest escapes).
ghost use Rattle.std.specs.Prelude.{◌≡◌, ◌≤◌, ◌<◌, ◌∷◌, ◌++◌, ℕ, List, IsUtf8, drop, flat_map, get_or, length, false, [], IfErr, IfOk, IfSome, MatchBool, MatchOption, MatchResult, OnOk};
ghost use Rattle.std.specs.List.{list_all};
ghost use Rattle.serde_json.specs.View.{view};
ghost use Rattle.serde_json.specs.Written.{compact_text, has_float};
ghost use Rattle.result_json.specs.Results.{string_byte, string_text};
ghost use Rattle.result_json.specs.Texts.{is_plain};
ghost use Rattle.result_merge.specs.Absent.{IsNoString};
ghost use Rattle.result_merge.specs.Escapes.{digit, low_byte, short_escape};
ghost use Rattle.result_merge.specs.declared.fault.MergeFault.TheVariants.{Damaged};

use crate::fault::MergeFault;
use rdf_core::Text;
use serde_json::Value;
use std::alloc::{AllocError, Global};

/// Splits off a prefix, if the bytes begin with it.
pub(crate) fn stripped<'a>(bytes: &'a [u8], prefix: &[u8]) -> Option<&'a [u8]>
    ensures parts { MatchOption result ((rest : List ℕ) → bytes.now ≡ prefix.now ++ rest → ⊥)
        (λ rest. bytes.now ≡ prefix.now ++ rest.now) }
{
    bytes.strip_prefix(prefix)
}

/// Splits bytes where a rest of this length begins.
pub(crate) fn split_before<'a>(whole: &'a [u8], rest: &[u8]) -> (&'a [u8], &'a [u8])
    ensures front { (front : List ℕ) → whole.now ≡ front ++ rest.now → result.0.now ≡ front }
    ensures parts { whole.now ≡ result.0.now ++ result.1.now }
{
    whole.split_at(whole.len().saturating_sub(rest.len()))
}

/// Splits off a prefix, or returns `Damaged`.
pub(crate) fn after<'a>(bytes: &'a [u8], prefix: &[u8]) -> Result<&'a [u8], MergeFault>
    ensures parts { MatchResult result (λ rest. bytes.now ≡ prefix.now ++ rest.now)
        (λ _. (rest : List ℕ) → bytes.now ≡ prefix.now ++ rest → ⊥) }
{
    match stripped(bytes, prefix) {
        Some(rest) => Ok(rest),
        None => Err(MergeFault::Damaged),
    }
}

/// Returns whether the bytes begin with a prefix.
pub(crate) fn begins_with(bytes: &[u8], prefix: &[u8]) -> bool
    ensures parts { MatchBool result ((rest : List ℕ) × (bytes.now ≡ prefix.now ++ rest))
        ((rest : List ℕ) → bytes.now ≡ prefix.now ++ rest → ⊥) }
{
    bytes.starts_with(prefix)
}

/// Returns whether a byte needs no escape in a JSON string.
fn is_plain(byte: u8) -> bool
    ensures value { result ≡ is_plain byte }
{
    byte >= 32 && byte != b'"' && byte != b'\\'
}

/// Returns whether no byte needs an escape in a JSON string.
fn is_plain_text(text: &[u8]) -> bool
    ensures value { result ≡ list_all is_plain text.now }
{
    text.iter().all(|byte| is_plain(*byte))
}

/// Returns the text of these bytes, or `Damaged` if they are not UTF-8.
fn text_from(alloc: Global, bytes: &[u8]) -> Result<Text, MergeFault>
    ensures text { IfOk result (λ text. text ≡ bytes.now) }
    ensures damaged { IfErr result (λ fault. fault ≡ Damaged → IsUtf8 bytes.now → ⊥) }
{
    let copy = Vec::from_slice(alloc, bytes)?;
    match String::from_utf8(copy) {
        Ok(string) => Ok(Text::from_string(string)),
        Err(_not_utf8) => Err(MergeFault::Damaged),
    }
}

/// Returns the number of bytes before the first quotation mark.
fn quote_at(bytes: &[u8]) -> usize
    ensures within { result ≤ length bytes.now }
    ensures quote { result < length bytes.now → get_or bytes.now result 0 ≡ 34 }
{
    for (at, byte) in bytes.iter().enumerate() {
        if *byte == b'"' {
            return at;
        }
    }
    bytes.len()
}

/// Reads a string without escapes, or returns None if it has escapes.
fn read_plain<'a>(alloc: Global, bytes: &'a [u8]) -> Result<Option<(Text, &'a [u8])>, MergeFault>
    ensures parts { IfOk result (λ found. IfSome found (λ r. bytes.now ≡ string_text r.0 ++ r.1.now)) }
    ensures damaged { IfErr result (λ fault. fault ≡ Damaged → IsNoString bytes.now) }
{
    let opened = after(bytes, b"\"")?;
    let (text, closing) = opened.split_at(quote_at(opened));
    if !is_plain_text(text) {
        return Ok(None);
    }
    let rest = after(closing, b"\"")?;
    let text = text_from(alloc, text)?;
    Ok(Some((text, rest)))
}

/// Returns the value of a hexadecimal digit in lower case.
fn digit(byte: u8) -> u8
    ensures value { result ≡ digit byte }
{
    if byte < b'a' {
        byte.saturating_sub(b'0')
    } else {
        byte - (b'a' - 10)
    }
}

/// Returns the byte below 32 that `\u00` and two hexadecimal digits mean.
fn low_byte(high: u8, low: u8) -> u8
    ensures value { result ≡ low_byte high low }
{
    if high == b'1' {
        digit(low) + 16
    } else {
        digit(low)
    }
}

/// Returns the byte that a backslash and this byte mean, if the byte is not `u`.
fn short_escape(byte: u8) -> u8
    ensures value { result ≡ short_escape byte }
{
    match byte {
        b'b' => 8,
        b'f' => 12,
        b'n' => 10,
        b'r' => 13,
        b't' => 9,
        _ => byte,
    }
}

/// Returns the byte at a place, or 0 past the end.
fn byte_at(bytes: &[u8], place: usize) -> u8
    ensures value { result ≡ get_or bytes.now place 0 }
{
    if place < bytes.len() { bytes[place] } else { 0 }
}

/// Skips this many bytes.
fn skipped(bytes: &[u8], count: usize) -> &[u8]
    ensures value { result.now ≡ drop count bytes.now }
{
    &bytes[bytes.len().min(count)..]
}

/// Returns the first byte that the content of a string means, and what follows the text of this byte.
fn first_byte(bytes: &[u8]) -> (u8, &[u8])
    ensures byte { (x : ℕ) (rest : List ℕ) → bytes.now ≡ string_byte x ++ rest → (result.0 ≡ x) × (result.1.now ≡ rest) }
    ensures shorter { 0 < length bytes.now → length result.1.now < length bytes.now }
{
    if byte_at(bytes, 0) != b'\\' {
        (byte_at(bytes, 0), skipped(bytes, 1))
    } else if byte_at(bytes, 1) != b'u' {
        (short_escape(byte_at(bytes, 1)), skipped(bytes, 2))
    } else {
        (
            low_byte(byte_at(bytes, 4), byte_at(bytes, 5)),
            skipped(bytes, 6),
        )
    }
}

/// Appends a byte.
fn push_byte(text: &mut Vec<u8>, byte: u8) -> Result<(), AllocError>
    ensures pushed { OnOk result (text.new.items ≡ text.old.items ++ byte ∷ []) }
{
    text.push(byte)?;
    Ok(())
}

/// Returns what a string means, given what follows its first quotation mark. The caller prints it again, and compares.
fn decoded(alloc: Global, bytes: &[u8]) -> Result<Vec<u8>, MergeFault>
    ensures text { IfOk result (λ text.
        (s a : List ℕ) → bytes.now ≡ flat_map string_byte s ++ 34 ∷ a → text.items ≡ s) }
    ensures damaged { IfErr result (λ fault. fault ≡ Damaged
        → (s a : List ℕ) → bytes.now ≡ flat_map string_byte s ++ 34 ∷ a → ⊥) }
{
    let mut text = Vec::new(alloc);
    let mut rest = bytes;
    'reading: while byte_at(rest, 0) != b'"' {
        if rest.is_empty() {
            return Err(MergeFault::Damaged);
        }
        let (byte, next) = first_byte(rest);
        push_byte(&mut text, byte)?;
        rest = next;
    }
    Ok(text)
}

/// Returns what the library prints for a value without floats.
fn printed(alloc: Global, value: &Value) -> Result<Vec<u8>, AllocError>
    requires no_float { has_float (view value.now) ≡ false }
    ensures text { IfOk result (λ text. text.items ≡ compact_text (view value.now)) }
{
    value.to_vec(alloc)
}

/// Returns a text as the library prints it, as a JSON string.
pub(crate) fn printed_string(alloc: Global, text: &str) -> Result<Vec<u8>, AllocError>
    ensures text { IfOk result (λ printed. printed.items ≡ string_text text.now) }
{
    printed(alloc, &Value::try_from_str(alloc, text)?)
}

/// Reads a string with escapes.
fn read_escaped<'a>(alloc: Global, bytes: &'a [u8]) -> Result<(Text, &'a [u8]), MergeFault>
    ensures parts { IfOk result (λ r. bytes.now ≡ string_text r.0 ++ r.1.now) }
    ensures damaged { IfErr result (λ fault. fault ≡ Damaged → IsNoString bytes.now) }
{
    let opened = after(bytes, b"\"")?;
    let text = text_from(alloc, &decoded(alloc, opened)?)?;
    let printed = printed_string(alloc, text.as_str())?;
    let rest = after(bytes, &printed)?;
    Ok((text, rest))
}

/// Reads a string.
///
/// # Errors
/// - `Damaged` if the bytes do not begin with a string with the shortest escapes.
/// - `Memory` if an allocation fails.
pub(crate) fn read_string<'a>(
    alloc: Global,
    bytes: &'a [u8],
) -> Result<(Text, &'a [u8]), MergeFault>
    ensures parts { IfOk result (λ r. bytes.now ≡ string_text r.0 ++ r.1.now) }
    ensures damaged { IfErr result (λ fault. fault ≡ Damaged → IsNoString bytes.now) }
{
    match read_plain(alloc, bytes)? {
        Some(found) => Ok(found),
        None => read_escaped(alloc, bytes),
    }
}
