//! Where the slice of a term ends. A byte closes it, or it goes on up to a byte that cannot be in it.
//!
//! What is in a slice is not checked here, except that it has no line end: it may denote no term.

ghost use Rattle.std.specs.Prelude.{◌≡◌, ◌+◌, ◌≤◌, ◌<◌, true, length, drop, get_or, IfSome};
ghost use Rattle.nquads_scan.specs.Ends.{is_label_byte, is_tag_byte, ends_label, ends_tag};
ghost use Rattle.nquads_scan.specs.Ends.{EndsAt, HasNoEndIn, IsClosedAt, IsPlaceAfter};

use crate::search::{is_line_end, search};

/// Returns whether a byte is a dot, or belongs to a character that a blank node label may have. Each byte above 127
/// is taken for one of these.
#[inline(always)]
fn is_label_byte(b: u8) -> bool
    ensures { result ≡ is_label_byte b }
{
    b >= 128 || b.is_ascii_alphanumeric() || b == b'_' || b == b':' || b == b'-' || b == b'.'
}

/// Returns whether a language tag may have this byte. Each byte above 127 is taken for one that it may have.
#[inline(always)]
fn is_tag_byte(b: u8) -> bool
    ensures { result ≡ is_tag_byte b }
{
    b >= 128 || b.is_ascii_alphanumeric() || b == b'-'
}

/// Returns where the bytes of a label and the dots after it end, from this place on.
#[inline(always)]
fn label_run(bytes: &[u8], from: usize) -> usize
    requires { from ≤ length bytes.now }
    ensures place { IsPlaceAfter bytes.now from result }
    ensures ends { ends_label (drop result bytes.now) ≡ true }
    ensures kept { HasNoEndIn bytes.now from result }
{
    let mut at = from;
    while at < bytes.len() && is_label_byte(bytes[at]) {
        at += 1;
    }
    at
}

/// Returns where a blank node label ends, from this place on. A dot is in it only if more of the label follows.
#[inline(always)]
fn label_end(bytes: &[u8], from: usize) -> usize
    requires { from ≤ length bytes.now }
    ensures place { IsPlaceAfter bytes.now from result }
    ensures ends { ends_label (drop result bytes.now) ≡ true }
    ensures kept { HasNoEndIn bytes.now from result }
{
    let mut at = label_run(bytes, from);
    while from < at && bytes[at - 1] == b'.' {
        at -= 1;
    }
    at
}

/// Returns where the letters, digits and hyphens of a language tag end, from this place on.
#[inline(always)]
fn tag_end(bytes: &[u8], from: usize) -> usize
    requires { from ≤ length bytes.now }
    ensures place { IsPlaceAfter bytes.now from result }
    ensures ends { ends_tag (drop result bytes.now) ≡ true }
    ensures kept { HasNoEndIn bytes.now from result }
{
    let mut at = from;
    while at < bytes.len() && is_tag_byte(bytes[at]) {
        at += 1;
    }
    at
}

/// Returns the place after the first `>`, from this place on, if no line end is before it.
#[inline(always)]
fn iri_end(bytes: &[u8], from: usize) -> Option<usize>
    requires { from ≤ length bytes.now }
    ensures closed { IfSome result (IsClosedAt bytes.now) }
    ensures kept { IfSome result (HasNoEndIn bytes.now from) }
{
    let at = search(bytes, from, b'>', b'>');
    if at < bytes.len() && bytes[at] == b'>' {
        Some(at + 1)
    } else {
        None
    }
}

/// Returns the place after a backslash at this place and the byte after it. Returns None if one of the two is a line end,
/// or the text ends.
#[inline(always)]
fn after_escape(bytes: &[u8], at: usize) -> Option<usize>
    requires { at < length bytes.now }
    ensures place { IfSome result (λ end. (end ≡ at + 2) × (end ≤ length bytes.now)) }
    ensures kept { IfSome result (HasNoEndIn bytes.now at) }
{
    if at + 1 >= bytes.len() || is_line_end(bytes[at]) || is_line_end(bytes[at + 1]) {
        return None;
    }
    Some(at + 2)
}

/// Returns the place after the closing quote of a string, whose opening quote is at the front, if no line end is before
/// it. A quote or a backslash after a backslash is part of an escape.
#[inline(always)]
fn string_end(bytes: &[u8]) -> Option<usize>
    ensures closed { IfSome result (IsClosedAt bytes.now) }
    ensures kept { IfSome result (HasNoEndIn bytes.now 1) }
{
    let mut at = 1;
    while at < bytes.len() {
        let found = search(bytes, at, b'"', b'\\');
        if found >= bytes.len() {
            return None;
        }
        if bytes[found] == b'"' {
            return Some(found + 1);
        }
        at = after_escape(bytes, found)?;
    }
    None
}

/// Returns where a literal ends, with its language tag or datatype.
#[inline(always)]
fn literal_end(bytes: &[u8]) -> Option<usize>
    requires { get_or bytes.now 0 0 ≡ 34 }
    ensures ends { IfSome result (EndsAt bytes.now) }
    ensures kept { IfSome result (HasNoEndIn bytes.now 0) }
{
    let end = string_end(bytes)?;
    if end < bytes.len() {
        if bytes[end] == b'@' {
            return Some(tag_end(bytes, end + 1));
        }
        if bytes[end] == b'^' {
            return iri_end(bytes, end);
        }
    }
    Some(end)
}

/// Returns where the term at the front ends, or None if no term is there.
#[inline(always)]
pub fn term_end(bytes: &[u8]) -> Option<usize>
    ensures ends { IfSome result (EndsAt bytes.now) }
    ensures kept { IfSome result (HasNoEndIn bytes.now 0) }
{
    if bytes.is_empty() {
        return None;
    }
    if bytes[0] == b'<' {
        return iri_end(bytes, 0);
    }
    if bytes[0] == b'"' {
        return literal_end(bytes);
    }
    if bytes[0] == b'_' {
        return Some(label_end(bytes, 1));
    }
    None
}
