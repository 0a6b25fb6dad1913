//! The columns of a line that are shown.

ghost use Rattle.std.specs.Prelude.{◌≡◌, ◌≤◌, ◌<◌, ◌+◌, ◌-◌, ◌^◌, ◌++◌, ◌∷◌, [], IfOk, OnOk, if◌then◌else◌, string_bytes};
ghost use Rattle.std.specs.Prelude.{length as list_length};
ghost use Rattle.std.specs.Str.{chars, encode_utf8_all};
ghost use Rattle.excerpt.specs.Excerpt.{caret, excerpt_of, first_of, is_hidden, last_of, seen, shown, start_of, visible};

use std::alloc::{AllocError, Global};

/// The maximum number of columns that are shown.
const WIDTH: usize = 80;

/// The character in place of the first or last one that is shown, if characters before or after it
/// are left out.
const ELLIPSIS: char = '…';

/// Returns whether a character has no visible form and is not an ASCII control character.
fn is_hidden(c: char) -> bool
    ensures value { result ≡ is_hidden c }
{
    let c = c as u32;
    (0x80 <= c && c <= 0x9F)
        || (0x200B <= c && c <= 0x200F)
        || (0x2028 <= c && c <= 0x202E)
        || (0x2060 <= c && c <= 0x206F)
        || c == 0xFEFF
}

/// Returns the visible form of a character: U+2400 to U+2421 for an ASCII control character, U+FFFD
/// for another invisible character, and otherwise the character itself.
pub fn visible(c: char) -> char
    ensures value { result ≡ visible c }
{
    let code = c as u32;
    if code < 0x20 {
        char::from_u32(0x2400 + code).unwrap_or('\u{fffd}')
    } else if code == 0x7F {
        '\u{2421}'
    } else if is_hidden(c) {
        '\u{fffd}'
    } else {
        c
    }
}

/// Returns the first column that is shown of a line of `length` characters.
fn start_of(place: usize, length: usize) -> usize
    requires { length < 2 ^ 63 }
    ensures value { result ≡ start_of place length }
{
    let before = place.saturating_sub(WIDTH / 2);
    before.min((length + 1).saturating_sub(WIDTH))
}

/// Returns the characters from one place up to another, each in its visible form.
fn seen(alloc: Global, text: &str, first: usize, last: usize) -> Result<String, AllocError>
    ensures value { IfOk result (λ s. string_bytes s ≡ encode_utf8_all (seen (chars text.now) first last)) }
{
    text.chars()
        .skip(first)
        .take(last.saturating_sub(first))
        .map(visible)
        .collect(alloc)
}

/// Appends an ellipsis if characters are left out.
fn push_ellipsis(out: &mut String, is_cut: bool) -> Result<(), AllocError>
    ensures line { OnOk result (string_bytes out.new
        ≡ string_bytes out.old ++ encode_utf8_all (if is_cut then 0x2026 ∷ [] else [])) }
{
    if is_cut {
        out.push(ELLIPSIS)?;
    }
    Ok(())
}

/// Returns the place of the first character that is shown and is not replaced by an ellipsis.
fn first_of(start: usize) -> usize
    requires small { start < 2 ^ 63 }
    ensures value { result ≡ first_of start }
{
    if start > 0 { start + 1 } else { 0 }
}

/// Returns the place after the last character that is shown and is not replaced by an ellipsis.
fn last_of(start: usize, length: usize) -> usize
    requires small { start < 2 ^ 63 }
    ensures value { result ≡ last_of start length }
{
    if start + WIDTH < length {
        start + WIDTH - 1
    } else {
        length
    }
}

/// Appends the columns of the line from `start` on.
fn push_line(out: &mut String, text: &str, start: usize, length: usize) -> Result<(), AllocError>
    requires count { length ≡ list_length (chars text.now) }
    requires small { start < 2 ^ 63 }
    ensures line { OnOk result (string_bytes out.new
        ≡ string_bytes out.old ++ (encode_utf8_all (shown (chars text.now) start) ++ 10 ∷ [])) }
{
    let alloc = *out.allocator();
    let middle = seen(alloc, text, first_of(start), last_of(start, length))?;
    push_ellipsis(out, start > 0)?;
    out.push_str(middle.as_str())?;
    push_ellipsis(out, start + WIDTH < length)?;
    out.push('\n')
}

/// Appends the caret after this many spaces.
fn push_caret(out: &mut String, indent: usize) -> Result<(), AllocError>
    ensures line { OnOk result (string_bytes out.new
        ≡ string_bytes out.old ++ (caret indent ++ 10 ∷ [])) }
{
    'spaces: for _ in 0..indent {
        out.push(' ')?;
    }
    out.push_str("^\n")
}

/// Returns the number of characters of a text.
pub fn count_of(text: &str) -> usize
    ensures value { result ≡ list_length (chars text.now) }
    ensures small { result < 2 ^ 63 }
{
    text.chars().count()
}

/// Appends a line of text, cut to 80 columns around a place, and a second line with a caret under
/// the place.
///
/// `place` is the number of characters before it. A place after the end of the text counts as the
/// end. Each of the two lines ends with LF.
///
/// # Errors
/// `AllocError` if an allocation fails. `out` may then have a part of the two lines.
pub fn excerpt(out: &mut String, text: &str, place: usize) -> Result<(), AllocError>
    ensures lines { OnOk result (string_bytes out.new
        ≡ string_bytes out.old ++ excerpt_of (chars text.now) place) }
{
    let length = count_of(text);
    let place = place.min(length);
    let start = start_of(place, length);
    push_line(out, text, start, length)?;
    push_caret(out, place - start)
}
