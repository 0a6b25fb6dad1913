//! Escapes of code points (RDF 1.1 N-Quads, section 4, [12] UCHAR).

ghost use Rattle.std.specs.Prelude.{◌<◌, ◌≡◌, ◌≢◌, ◌⊎◌, ◌+◌, ◌*◌, ℕ, true, MatchOption, MatchResult};
ghost use Rattle.std.specs.Char.{digit_value};
ghost use Rattle.rdf_core.specs.Characters.{is_hex};
ghost use Rattle.line_diagnosis.specs.Rest.{AreRanges, are_code_points, head, is_head, may_come};
ghost use Rattle.line_diagnosis.specs.Says.{SaysOfDigits, scalars};
ghost use Rattle.line_diagnosis.specs.declared.reason.Reason.TheVariants.{IriEscape, Surrogate, TooLarge};

use crate::reason::{Found, Reason};
use crate::state::{Digits, Scheme};

/// Ranges of code points, each with its first and last.
pub type Ranges = &'static [(u64, u64)];

/// The Unicode scalar values.
pub const SCALARS: [(u64, u64); 2] = [(0, 0xD7FF), (0xE000, 0x10FFFF)];

/// The first characters of a scheme (RFC 3987, section 2.2).
const SCHEME_START: [(u64, u64); 2] = [(0x41, 0x5A), (0x61, 0x7A)];

/// The other characters of a scheme, and the colon after it.
const SCHEME_REST: [(u64, u64); 5] = [
    (0x2B, 0x2B),
    (0x2D, 0x2E),
    (0x30, 0x3A),
    (0x41, 0x5A),
    (0x61, 0x7A),
];

/// The characters of an IRI after its scheme: all above U+0020 except `<>"{}|^`, the backquote and
/// the backslash.
const IRI_CHARS: [(u64, u64); 9] = [
    (0x21, 0x21),
    (0x23, 0x3B),
    (0x3D, 0x3D),
    (0x3F, 0x5B),
    (0x5D, 0x5D),
    (0x5F, 0x5F),
    (0x61, 0x7A),
    (0x7E, 0xD7FF),
    (0xE000, 0x10FFFF),
];

/// Returns the code points that may come next in an IRI.
pub fn iri_ranges(scheme: Scheme) -> Ranges
    ensures ranges { AreRanges result.now (may_come scheme) }
{
    match scheme {
        Scheme::Unread => &SCHEME_START,
        Scheme::Begun => &SCHEME_REST,
        Scheme::Read => &IRI_CHARS,
    }
}

/// Returns the number without its last hexadecimal digits, for any number of them.
fn long_head(number: u64, digits: u32) -> u64
    ensures { result ≡ head digits number }
{
    let mut head = number;
    let mut left = digits;
    while left > 0 {
        head /= 16;
        left -= 1;
    }
    head
}

/// Returns the number without its last hexadecimal digits. It is fast for fewer than four, as in `\u`.
#[inline(always)]
fn head(number: u64, digits: u32) -> u64
    ensures { result ≡ head digits number }
{
    match digits {
        0 => number,
        1 => number / 16,
        2 => number / 16 / 16,
        3 => number / 16 / 16 / 16,
        _ => long_head(number, digits),
    }
}

/// Returns whether the digits of this value, and `more` further ones, can denote a code point of
/// the ranges.
#[inline(always)]
pub fn is_head(ranges: &[(u64, u64)], more: u32, value: u64) -> bool
    ensures { result ≡ is_head ranges.now more value }
{
    for range in ranges {
        if head(range.0, more) <= value && value <= head(range.1, more) {
            return true;
        }
    }
    false
}

/// Returns the digits after `\u` or `\U`, or None if the letter is another one.
#[inline(always)]
pub fn digits_after(letter: char) -> Option<Digits>
    ensures { MatchOption result ((letter ≢ 117) × (letter ≢ 85))
        (λ d. (d.value ≡ 0) × (((letter ≡ 117) × (d.more ≡ 3)) ⊎ ((letter ≡ 85) × (d.more ≡ 7)))) }
{
    match letter {
        'u' => Some(Digits { value: 0, more: 3 }),
        'U' => Some(Digits { value: 0, more: 7 }),
        _ => None,
    }
}

/// Returns the reason why the digits of this value, and `more` further ones, denote no code point
/// that is allowed.
fn reason_of(value: u64, more: u32) -> Reason
    ensures large { result ≡ TooLarge → head more 0x10FFFF < value }
    ensures surrogate { result ≡ Surrogate
        → (head more 0xD7FF < value) × (value < head more 0xE000) }
    ensures escape { result ≡ IriEscape → is_head scalars more value ≡ true }
    ensures known { (result ≡ TooLarge) ⊎ (result ≡ Surrogate) ⊎ (result ≡ IriEscape) }
{
    if value > head(0x10FFFF, more) {
        Reason::TooLarge
    } else if head(0xD7FF, more) < value && value < head(0xE000, more) {
        Reason::Surrogate
    } else {
        Reason::IriEscape
    }
}

/// Reads one more digit of an escape, which must denote a code point of these ranges. Returns the
/// value of the digits.
#[inline(always)]
pub fn step_digits(digits: Digits, ranges: &[(u64, u64)], c: char) -> Result<u64, Reason>
    requires { are_code_points ranges.now ≡ true }
    ensures digit { MatchResult result
        (λ value. (is_hex c ≡ true) × (value ≡ digits.value * 16 + digit_value c)
        × (is_head ranges.now digits.more value ≡ true))
        (λ reason. is_hex c ≡ true
        → is_head ranges.now digits.more (digits.value * 16 + digit_value c) ≡ true → ⊥) }
    ensures says { MatchResult result (λ value. Unit {0}) (SaysOfDigits digits c) }
{
    let Some(digit) = c.to_digit(16) else {
        return Err(Reason::NoDigit(Found::Char(c)));
    };
    if digits.value > 0x10FFFF {
        return Err(Reason::TooLarge);
    }
    let value = digits.value * 16 + u64::from(digit);
    if is_head(ranges, digits.more, value) {
        Ok(value)
    } else {
        Err(reason_of(value, digits.more))
    }
}
