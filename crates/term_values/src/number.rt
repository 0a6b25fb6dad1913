//! Numbers of any length, as the digits of their lexical forms (XML Schema 1.1 Part 2, sections
//! 3.3.3 and 3.4.13). Two numbers are compared in linear time, without arithmetic on large numbers.
ghost use Rattle.std.specs.Prelude.{◌≡◌, ◌==◌, ◌&&◌, ◌++◌, get_or, option_map};
ghost use Rattle.std.specs.Char.{is_ascii_digit};
ghost use Rattle.std.specs.List.{list_all, position_or_len};
ghost use Rattle.algebra_model.specs.Number.{decimal_number, fraction_part, integer_number, is_dot, is_negative, is_numeral, is_zero, number_cmp, number_of_parts, unsigned, whole_part};
ghost use Rattle.term_values.specs.Digits.{fraction_order, size_order, without_leading_zeros};
ghost use Rattle.term_values.specs.NumberShown.{number_shown};

use crate::digits::Digits;
use std::cmp::Ordering;

/// Splits the lexical form of a decimal, or returns None if it is ill-formed.
pub fn decimal_digits(form: &[u8]) -> Option<Digits<'_>>
    ensures number { option_map number_shown result ≡ decimal_number form.now }
{
    let (negative, text) = split_sign(form);
    let (whole, fraction) = split_dot(text);
    digits_of_parts(negative, whole, fraction)
}

/// Splits the lexical form of an integer, or returns None if it is ill-formed.
pub fn integer_digits(form: &[u8]) -> Option<Digits<'_>>
    ensures number { option_map number_shown result ≡ integer_number form.now }
{
    let (negative, whole) = split_sign(form);
    digits_of_parts(negative, whole, &[])
}

/// Returns whether the number is zero, with either sign.
pub fn is_zero(number: &Digits) -> bool
    ensures zero { result ≡ is_zero (number_shown number.now) }
{
    are_zeros(number.whole) && are_zeros(number.fraction)
}

/// Compares two numbers.
pub fn compare_numbers(left: &Digits, right: &Digits) -> Ordering
    ensures order { result ≡ number_cmp (number_shown left.now) (number_shown right.now) }
{
    if left.negative == right.negative {
        if left.negative {
            compare_sizes(right, left)
        } else {
            compare_sizes(left, right)
        }
    } else if are_both_zero(left, right) {
        Ordering::Equal
    } else if left.negative {
        Ordering::Less
    } else {
        Ordering::Greater
    }
}

fn are_both_zero(left: &Digits, right: &Digits) -> bool
    ensures zero { result ≡ (is_zero (number_shown left.now) && is_zero (number_shown right.now)) }
{
    is_zero(left) && is_zero(right)
}

/// Returns whether the form begins with a minus sign, and the text after the sign.
fn split_sign(form: &[u8]) -> (bool, &[u8])
    ensures sign { result.0 ≡ is_negative form.now }
    ensures rest { result.1.now ≡ unsigned form.now }
{
    match form {
        [b'-', rest @ ..] => (true, rest),
        [b'+', rest @ ..] => (false, rest),
        _ => (false, form),
    }
}

/// Splits a text at its first decimal point.
fn split_dot(text: &[u8]) -> (&[u8], &[u8])
    ensures whole { result.0.now ≡ whole_part text.now }
    ensures fraction { result.1.now ≡ fraction_part text.now }
{
    let place = dot_place(text);
    if place < text.len() {
        (&text[..place], &text[place + 1..])
    } else {
        (text, &[])
    }
}

/// Returns the place of the first decimal point, or the length of the text if it has none.
fn dot_place(text: &[u8]) -> usize
    ensures place { result ≡ position_or_len is_dot text.now }
{
    text.iter().take_while(|c| **c != b'.').count()
}

/// Creates a number from its parts, if they have a digit and nothing but digits.
fn digits_of_parts<'a>(negative: bool, whole: &'a [u8], fraction: &'a [u8]) -> Option<Digits<'a>>
    ensures number { option_map number_shown result ≡ number_of_parts negative whole.entry.now fraction.entry.now }
{
    if is_numeral(whole, fraction) {
        Some(Digits {
            negative,
            whole,
            fraction,
        })
    } else {
        None
    }
}

/// Returns whether the parts have a digit and nothing but digits.
fn is_numeral(whole: &[u8], fraction: &[u8]) -> bool
    ensures value { result ≡ is_numeral (whole.now ++ fraction.now) }
{
    if whole.is_empty() {
        !fraction.is_empty() && are_digits(fraction)
    } else {
        are_digits(whole) && are_digits(fraction)
    }
}

fn are_digits(text: &[u8]) -> bool
    ensures value { result ≡ list_all is_ascii_digit text.now }
{
    text.iter().all(|c| c.is_ascii_digit())
}

fn are_zeros(digits: &[u8]) -> bool
    ensures value { result ≡ list_all (λ c. c == 48) digits.now }
{
    without_leading_zeros(digits).is_empty()
}

/// Compares two numbers without their signs.
fn compare_sizes(left: &Digits, right: &Digits) -> Ordering
    ensures order { result ≡ size_order left.now.whole.now left.now.fraction.now right.now.whole.now right.now.fraction.now }
{
    let left_whole = without_leading_zeros(left.whole);
    let right_whole = without_leading_zeros(right.whole);
    left_whole
        .len()
        .cmp(&right_whole.len())
        .then(left_whole.cmp(right_whole))
        .then(compare_fractions(left.fraction, right.fraction))
}

fn without_leading_zeros(digits: &[u8]) -> &[u8]
    ensures value { result.now ≡ without_leading_zeros digits.now }
{
    let mut rest = digits;
    while let [b'0', remaining @ ..] = rest {
        rest = remaining;
    }
    rest
}

/// Compares two lists of fraction digits, as if zeros followed each of them.
fn compare_fractions(left: &[u8], right: &[u8]) -> Ordering
    ensures order { result ≡ fraction_order left.now right.now }
{
    for place in 0..left.len().max(right.len()) {
        let order = digit_at(left, place).cmp(&digit_at(right, place));
        if order.is_ne() {
            return order;
        }
    }
    Ordering::Equal
}

fn digit_at(digits: &[u8], place: usize) -> u8
    ensures value { result ≡ get_or digits.now place 48 }
{
    match digits.get(place) {
        Some(digit) => *digit,
        None => b'0',
    }
}
