//! Keys of terms, under which terms that are equal by `=` are found together.
//!
//! The key of a number is its residue modulo a prime: the remainder of an integer, and `a · t^k` for
//! the decimal `a / 10^k`, where `t` is the residue of one tenth. So it depends on the value alone,
//! and numbers that differ in some digit mostly have different keys.
ghost use Rattle.std.specs.Prelude.{◌≡◌, ◌+◌, ◌*◌, ◌<◌, ◌≤◌, ◌%◌, ◌^◌, true};
ghost use Rattle.std.specs.Char.{is_ascii_digit};
ghost use Rattle.std.specs.List.{list_all};
ghost use Rattle.std.specs.Str.Parse.{digits_value_after};
ghost use Rattle.term_values.specs.EqualityKey.{EqualTermsHaveOneKey, KeysAreOfForms, form_key, modulus, number_key, size_key, tenth, value_key};
ghost use Rattle.term_values.specs.NumberShown.{number_shown};
ghost use Rattle.term_values.specs.ValueShown.{value_shown};

use crate::digits::Digits;
use crate::literal::{LiteralValue, boolean_value, number_or_other};
use crate::number::decimal_digits;

/// The largest prime number below 2^60 that ends in 9.
const MODULUS: u64 = 1_152_921_504_606_846_869;

/// The residue of one tenth: ten times it is 1 more than the modulus.
const TENTH: u64 = 115_292_150_460_684_687;

/// Returns the key of the decimal number or the boolean with this lexical form, or None if it is the
/// form of neither. The key of a number is its residue modulo a prime below 2^60, and that of a boolean
/// is 0 or 1. Different values may have one key.
///
/// The form of an integer is also that of a decimal. So a literal that has a key has the key of its
/// form (see [`keys_are_of_forms`]).
pub fn form_key(form: &str) -> Option<u64>
    ensures key { result ≡ form_key form.now }
{
    match value_key(&number_or_other(decimal_digits(form.as_bytes()))) {
        Some(key) => Some(key),
        None => value_key(&boolean_value(form)),
    }
}

/// Returns the key of a value. Strings and other terms have none.
fn value_key(value: &LiteralValue) -> Option<u64>
    ensures key { result ≡ value_key (value_shown value.now) }
{
    match value {
        LiteralValue::Number(digits) => Some(number_key(digits)),
        LiteralValue::Boolean(value) => Some(u64::from(*value)),
        LiteralValue::String(_) | LiteralValue::Other => None,
    }
}

/// Proves that terms that are equal by `=` have one key, and are the same term if they have none.
pub fn equal_terms_have_one_key()
    ensures law { EqualTermsHaveOneKey }
{}

/// Proves that a literal that has a key has the key of its lexical form.
pub fn keys_are_of_forms()
    ensures law { KeysAreOfForms }
{}

/// Returns the residue of a number.
fn number_key(number: &Digits) -> u64
    ensures key { result ≡ number_key (number_shown number.now) }
{
    let size = size_key(number);
    if number.negative {
        (MODULUS - size) % MODULUS
    } else {
        size
    }
}

/// Returns the residue of a number without its sign.
fn size_key(number: &Digits) -> u64
    ensures key { result ≡ size_key (number_shown number.now) }
    ensures small { result < modulus }
{
    let whole = with_digits(0, number.whole);
    let digits = with_digits(whole, number.fraction);
    tenths(digits, number.fraction.len())
}

/// Returns the residue of the number that digits write when they follow those of another number.
fn with_digits(before: u64, digits: &[u8]) -> u64
    requires small { before < modulus }
    requires digits { list_all is_ascii_digit digits.now ≡ true }
    ensures key { result ≡ digits_value_after 10 before digits.now % modulus }
{
    let mut key = before;
    for i in 0..digits.len() {
        key = (key * 10 + digit_number(digits[i])) % MODULUS;
    }
    key
}

/// Returns the residue of a number over ten to the power of `places`.
fn tenths(number: u64, places: usize) -> u64
    requires small { number < modulus }
    ensures key { result ≡ (number * tenth ^ places) % modulus }
{
    let mut key = number;
    for _ in 0..places {
        key = tenth_of(key);
    }
    key
}

/// Returns the residue of one tenth of a number: the tenth of its tens, and a tenth for each unit.
fn tenth_of(number: u64) -> u64
    requires small { number < modulus }
    ensures key { result ≡ (number * tenth) % modulus }
{
    number / 10 + number % 10 * TENTH
}

/// Returns the number of a digit.
fn digit_number(digit: u8) -> u64
    requires first { 48 ≤ digit }
    requires last { digit ≤ 57 }
    ensures value { result + 48 ≡ digit }
{
    u64::from(digit - b'0')
}
