//! Numbers.

ghost use Rattle.std.specs.Prelude.{Some};
ghost use Rattle.sparql_lexer.specs.Characters.{is_digit};
ghost use Rattle.sparql_lexer.specs.Pattern.{character, is, many, some, perhaps, ◌▸◌, ◌or◌, Ends, Pattern};
ghost use Rattle.sparql_lexer.specs.Numbers.{digit, decimal, double, exponent, signed, is_plus_or_minus};
ghost use Rattle.sparql_lexer.specs.Forms.{number_of};

use crate::classes::Class;
use crate::cursor::{accept, accept_one, farther, skip, skip_some};

/// The form of a number without a sign.
#[derive(Clone, Copy)]
pub enum NumberForm {
    Integer,
    Decimal,
    Double,
}

/// Skips [+-]? [0-9]+.
fn skip_signed_digits(text: &[char]) -> Option<&[char]>
    ensures { Ends (perhaps (character is_plus_or_minus) ▸ some digit) text.now result }
{
    match accept_one(Class::PlusOrMinus, text) {
        Some(after) => skip_some(Class::Digit, after),
        None => skip_some(Class::Digit, text),
    }
}

/// Skips [155] EXPONENT ::= [eE] [+-]? [0-9]+.
fn skip_exponent(text: &[char]) -> Option<&[char]>
    ensures { Ends exponent text.now result }
{
    let after = accept_one(Class::ExponentLetter, text)?;
    skip_signed_digits(after)
}

/// Skips [147] DECIMAL ::= [0-9]* '.' [0-9]+.
fn skip_decimal(text: &[char]) -> Option<&[char]>
    ensures { Ends decimal text.now result }
{
    let whole = skip(Class::Digit, text);
    let point = accept(whole, '.')?;
    skip_some(Class::Digit, point)
}

/// Skips [0-9]+ '.' [0-9]* EXPONENT, the first form of [148] DOUBLE.
fn skip_pointed(text: &[char]) -> Option<&[char]>
    ensures { Ends (some digit ▸ is 46 ▸ many digit ▸ exponent) text.now result }
{
    let whole = skip_some(Class::Digit, text)?;
    let point = accept(whole, '.')?;
    let fraction = skip(Class::Digit, point);
    skip_exponent(fraction)
}

/// Skips '.' [0-9]+ EXPONENT, the second form of [148] DOUBLE.
fn skip_fraction(text: &[char]) -> Option<&[char]>
    ensures { Ends (is 46 ▸ some digit ▸ exponent) text.now result }
{
    let point = accept(text, '.')?;
    let fraction = skip_some(Class::Digit, point)?;
    skip_exponent(fraction)
}

/// Skips [0-9]+ EXPONENT, the third form of [148] DOUBLE.
fn skip_whole(text: &[char]) -> Option<&[char]>
    ensures { Ends (some digit ▸ exponent) text.now result }
{
    let whole = skip_some(Class::Digit, text)?;
    skip_exponent(whole)
}

fn skip_double(text: &[char]) -> Option<&[char]>
    ensures { Ends double text.now result }
{
    let pointed = skip_pointed(text);
    let fraction = skip_fraction(text);
    let whole = skip_whole(text);
    farther(pointed, farther(fraction, whole))
}

/// Returns the text after the longest number of the form without a sign, or None if there is none.
pub fn skip_number(form: NumberForm, text: &[char]) -> Option<&[char]>
    ensures { Ends (number_of form) text.now result }
{
    match form {
        NumberForm::Integer => skip_some(Class::Digit, text),
        NumberForm::Decimal => skip_decimal(text),
        NumberForm::Double => skip_double(text),
    }
}

/// Returns the text after the longest number of the form with a sign, or None if there is none.
pub fn skip_signed(form: NumberForm, text: &[char]) -> Option<&[char]>
    ensures { Ends (signed (number_of form)) text.now result }
{
    let after = accept_one(Class::PlusOrMinus, text)?;
    skip_number(form, after)
}
