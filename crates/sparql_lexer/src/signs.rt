//! Signs of one and two characters.

ghost use Rattle.std.specs.Prelude.{◌≡◌, nat_eq};
ghost use Rattle.sparql_lexer.specs.Candidates.{LongestOf, IsSecond};
ghost use Rattle.sparql_lexer.specs.Signs.{sign_of_one, sign_of_two};

use crate::cursor::next;
use crate::token::{Kind, Sign};

fn sign_of_one(c: char) -> Option<Sign>
    ensures { result ≡ sign_of_one c }
{
    match c {
        '{' => Some(Sign::OpenBrace),
        '}' => Some(Sign::CloseBrace),
        '(' => Some(Sign::OpenParenthesis),
        ')' => Some(Sign::CloseParenthesis),
        '.' => Some(Sign::Dot),
        ';' => Some(Sign::Semicolon),
        ',' => Some(Sign::Comma),
        '*' => Some(Sign::Star),
        '=' => Some(Sign::Equal),
        '<' => Some(Sign::Less),
        '>' => Some(Sign::Greater),
        '!' => Some(Sign::Not),
        _ => None,
    }
}

fn sign_of_two(first: char, second: char) -> Option<Sign>
    ensures { result ≡ sign_of_two first second }
{
    match (first, second) {
        ('!', '=') => Some(Sign::NotEqual),
        ('<', '=') => Some(Sign::LessOrEqual),
        ('>', '=') => Some(Sign::GreaterOrEqual),
        ('&', '&') => Some(Sign::And),
        ('|', '|') => Some(Sign::Or),
        ('^', '^') => Some(Sign::Carets),
        _ => None,
    }
}

/// Reads the second character of a sign after its first. Returns the sign and the text after it.
fn accept_second(first: char, text: &[char]) -> Option<(Sign, &[char])>
    ensures { IsSecond first text.now result }
{
    let (second, remaining) = next(text)?;
    let sign = sign_of_two(first, second)?;
    Some((sign, remaining))
}

/// Reads the longest sign at the start of the text. Returns its kind and the text after it.
pub fn scan_sign(text: &[char]) -> Option<(Kind, &[char])>
    ensures { LongestOf (nat_eq 16) text.now result }
{
    let (first, after) = next(text)?;
    if let Some((sign, remaining)) = accept_second(first, after) {
        return Some((Kind::Sign(sign), remaining));
    }
    match sign_of_one(first) {
        Some(sign) => Some((Kind::Sign(sign), after)),
        None => None,
    }
}
