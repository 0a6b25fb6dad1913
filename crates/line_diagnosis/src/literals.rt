//! Strings (RDF 1.1 N-Quads, section 4, [11] STRING_LITERAL_QUOTE).

ghost use Rattle.line_diagnosis.specs.Rest.{Accepts, Steps};
ghost use Rattle.line_diagnosis.specs.Says.{Explains};
ghost use Rattle.line_diagnosis.specs.declared.state.State.TheVariants as state;

use crate::escapes::{SCALARS, digits_after, step_digits};
use crate::reason::{Found, Reason};
use crate::state::{Digits, State};
use rdf_core::lexical::echar;

/// Reads a character in a string.
pub fn step_string(c: char) -> Result<State, Reason>
    ensures steps { Steps (Accepts state.String) c result }
    ensures says { Explains state.String c result }
{
    match c {
        '"' => Ok(State::AfterString),
        '\\' => Ok(State::StringBackslash),
        '\n' | '\r' => Err(Reason::LineBreak),
        _ => Ok(State::String),
    }
}

/// Reads a character after a backslash.
#[inline(always)]
pub fn step_string_backslash(c: char) -> Result<State, Reason>
    ensures steps { Steps (Accepts state.StringBackslash) c result }
    ensures says { Explains state.StringBackslash c result }
{
    if let Some(_) = echar(c) {
        return Ok(State::String);
    }
    match digits_after(c) {
        Some(digits) => Ok(State::StringDigits(digits)),
        None => Err(Reason::UnknownEscape(Found::Char(c))),
    }
}

/// Reads a character of an escape.
#[inline(always)]
pub fn step_string_escape(digits: Digits, c: char) -> Result<State, Reason>
    ensures steps { Steps (Accepts (state.StringDigits digits)) c result }
    ensures says { Explains (state.StringDigits digits) c result }
{
    let value = step_digits(digits, &SCALARS, c)?;
    if digits.more == 0 {
        return Ok(State::String);
    }
    let more = digits.more - 1;
    Ok(State::StringDigits(Digits { value, more }))
}
