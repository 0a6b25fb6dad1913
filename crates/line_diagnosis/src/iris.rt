//! IRIs in angle brackets with a scheme (RDF 1.1 N-Quads, section 4, [10] IRIREF).

ghost use Rattle.std.specs.Prelude.{◌≡◌, true, false, ℕ, List, ◌∷◌, Some};
ghost use Rattle.line_diagnosis.specs.Rest.{Accepts, Steps, completes_scheme, may_come};
ghost use Rattle.line_diagnosis.specs.Says.{Explains, Says};
ghost use Rattle.line_diagnosis.specs.declared.state.Part.{Part};
ghost use Rattle.line_diagnosis.specs.declared.state.State.TheVariants as state;

use crate::escapes::{digits_after, iri_ranges, step_digits};
use crate::reason::{Found, Reason};
use crate::state::{Digits, Part, Scheme, State, after};
use rdf_core::lexical::is_iri_char;

/// Returns whether a character may come next in an IRI.
#[inline(always)]
fn may_come(scheme: Scheme, c: char) -> bool
    ensures { result ≡ may_come scheme c }
{
    match scheme {
        Scheme::Unread => c.is_ascii_alphabetic(),
        Scheme::Begun => {
            c == ':' || c.is_ascii_alphanumeric() || c == '+' || c == '-' || c == '.'
        }
        Scheme::Read => is_iri_char(c),
    }
}

/// Returns the state of the scheme after one more character.
fn scheme_after(scheme: Scheme, code: u64) -> Scheme
    ensures { may_come scheme code ≡ true
        → (cs : List ℕ) → completes_scheme scheme (code ∷ cs) ≡ completes_scheme result cs }
{
    match scheme {
        Scheme::Unread => Scheme::Begun,
        Scheme::Begun if code == 0x3A => Scheme::Read,
        Scheme::Begun => Scheme::Begun,
        Scheme::Read => Scheme::Read,
    }
}

/// Returns the reason why a character is not allowed in an IRI.
fn reason_of(scheme: Scheme, c: char) -> Reason
    requires { may_come scheme c ≡ false }
    ensures { (p : Part) → Says (state.Iri p scheme) (Some c) result }
{
    if c == '\n' || c == '\r' {
        return Reason::LineBreak;
    }
    match scheme {
        Scheme::Read => Reason::IriChar(c),
        Scheme::Unread if c == '<' => Reason::QuotedTriple,
        Scheme::Unread | Scheme::Begun if is_iri_char(c) || c == '>' => {
            Reason::NoScheme(Found::Char(c))
        }
        Scheme::Unread | Scheme::Begun => Reason::IriChar(c),
    }
}

/// Reads a character in an IRI.
pub fn step_iri(part: Part, scheme: Scheme, c: char) -> Result<State, Reason>
    ensures steps { Steps (Accepts (state.Iri part scheme)) c result }
    ensures says { Explains (state.Iri part scheme) c result }
{
    if c == '\\' {
        return Ok(State::IriBackslash(part, scheme));
    }
    if c == '>' && matches!(scheme, Scheme::Read) {
        return Ok(State::Between(after(part)));
    }
    if may_come(scheme, c) {
        let code = u64::from(c as u32);
        return Ok(State::Iri(part, scheme_after(scheme, code)));
    }
    Err(reason_of(scheme, c))
}

/// Reads a character after a backslash.
pub fn step_backslash(part: Part, scheme: Scheme, c: char) -> Result<State, Reason>
    ensures steps { Steps (Accepts (state.IriBackslash part scheme)) c result }
    ensures says { Explains (state.IriBackslash part scheme) c result }
{
    match digits_after(c) {
        Some(digits) => Ok(State::IriDigits(part, scheme, digits)),
        None => Err(Reason::UnknownEscape(Found::Char(c))),
    }
}

/// Reads a character of an escape.
pub fn step_escape(part: Part, scheme: Scheme, digits: Digits, c: char) -> Result<State, Reason>
    ensures steps { Steps (Accepts (state.IriDigits part scheme digits)) c result }
    ensures says { Explains (state.IriDigits part scheme digits) c result }
{
    let value = step_digits(digits, iri_ranges(scheme), c)?;
    if digits.more == 0 {
        return Ok(State::Iri(part, scheme_after(scheme, value)));
    }
    let more = digits.more - 1;
    Ok(State::IriDigits(part, scheme, Digits { value, more }))
}
