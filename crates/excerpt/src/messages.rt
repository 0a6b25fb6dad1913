//! Whole messages.

ghost use Rattle.std.specs.Prelude.{IfOk, OnOk, Some, ◌≡◌, ◌++◌, string_bytes};
ghost use Rattle.std.specs.Str.{chars};
ghost use Rattle.excerpt.specs.Message.{IsMessage, heading_of};

use crate::columns::excerpt;
use std::alloc::{AllocError, Global};
use std::fmt::Display;

/// Appends the first line of a message.
fn push_heading(out: &mut String, place: &str, reason: &str) -> Result<(), AllocError>
    ensures line { OnOk result
        (string_bytes out.new ≡ string_bytes out.old ++ heading_of place.now reason.now) }
{
    out.push_str("spq: ")?;
    out.push_str(place)?;
    out.push_str(": ")?;
    out.push_str(reason)?;
    out.push('\n')
}

/// Returns the line with the hint, or the empty text if there is none.
fn hint_line<H: Display>(alloc: Global, hint: Option<&H>) -> Result<String, AllocError> {
    match hint {
        Some(hint) => format!(in alloc; "hint: {hint}\n"),
        None => Ok(String::new(alloc)),
    }
}

/// Returns the message with this place, reason and hint.
fn composed(
    alloc: Global,
    place: &str,
    reason: &str,
    line: &str,
    at: usize,
    hint: &str,
) -> Result<String, AllocError>
    ensures message { IfOk result
        (λ s. IsMessage (Some place.now) (chars line.now) at (string_bytes s)) }
{
    let mut out = String::new(alloc);
    push_heading(&mut out, place, reason)?;
    excerpt(&mut out, line, at)?;
    out.push_str(hint)?;
    Ok(out)
}

/// Returns the message about a place in a line of text: `spq: PLACE: REASON`, the excerpt with a
/// caret under the place, and the hint if there is one. Each line ends with LF.
///
/// `at` is the number of characters of the line before the place.
///
/// # Errors
/// `AllocError` if an allocation fails.
pub fn message<P: Display, R: Display, H: Display>(
    alloc: Global,
    place: &P,
    reason: &R,
    line: &str,
    at: usize,
    hint: Option<&H>,
) -> Result<String, AllocError>
    ensures message { IfOk result
        (λ s. IsMessage (P.output place.now) (chars line.now) at (string_bytes s)) }
{
    let place = place.to_string(alloc)?;
    let reason = reason.to_string(alloc)?;
    let hint = hint_line(alloc, hint)?;
    composed(
        alloc,
        place.as_str(),
        reason.as_str(),
        line,
        at,
        hint.as_str(),
    )
}
