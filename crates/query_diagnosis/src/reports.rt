//! The message for a rejected query.

ghost use Rattle.std.specs.Prelude.{◌≡◌, ◌≤◌, ◌-◌, IfOk, IfNone, IfSome, OnSome, Some, length, string_bytes};
ghost use Rattle.std.specs.Str.{chars};
ghost use Rattle.query_diagnosis.specs.Accepted.{IsAcceptedText, IsRejectedText};
ghost use Rattle.query_diagnosis.specs.Place.{IsExplained};
ghost use Rattle.query_diagnosis.specs.Position.{line_of, line_start};
ghost use Rattle.query_diagnosis.specs.Report.{IsMessageAt, IsReport, place_words};

use crate::diagnosis::{Diagnosis, diagnose};
use crate::places::{Position, line_at, line_start};
use excerpt::message;
use sparql_lexer::{characters_of, text_of};
use std::alloc::{AllocError, Global};
use std::fmt;

/// A position in the query.
#[derive(Clone, Copy)]
struct Place {
    position: Position,
}

impl fmt::Display for Place {
    ghost output = { λ place. Some (place_words place.position.line place.position.column) };

    fn fmt<W: fmt::Write>(&self, f: &mut fmt::Formatter<W>) -> fmt::Result {
        write!(f, "query, {}", self.position)
    }
}

/// Returns the line of a place, and the number of characters of this line before the place.
fn line_of(alloc: Global, text: &str, offset: usize) -> Result<(String, usize), AllocError>
    requires inside { offset ≤ length (chars text.now) }
    ensures line { IfOk result
        (λ found. chars (string_bytes found.0) ≡ line_of (chars text.now) offset) }
    ensures before { IfOk result
        (λ found. found.1 ≡ offset - line_start (chars text.now) offset) }
{
    let characters = characters_of(alloc, text)?;
    let line = text_of(alloc, line_at(&characters, offset))?;
    Ok((line, offset - line_start(&characters, offset)))
}

/// Returns the message about a diagnosis.
fn message_of(alloc: Global, text: &str, diagnosis: &Diagnosis) -> Result<String, AllocError>
    requires explained { IsExplained (chars text.now) diagnosis.now }
    ensures message { IfOk result
        (λ s. IsMessageAt (chars text.now) diagnosis.now.offset (string_bytes s)) }
{
    let place = Place {
        position: diagnosis.position,
    };
    let (line, at) = line_of(alloc, text, diagnosis.offset)?;
    message(
        alloc,
        &place,
        &diagnosis.reason,
        line.as_str(),
        at,
        diagnosis.hint.as_ref(),
    )
}

/// Returns the message for the text of a query that is rejected. Returns None for a text that
/// `read_query` reads.
///
/// The message names the line and the column of the place of [`Diagnosis`], and shows the line with a
/// caret under the place.
///
/// # Errors
/// `AllocError` if an allocation fails.
pub fn report(alloc: Global, text: &str) -> Result<Option<String>, AllocError>
    ensures read { IfOk result (λ found. IfNone found (IsAcceptedText (chars text.now))) }
    ensures rejected { IfOk result (λ found. OnSome found (IsRejectedText (chars text.now))) }
    ensures message { IfOk result
        (λ found. IfSome found (λ s. IsReport (chars text.now) (string_bytes s))) }
{
    match diagnose(alloc, text)? {
        None => Ok(None),
        Some(diagnosis) => Ok(Some(message_of(alloc, text, &diagnosis)?)),
    }
}
