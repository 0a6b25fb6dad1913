//! The message for a malformed line.

ghost use Rattle.std.specs.Prelude.{IfOk, IfNone, IfSome, OnSome, Some, length, min, take, string_bytes};
ghost use Rattle.nquads_core.specs.Grammar.{IsMalformed};
ghost use Rattle.line_diagnosis.specs.Explained.{IsExplained};
ghost use Rattle.line_diagnosis.specs.Place.{IsWellFormed};
ghost use Rattle.line_diagnosis.specs.Report.{IsReport, place_words};
ghost use Rattle.line_diagnosis.specs.Safe.{IsFitting};

use crate::diagnosis::{Counted, Diagnosis, count_of_bytes, diagnose};
use crate::hint::{Hint, LineContext, hint_of};
use excerpt::message;
use std::alloc::{AllocError, Global};
use std::fmt;

/// A line of the document, and a column in it.
#[derive(Clone, Copy)]
struct Place {
    line: u128,
    column: usize,
    counted: Counted,
}

impl fmt::Display for Place {
    ghost output = { λ place. Some (place_words place.line place.counted place.column) };

    fn fmt<W: fmt::Write>(&self, f: &mut fmt::Formatter<W>) -> fmt::Result {
        let unit = match self.counted {
            Counted::Characters => "column",
            Counted::Bytes => "byte",
        };
        write!(f, "line {}, {unit} {}", self.line, self.column)
    }
}

/// Returns the message about a diagnosis of the line with this number.
fn message_of(
    alloc: Global,
    line: &[u8],
    number: u128,
    diagnosis: &Diagnosis,
    hint: Option<&Hint>,
) -> Result<String, AllocError>
    requires explained { IsExplained line.now diagnosis.now }
    requires fits { IfSome hint (λ h. IsFitting number line.now
        (take (min diagnosis.now.offset (length line.now)) line.now) diagnosis.now.reason h.now) }
    ensures message { IfOk result (λ s. IsReport number line.now (string_bytes s)) }
{
    let place = Place {
        line: number,
        column: diagnosis.column,
        counted: diagnosis.counted,
    };
    let at = count_of_bytes(&line[..diagnosis.offset]);
    let text = String::from_utf8_lossy(alloc, line)?;
    message(alloc, &place, &diagnosis.reason, text.as_str(), at, hint)
}

/// Returns the message for a malformed line, given without its line end. Returns None for a
/// well-formed one.
///
/// The message names the number and the column of the place, and shows the line with a caret under
/// the place.
///
/// # Errors
/// `AllocError` if an allocation fails.
pub fn report(
    alloc: Global,
    line: &[u8],
    context: &LineContext,
) -> Result<Option<String>, AllocError>
    ensures well_formed { IfOk result (λ found. IfNone found (IsWellFormed line.now)) }
    ensures malformed { IfOk result (λ found. OnSome found (IsMalformed line.now)) }
    ensures message { IfOk result
        (λ found. IfSome found (λ s. IsReport context.now.number line.now (string_bytes s))) }
{
    match diagnose(line) {
        None => Ok(None),
        Some(diagnosis) => {
            let hint = hint_of(line, &diagnosis, context);
            let text = message_of(alloc, line, context.number, &diagnosis, hint.as_ref())?;
            Ok(Some(text))
        }
    }
}

/// Returns the message of [`report`] without its hint.
///
/// # Errors
/// `AllocError` if an allocation fails.
pub fn report_without_hint(
    alloc: Global,
    line: &[u8],
    number: u128,
) -> Result<Option<String>, AllocError>
    ensures well_formed { IfOk result (λ found. IfNone found (IsWellFormed line.now)) }
    ensures malformed { IfOk result (λ found. OnSome found (IsMalformed line.now)) }
    ensures message { IfOk result
        (λ found. IfSome found (λ s. IsReport number line.now (string_bytes s))) }
{
    match diagnose(line) {
        None => Ok(None),
        Some(diagnosis) => Ok(Some(message_of(alloc, line, number, &diagnosis, None)?)),
    }
}
