//! The notes on rows that an error of an expression costs.
ghost use Rattle.std.specs.Prelude.{◌≡◌, IfOk, IfSome, string_bytes};
ghost use Rattle.query_notes.specs.Notes.{IsNoteOf, least_of, noun_of};
ghost use Rattle.query_notes.specs.Speaking.{speaks};

use crate::outline::{Outline, Site, SiteKind};
use crate::texts::Text;
use expression_errors::{Cause, Tally};
use std::alloc::{AllocError, Global};

/// The namespace of XML Schema's datatypes.
const XSD: &str = "http://www.w3.org/2001/XMLSchema#";

/// Returns whether a count is worth a note.
///
/// - An unbound variable, a function without a value, and a term that is no literal are often meant:
///   OPTIONAL leaves variables unbound, and `LANG(?o) = "en"` is to leave out IRIs. These speak only
///   if the expression was an error over every row.
/// - Every other cause speaks.
///
/// `=` of two literals that look different is not counted at all, as `condition_cause` of the crate
/// expression_errors says.
pub fn speaks(tally: &Tally) -> bool
    ensures value { result ≡ speaks tally.now }
{
    !tally.cause.is_common() || tally.is_everywhere
}

/// Returns the words for rows that may not be all.
fn least_of(is_partial: bool) -> &'static str
    ensures words { result.now ≡ least_of is_partial }
{
    if is_partial { "at least " } else { "" }
}

/// Returns the noun after a number of rows.
fn noun_of(rows: u64) -> &'static str
    ensures words { result.now ≡ noun_of rows }
{
    if rows == 1 { "row" } else { "rows" }
}

/// Returns what one row of an expression loses, or more than one.
fn loss_of(kind: SiteKind, is_mixed: bool) -> (&'static str, &'static str) {
    match kind {
        SiteKind::Filter | SiteKind::Removal if is_mixed => (
            "is left out, or removes nothing in MINUS",
            "are left out, or remove nothing in MINUS",
        ),
        SiteKind::Filter => ("is left out", "are left out"),
        SiteKind::Removal => ("removes nothing", "remove nothing"),
        SiteKind::Optional => ("is treated as no match", "are treated as no match"),
        SiteKind::Bind => ("leaves", "leave"),
    }
}

/// Returns what the rows of a tally lose, given its first expression.
fn consequence(
    alloc: Global,
    outline: &Outline,
    tally: &Tally,
    site: &Site,
) -> Result<String, AllocError> {
    let (one, many) = loss_of(site.kind, is_mixed(outline, tally, site));
    let loss = if tally.rows == 1 { one } else { many };
    match site.variable {
        Some(at) => {
            let variable = outline.text.written(alloc, at)?;
            format!(in alloc; "{loss} {variable} unbound")
        }
        None => String::from_str(alloc, loss),
    }
}

/// Returns whether some of a tally's expressions are FILTERs in MINUS, and others are not.
fn is_mixed(outline: &Outline, tally: &Tally, first: &Site) -> bool {
    for number in &tally.expressions {
        if let Some(site) = outline.sites.get(*number) {
            if site.kind != first.kind {
                return true;
            }
        }
    }
    false
}

/// Returns the IRI of a datatype, as `xsd:double` if it is one of XML Schema.
fn datatype(alloc: Global, iri: &str) -> Result<String, AllocError> {
    match iri.strip_prefix(XSD) {
        Some(name) => format!(in alloc; "xsd:{name}"),
        None => format!(in alloc; "<{iri}>"),
    }
}

/// Returns the variable with this number in the plan.
fn variable(alloc: Global, text: &Text, number: usize) -> Result<String, AllocError> {
    match text.variable(alloc, number)? {
        Some(at) => text.written(alloc, at),
        None => Ok(String::new(alloc)),
    }
}

/// Returns the variable or the datatype of a cause, or the empty text if it has none.
fn subject(alloc: Global, text: &Text, cause: &Cause) -> Result<String, AllocError> {
    match cause {
        Cause::Unbound(number) | Cause::SomeUnbound(number) => variable(alloc, text, *number),
        Cause::Datatype(iri) | Cause::IllFormed(iri) | Cause::NoTruth(iri) => {
            datatype(alloc, iri.as_str())
        }
        Cause::Call | Cause::NotLiteral | Cause::Tagged | Cause::Kinds => Ok(String::new(alloc)),
    }
}

/// Returns the words of a cause before and after its variable or datatype.
fn words_of(cause: &Cause) -> (&'static str, &'static str) {
    match cause {
        Cause::Unbound(_) => ("", " is unbound"),
        Cause::SomeUnbound(_) => ("", " or another variable is unbound"),
        Cause::Call => (
            "LANG and DATATYPE have a value only for literals, and STR has none for blank nodes",
            "",
        ),
        Cause::NotLiteral => (
            "an IRI or a blank node has no order and no effective boolean value",
            "",
        ),
        Cause::Tagged => (
            "a literal with a language tag has no order and no inequality by value (compare STR(..), or LANG(..))",
            "",
        ),
        Cause::Kinds => (
            "two literals of different kinds, such as a string and a number, have no order and no inequality by value (compare STR(..))",
            "",
        ),
        Cause::Datatype(_) => (
            "values of ",
            " are not compared (compare STR(..), if the order of the texts is that of the values)",
        ),
        Cause::IllFormed(_) => ("the text of a literal is no ", ""),
        Cause::NoTruth(_) => ("a literal of ", " has no effective boolean value"),
    }
}

/// Returns the cause, as a reason.
fn reason_of(alloc: Global, text: &Text, cause: &Cause) -> Result<String, AllocError> {
    let (before, after) = words_of(cause);
    let mut reason = String::from_str(alloc, before)?;
    let subject = subject(alloc, text, cause)?;
    reason.push_str(subject.as_str())?;
    reason.push_str(after)?;
    Ok(reason)
}

/// Returns the place of a tally's FILTER or BIND in the expression with this number, if it is known.
fn keyword_at(outline: &Outline, tally: &Tally, number: usize) -> Option<usize> {
    let site = outline.sites.get(number)?;
    site.keywords.get(tally.filter).copied()
}

/// Returns the first expression of a tally whose place is known.
fn first_site<'a>(outline: &'a Outline, tally: &Tally) -> Option<&'a Site> {
    for number in &tally.expressions {
        if keyword_at(outline, tally, *number).is_some() {
            return outline.sites.get(*number);
        }
    }
    None
}

/// Returns the places of a tally's FILTER or BIND in all expressions that it counts, after this word.
fn places_of(
    alloc: Global,
    outline: &Outline,
    tally: &Tally,
    word: &'static str,
) -> Result<String, AllocError> {
    let mut places = String::new(alloc);
    let mut before = word;
    for number in &tally.expressions {
        if let Some(at) = keyword_at(outline, tally, *number) {
            let position = outline.text.position(at);
            write!(places, "{before}{position}")?;
            before = ", ";
        }
    }
    Ok(places)
}

fn keyword_of(site: &Site) -> &'static str {
    match site.kind {
        SiteKind::Bind => "BIND at ",
        SiteKind::Filter | SiteKind::Removal | SiteKind::Optional => "FILTER at ",
    }
}

/// Returns the note for a tally. Returns None if its place is not known.
///
/// # Errors
/// `AllocError` if an allocation fails.
pub fn note_of(
    alloc: Global,
    outline: &Outline,
    tally: &Tally,
) -> Result<Option<String>, AllocError>
    ensures note { IfOk result (λ found. IfSome found (λ s. IsNoteOf tally.now (string_bytes s))) }
{
    let Some(site) = first_site(outline, tally) else {
        return Ok(None);
    };
    let places = places_of(alloc, outline, tally, keyword_of(site))?;
    let loss = consequence(alloc, outline, tally, site)?;
    let reason = reason_of(alloc, &outline.text, &tally.cause)?;
    let note = note_with(alloc, tally, &places, &loss, &reason)?;
    Ok(Some(note))
}

/// Returns the note for a tally with these places, this loss and this reason.
fn note_with(
    alloc: Global,
    tally: &Tally,
    places: &str,
    loss: &str,
    reason: &str,
) -> Result<String, AllocError>
    ensures note { IfOk result (λ s. IsNoteOf tally.now (string_bytes s)) }
{
    let rows = tally.rows;
    let least = least_of(tally.is_partial);
    let noun = noun_of(rows);
    format!(in alloc; "spq: note: {places}: {least}{rows} {noun} {loss}, since {reason}\n")
}
