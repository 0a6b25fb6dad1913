//! The place of a rejected query, and the reason.

ghost use Rattle.std.specs.Prelude.{◌≡◌, IfOk, OnOk, IfNone, IfSome};
ghost use Rattle.std.specs.Str.{chars};
ghost use Rattle.sparql_lexer.specs.Scan.{Scans};
ghost use Rattle.sparql_lexer.specs.Terminal.{terminals};
ghost use Rattle.sparql_read.specs.Rejection.{IsRejectedBy};
ghost use Rattle.sparql_read.specs.declared.fault.QueryFault.TheVariants.{Syntax};
ghost use Rattle.query_diagnosis.specs.Accepted.{IsAcceptedText};
ghost use Rattle.query_diagnosis.specs.Place.{IsExplained, IsPlace, IsRejectedAt, Rejects, terminal_of};

use crate::expected::push_expected;
use crate::hint::Hint;
use crate::hints::{hint_at, hint_at_char};
use crate::machine::{Cause, Stop, stop_of};
use crate::places::{Position, offset_of, position_of};
use crate::rules::{
    Breach, bound_twice, deepest, prefix_of, relative_iri, reused_blank, undefined_prefix,
};
use excerpt::visible;
use rdf_core::lexical::echar;
use sparql_lexer::{Token, characters_of, one_scan, scan_text};
use sparql_read::{QueryFault, read_query};
use std::alloc::{AllocError, Global};

/// The maximum number of characters of a terminal that a reason shows.
const SHOWN: usize = 40;

/// The reason if none is known.
const NO_QUERY: &str = "this is not a query of SPARQL as spq reads it";

/// The place at which a query is rejected, and the reason.
#[derive(Drop)]
pub struct Diagnosis {
    /// The rule that rejects it.
    pub fault: QueryFault,
    /// The number of characters of the text before the place.
    pub offset: usize,
    /// The line and the column of the place.
    pub position: Position,
    /// The reason as text.
    pub reason: String,
    /// What to write instead, if a hint is known.
    pub hint: Option<Hint>,
}

/// A text with its terminals up to the first place where there is no terminal, and the rest of the
/// text from there.
#[derive(Clone, Copy)]
struct Text<'a> {
    characters: &'a [char],
    tokens: &'a [Token<'a>],
    rest: &'a [char],
}

/// The place that is found, with its reason.
#[derive(Drop)]
struct Found {
    offset: usize,
    reason: String,
    hint: Option<Hint>,
}

impl<'a> Text<'a> {
    /// Returns the character that begins no terminal, if the machine stopped there.
    fn unread(&self, stop: &Stop) -> Option<char> {
        if stop.at < self.tokens.len() {
            None
        } else {
            self.rest.first().copied()
        }
    }
}

/// Appends characters in quotes: the first of them, in their visible form.
fn push_quoted(out: &mut String, characters: &[char]) -> Result<(), AllocError> {
    out.push('\'')?;
    for c in characters.iter().take(SHOWN) {
        out.push(visible(*c))?;
    }
    out.push_str(if characters.len() > SHOWN { "…'" } else { "'" })
}

/// Returns whether an unknown escape occurs between a quote and the next quote.
fn has_unknown_escape(after: &[char], quote: char) -> bool {
    let mut is_escape = false;
    for c in after {
        if is_escape && !matches!(*c, 'u' | 'U') && echar(*c).is_none() {
            return true;
        }
        if !is_escape && *c == quote {
            return false;
        }
        is_escape = !is_escape && *c == '\\';
    }
    false
}

/// Returns the reason for a quote that begins no string.
fn no_string(rest: &[char], quote: char) -> &'static str {
    if has_unknown_escape(rest.get(1..).unwrap_or(&[]), quote) {
        "the string that begins here has an unknown escape"
    } else {
        "the string that begins here is not closed"
    }
}

/// Appends what is expected, and the terminal or the character that was found instead.
fn push_unexpected(
    out: &mut String,
    stop: &Stop,
    found: Option<&[char]>,
) -> Result<(), AllocError> {
    push_expected(out, &stop.stack)?;
    out.push_str(", found ")?;
    match found {
        Some(characters) => push_quoted(out, characters),
        None => out.push_str("the end of the query"),
    }
}

/// Appends the reason for a terminal whose kind is not allowed, or for a character that begins no
/// terminal.
fn push_misplaced(out: &mut String, text: &Text<'_>, stop: &Stop) -> Result<(), AllocError> {
    match text.unread(stop) {
        Some(c) if c == '"' || c == '\'' => out.push_str(no_string(text.rest, c)),
        Some(c) => push_unexpected(out, stop, Some(&[c])),
        None => match text.tokens.get(stop.at) {
            Some(token) => push_unexpected(out, stop, Some(token.text)),
            None => push_unexpected(out, stop, None),
        },
    }
}

/// Appends the reason for the place where the machine stopped.
fn push_reason(out: &mut String, text: &Text<'_>, stop: &Stop) -> Result<(), AllocError> {
    let words = match stop.cause {
        Cause::Kind => return push_misplaced(out, text, stop),
        Cause::Escape =>
            "an escape here is for no character, or for one that is not allowed in an IRI",
        Cause::Twice => "this variable is twice in the list of VALUES",
        Cause::LongRow => "this row of VALUES has more values than there are variables",
        Cause::ShortRow => "this row of VALUES has fewer values than there are variables",
        Cause::Unexplained => NO_QUERY,
    };
    out.push_str(words)
}

/// Returns the hint for the place where the machine stopped.
fn hint_for(text: &Text<'_>, stop: &Stop) -> Option<Hint> {
    if !matches!(stop.cause, Cause::Kind) {
        return None;
    }
    match text.unread(stop) {
        Some(c) => {
            let after = text.rest.get(1..).unwrap_or(&[]);
            hint_at_char(text.tokens, c, after, &stop.stack)
        }
        None => hint_at(text.tokens, stop.at, &stop.stack),
    }
}

/// Returns the first terminal that breaks the rule of a fault.
fn breach_of(
    alloc: Global,
    tokens: &[Token<'_>],
    fault: QueryFault,
) -> Result<Option<Breach>, AllocError>
    requires rejects { Rejects fault (terminals tokens.now) }
    ensures first { IfOk result
        (λ found. IsRejectedAt fault (terminals tokens.now) (terminal_of found)) }
{
    match fault {
        QueryFault::UndefinedPrefix => Ok(undefined_prefix(alloc, tokens)?.map(Breach::alone)),
        QueryFault::RelativeIri => Ok(relative_iri(alloc, tokens)?.map(Breach::alone)),
        QueryFault::TooDeep => Ok(deepest(tokens).map(Breach::alone)),
        QueryFault::BindScope => bound_twice(alloc, tokens),
        QueryFault::BlankReuse => reused_blank(alloc, tokens),
        QueryFault::Syntax => Ok(None),
        QueryFault::Memory => Ok(None),
    }
}

/// Returns the words of a reason before and after the terminal that breaks the rule of a fault.
fn words_around(fault: QueryFault) -> (&'static str, &'static str) {
    match fault {
        QueryFault::RelativeIri => ("the IRI ", " is relative: it has no scheme"),
        QueryFault::BindScope => ("BIND to ", ", which the group already binds at "),
        QueryFault::BlankReuse => (
            "the blank node label ",
            " is in another basic graph pattern too, at ",
        ),
        _ => ("brackets are nested over 100 deep at ", ""),
    }
}

/// Returns the hint for the rule of a fault.
fn hint_of(fault: QueryFault) -> Option<Hint> {
    match fault {
        QueryFault::UndefinedPrefix => Some(Hint::Declare),
        QueryFault::RelativeIri => Some(Hint::WholeIri),
        QueryFault::BindScope => Some(Hint::OtherVariable),
        QueryFault::BlankReuse => Some(Hint::VariableForBlank),
        _ => None,
    }
}

/// Appends the reason for a prefix without a declaration.
fn push_prefix(out: &mut String, prefix: &[char]) -> Result<(), AllocError> {
    out.push_str("the prefix '")?;
    for c in prefix {
        out.push(*c)?;
    }
    out.push_str(":' is not declared")
}

/// Appends the reason for a terminal that breaks the rule of a fault.
fn push_breach(
    out: &mut String,
    text: &Text<'_>,
    breach: Breach,
    fault: QueryFault,
) -> Result<(), AllocError> {
    let found = match text.tokens.get(breach.at) {
        Some(token) => token.text,
        None => &[],
    };
    if fault == QueryFault::UndefinedPrefix {
        return push_prefix(out, prefix_of(found));
    }
    let (before, after) = words_around(fault);
    out.push_str(before)?;
    push_quoted(out, found)?;
    out.push_str(after)?;
    match breach.earlier {
        Some(at) => {
            let offset = offset_of(text.characters, text.tokens, at);
            write!(out, "{}", position_of(text.characters, offset))
        }
        None => Ok(()),
    }
}

/// Appends the reason for what breaks the rule of a fault, if it is known.
fn push_broken(
    out: &mut String,
    text: &Text<'_>,
    found: Option<Breach>,
    fault: QueryFault,
) -> Result<(), AllocError> {
    match found {
        Some(breach) => push_breach(out, text, breach, fault),
        None => out.push_str(NO_QUERY),
    }
}

/// Returns the place of the terminal of a breach, or of the first one if none is known.
fn terminal_of(found: Option<Breach>) -> usize
    ensures { result ≡ terminal_of found }
{
    match found {
        Some(breach) => breach.at,
        None => 0,
    }
}

/// The functions that find a place fill in a `Found` that their caller owns, so that none of them
/// drops a text where an allocation fails.
impl Found {
    /// Returns an unknown place, at the beginning of the text, without a reason.
    fn new(alloc: Global) -> Found {
        Found {
            offset: 0,
            reason: String::new(alloc),
            hint: None,
        }
    }

    /// Finds the first terminal after which no query continues.
    fn find_stop(&mut self, alloc: Global, text: &Text<'_>) -> Result<(), AllocError>
        requires scans { Scans text.now.characters.now (terminals text.now.tokens.now)
            text.now.rest.now }
        ensures place { OnOk result (IsPlace text.now.characters.now Syntax self.new.offset) }
    {
        let stop = stop_of(alloc, text.tokens)?;
        push_reason(&mut self.reason, text, &stop)?;
        self.hint = hint_for(text, &stop);
        self.offset = offset_of(text.characters, text.tokens, stop.at);
        Ok(())
    }

    /// Finds the first terminal that breaks the rule of a fault. If none is found, it is the first
    /// terminal of the text.
    fn find_breach(
        &mut self,
        alloc: Global,
        text: &Text<'_>,
        fault: QueryFault,
    ) -> Result<(), AllocError>
        requires scans { Scans text.now.characters.now (terminals text.now.tokens.now)
            text.now.rest.now }
        requires rejects { Rejects fault (terminals text.now.tokens.now) }
        ensures place { OnOk result (IsPlace text.now.characters.now fault self.new.offset) }
    {
        let found = breach_of(alloc, text.tokens, fault)?;
        push_broken(&mut self.reason, text, found, fault)?;
        self.hint = hint_of(fault);
        self.offset = offset_of(text.characters, text.tokens, terminal_of(found));
        Ok(())
    }

    /// Finds the place and the reason of a fault of these characters.
    fn find(
        &mut self,
        alloc: Global,
        characters: &[char],
        fault: QueryFault,
    ) -> Result<(), AllocError>
        requires rejected { IsRejectedBy characters.now fault }
        ensures place { OnOk result (IsPlace characters.now fault self.new.offset) }
    {
        one_scan();
        let scan = scan_text(alloc, characters)?;
        let text = Text {
            characters,
            tokens: &scan.tokens,
            rest: scan.rest,
        };
        match fault {
            QueryFault::Syntax => self.find_stop(alloc, &text),
            _ => self.find_breach(alloc, &text, fault),
        }
    }
}

/// Returns the diagnosis of a fault of a text.
fn explain(alloc: Global, text: &str, fault: QueryFault) -> Result<Diagnosis, AllocError>
    requires rejected { IsRejectedBy (chars text.now) fault }
    ensures fault { IfOk result (λ d. d.fault ≡ fault) }
    ensures explained { IfOk result (IsExplained (chars text.now)) }
{
    let characters = characters_of(alloc, text)?;
    let mut found = Found::new(alloc);
    found.find(alloc, &characters, fault)?;
    Ok(Diagnosis {
        fault,
        offset: found.offset,
        position: position_of(&characters, found.offset),
        reason: found.reason,
        hint: found.hint,
    })
}

/// Returns the rule that rejects a text, or None if no rule does.
fn fault_of(alloc: Global, text: &str) -> Result<Option<QueryFault>, AllocError>
    ensures read { IfOk result (λ found. IfNone found (IsAcceptedText (chars text.now))) }
    ensures rejected { IfOk result (λ found. IfSome found (IsRejectedBy (chars text.now))) }
{
    match read_query(alloc, text) {
        Ok(_) => Ok(None),
        Err(QueryFault::Memory) => Err(AllocError),
        Err(fault) => Ok(Some(fault)),
    }
}

/// Returns the place and the reason for which the text of a query is rejected. Returns None for a
/// text that `read_query` reads.
///
/// The place of a syntax error is a terminal, or the place where no terminal begins, such that some
/// query begins with the terminals before it. For the other rules it is the first terminal that
/// breaks the rule. At the end of the text it is the end of the last terminal.
///
/// # Errors
/// `AllocError` if an allocation fails.
pub fn diagnose(alloc: Global, text: &str) -> Result<Option<Diagnosis>, AllocError>
    ensures read { IfOk result (λ found. IfNone found (IsAcceptedText (chars text.now))) }
    ensures rejected { IfOk result
        (λ found. IfSome found (λ d. IsRejectedBy (chars text.now) d.fault)) }
    ensures explained { IfOk result (λ found. IfSome found (IsExplained (chars text.now))) }
{
    let Some(fault) = fault_of(alloc, text)? else {
        return Ok(None);
    };
    let diagnosis = explain(alloc, text, fault)?;
    Ok(Some(diagnosis))
}
