//! Places in the text of a query.

ghost use Rattle.std.specs.Prelude.{◌≡◌, ◌≤◌, ◌<◌, ◌+◌, ◌-◌, ◌^◌, Some, List, ℕ, length, drop, min};
ghost use Rattle.sparql_lexer.specs.Blanks.{after_blanks};
ghost use Rattle.sparql_lexer.specs.Scan.{Scans};
ghost use Rattle.sparql_lexer.specs.Terminal.{terminals};
ghost use Rattle.query_diagnosis.specs.Position.{IsPosition, before_line_end, ends_line, has_at, line_number, line_of, line_start};
ghost use Rattle.query_diagnosis.specs.Report.{position_words};
ghost use Rattle.query_diagnosis.specs.TerminalPlace.{IsTerminalPlace, from_next};

use sparql_lexer::Token;
use std::fmt;

/// A line and a column of a text, both from 1. A line ends with LF, CR LF, or a CR that no LF
/// follows.
#[derive(Clone, Copy)]
pub struct Position {
    /// The number of the line, from 1.
    pub line: usize,
    /// The column, from 1, in characters.
    pub column: usize,
}

impl fmt::Display for Position {
    ghost output = { λ p. Some (position_words p.line p.column) };

    fn fmt<W: fmt::Write>(&self, f: &mut fmt::Formatter<W>) -> fmt::Result {
        write!(f, "line {}, column {}", self.line, self.column)
    }
}

/// Returns whether the text has this character at a place.
fn has_at(text: &[char], at: usize, c: char) -> bool
    ensures value { result ≡ has_at text.now at c }
{
    match text.get(at) {
        Some(found) => *found == c,
        None => false,
    }
}

/// Returns whether a line ends after the character at a place.
fn ends_line(text: &[char], at: usize) -> bool
    requires inside { at < length text.now }
    ensures value { result ≡ ends_line text.now at }
{
    has_at(text, at, '\n') || has_at(text, at, '\r') && !has_at(text, at + 1, '\n')
}

/// Returns the number of the line of a place.
fn line_number(text: &[char], at: usize) -> usize
    requires inside { at ≤ length text.now }
    ensures value { result ≡ line_number text.now at }
    ensures few { result ≤ at + 1 }
{
    let mut line = 1;
    for i in 0..at {
        if ends_line(text, i) {
            line += 1;
        }
    }
    line
}

/// Returns the place at which the line of a place begins.
pub fn line_start(text: &[char], at: usize) -> usize
    requires inside { at ≤ length text.now }
    ensures value { result ≡ line_start text.now at }
    ensures before { result ≤ at }
{
    let mut start = 0;
    for i in 0..at {
        if ends_line(text, i) {
            start = i + 1;
        }
    }
    start
}

/// Returns the characters before the first line end.
fn before_line_end(text: &[char]) -> &[char]
    ensures value { result.now ≡ before_line_end text.now }
{
    for i in 0..text.len() {
        if matches!(text[i], '\n' | '\r') {
            return &text[..i];
        }
    }
    text
}

/// Returns the line of a place, without its line end.
pub fn line_at(text: &[char], at: usize) -> &[char]
    requires inside { at ≤ length text.now }
    ensures value { result.now ≡ line_of text.now at }
{
    before_line_end(&text[line_start(text, at)..])
}

/// Returns the position of a place, given by the number of characters before it. A place after the
/// end of the text counts as the end.
pub fn position_of(text: &[char], offset: usize) -> Position
    ensures position { IsPosition text.now (min offset (length text.now)) result }
{
    let at = offset.min(text.len());
    Position {
        line: line_number(text, at),
        column: at - line_start(text, at) + 1,
    }
}

/// Skips white space and comments.
fn skip_blanks(text: &[char]) -> &[char]
    ensures value { result.now ≡ after_blanks text.now }
    ensures shorter { length result.now ≤ length text.now }
{
    let mut rest = text;
    let mut in_comment = false;
    'blanks: while let Some((c, after)) = rest.split_first() {
        if in_comment {
            in_comment = !matches!(*c, '\n' | '\r');
        } else if *c == '#' {
            in_comment = true;
        } else if !matches!(*c, ' ' | '\t' | '\n' | '\r') {
            return rest;
        }
        rest = after;
    }
    rest
}

/// Returns the text after its next terminal, given this terminal.
fn after_token<'a>(text: &'a [char], token: &Token<'_>) -> &'a [char]
    ensures value { result.now ≡ drop (length token.now.text.now) (after_blanks text.now) }
    ensures shorter { length result.now ≤ length text.now }
{
    let place = skip_blanks(text);
    let length = token.text.len().min(place.len());
    &place[length..]
}

/// Returns the text from its next terminal on. White space and comments are skipped, unless nothing
/// else is left.
fn from_next(text: &[char]) -> &[char]
    ensures value { result.now ≡ from_next text.now }
    ensures shorter { length result.now ≤ length text.now }
{
    let place = skip_blanks(text);
    if place.is_empty() { text } else { place }
}

/// Returns the number of characters before a terminal of the text, given by its place in the list of
/// the terminals. If the list ends there, returns the number of characters before the place where no
/// terminal begins, or up to the end of the last terminal if there is no such place.
pub fn offset_of(text: &[char], tokens: &[Token<'_>], at: usize) -> usize
    ensures place { (end : List ℕ) → Scans text.now (terminals tokens.now) end
        → IsTerminalPlace text.now (min at (length tokens.now)) result }
    ensures inside { result ≤ length text.now }
{
    let mut rest = text;
    for i in 0..at.min(tokens.len()) {
        rest = after_token(rest, &tokens[i]);
    }
    text.len() - from_next(rest).len()
}
