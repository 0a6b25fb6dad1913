//! The first line of a text as slices: one function for each part (RDF 1.1 N-Quads, [2] `statement`).

ghost use Rattle.std.specs.Prelude.{◌≡◌, ◌<◌, ◌∷◌, length, IfSome, option_copied};
ghost use Rattle.std.specs.Str.{IsUtf8};
ghost use Rattle.nquads_scan.specs.Layout.{IsCut, IsGraphCut, IsLaidOut, IsLineThen};

use crate::blanks::{after_blanks, after_line};
use crate::ends::term_end;
use nquads_core::RawStatement;

/// Splits off the term at the front. Returns its slice, and what follows the blanks after it.
#[inline(always)]
fn cut_term(text: &str) -> Option<(&str, &str)>
    ensures { IfSome result (λ x. IsCut text.now x.0.now x.1.now) }
{
    let end = term_end(text.as_bytes())?;
    Some((&text[..end], after_blanks(&text[end..])))
}

/// Returns what follows the dot at the front, or None if there is no dot.
#[inline(always)]
fn after_dot(text: &str) -> Option<&str>
    ensures { IfSome result (λ rest. text.now ≡ 46 ∷ rest.now) }
{
    let bytes = text.as_bytes();
    if bytes.is_empty() || bytes[0] != b'.' {
        return None;
    }
    Some(&text[1..])
}

/// Splits off the graph label, if there is one, and the dot. Returns the label and what follows the dot.
#[inline(always)]
fn cut_graph(text: &str) -> Option<(Option<&str>, &str)>
    ensures { IfSome result (λ x. IsGraphCut (option_copied x.0) text.now x.1.now) }
{
    if let Some(rest) = after_dot(text) {
        return Some((None, rest));
    }
    let (graph, rest) = cut_term(text)?;
    let rest = after_dot(rest)?;
    Some((Some(graph), rest))
}

/// Splits off the statement at the front, with its dot. Returns the slices of its terms, and what follows the dot.
#[inline(always)]
fn cut_statement(text: &str) -> Option<(RawStatement<'_>, &str)>
    ensures { IfSome result (λ x. IsLaidOut text.now x.0 x.1.now) }
{
    let (subject, rest) = cut_term(text)?;
    let (predicate, rest) = cut_term(rest)?;
    let (object, rest) = cut_term(rest)?;
    let (graph, rest) = cut_graph(rest)?;
    let statement = RawStatement {
        subject,
        predicate,
        object,
        graph,
    };
    Some((statement, rest))
}

/// Returns whether the text begins with a term.
#[inline(always)]
fn begins_term(text: &str) -> bool {
    let bytes = text.as_bytes();
    !bytes.is_empty() && (bytes[0] == b'<' || bytes[0] == b'_')
}

/// Splits off the first line. Returns its statement, if it has one, and what follows its line end.
#[inline(always)]
pub fn cut_line(text: &str) -> Option<(Option<RawStatement<'_>>, &str)>
    requires { 0 < length text.now }
    ensures line { IfSome result (λ x. IsLineThen text.now x.0 x.1.now) }
    ensures utf8 { IfSome result (λ x. IsUtf8 x.1.now) }
    ensures shorter { IfSome result (λ x. length x.1.now < length text.now) }
{
    let start = after_blanks(text);
    if begins_term(start) {
        let (statement, tail) = cut_statement(start)?;
        return Some((Some(statement), after_line(tail)?));
    }
    Some((None, after_line(text)?))
}
