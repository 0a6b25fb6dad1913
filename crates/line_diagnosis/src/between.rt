//! The characters before, between and after terminals (RDF 1.1 N-Quads, section 4, [2] statement).

ghost use Rattle.std.specs.Prelude.{◌≡◌, ◌≢◌, None, Some, MatchOption};
ghost use Rattle.line_diagnosis.specs.Rest.{Accepts, IsStep, IsStuck, Steps, after};
ghost use Rattle.line_diagnosis.specs.Says.{Explains, ExpectsPart, IsFound};
ghost use Rattle.line_diagnosis.specs.Turn.{after_blank, after_iri, part};
ghost use Rattle.line_diagnosis.specs.declared.reason.Next.TheVariants as next;
ghost use Rattle.line_diagnosis.specs.declared.state.State.TheVariants as state;

use crate::reason::{Found, Next, Reason};
use crate::state::{Part, Scheme, State};

/// Returns what begins with this character.
fn found(c: char) -> Found
    ensures { IsFound (Some c) result }
{
    match c {
        '<' => Found::Iri,
        '_' => Found::BlankNode,
        '"' => Found::Literal,
        '#' => Found::Comment,
        _ => Found::Char(c),
    }
}

/// Returns the position of an IRI in the statement, given what may come next, or None if no IRI may
/// come.
fn iri_part(next: Next) -> Option<Part>
    ensures { MatchOption result (after_iri (part next) ≡ None)
        (λ p. after_iri (part next) ≡ Some (part (after p))) }
{
    match next {
        Next::Subject => Some(Part::Subject),
        Next::Predicate => Some(Part::Predicate),
        Next::Object => Some(Part::Object),
        Next::Datatype => Some(Part::Datatype),
        Next::Graph => Some(Part::Graph),
        Next::Dot | Next::End => None,
    }
}

/// Returns the position of a blank node in the statement, given what may come next, or None if no
/// blank node may come.
fn blank_part(next: Next) -> Option<Part>
    ensures { MatchOption result (after_blank (part next) ≡ None)
        (λ p. after_blank (part next) ≡ Some (part (after p))) }
{
    match next {
        Next::Predicate | Next::Datatype => None,
        Next::Subject | Next::Object | Next::Graph | Next::Dot | Next::End => iri_part(next),
    }
}

/// Returns the state after the first character of a terminal or a comment, or None if none may
/// begin with it.
fn opened(next: Next, c: char) -> Option<State>
    requires { (c ≢ 32) × (c ≢ 9) }
    ensures { MatchOption result (IsStuck (Accepts (state.Between next)) c)
        (λ s. IsStep (Accepts (state.Between next)) c s) }
{
    match c {
        '<' => Some(State::Iri(iri_part(next)?, Scheme::Unread)),
        '_' => Some(State::Underscore(blank_part(next)?)),
        '"' if matches!(next, Next::Object) => Some(State::String),
        '.' if matches!(next, Next::Graph | Next::Dot) => Some(State::Between(Next::End)),
        '#' if matches!(next, Next::Subject | Next::End) => Some(State::Comment),
        _ => None,
    }
}

/// Reads a character before, between or after terminals.
pub fn step_between(next: Next, c: char) -> Result<State, Reason>
    ensures steps { Steps (Accepts (state.Between next)) c result }
    ensures expected { ExpectsPart next c result }
{
    if c == ' ' || c == '\t' {
        return Ok(State::Between(next));
    }
    match opened(next, c) {
        Some(state) => Ok(state),
        None => Err(Reason::Unexpected(next, found(c))),
    }
}

/// Reads a character after a string.
pub fn step_after_string(c: char) -> Result<State, Reason>
    ensures steps { Steps (Accepts state.AfterString) c result }
    ensures says { Explains state.AfterString c result }
{
    match c {
        ' ' | '\t' => Ok(State::AfterString),
        '^' => Ok(State::Caret),
        '@' => Ok(State::At),
        _ => step_between(Next::Graph, c),
    }
}
