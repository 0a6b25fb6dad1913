//! Language tags (RDF 1.1 N-Quads, section 4, [144s] LANGTAG).

ghost use Rattle.line_diagnosis.specs.Rest.{Accepts, Steps};
ghost use Rattle.line_diagnosis.specs.Says.{Explains};
ghost use Rattle.line_diagnosis.specs.declared.state.State.TheVariants as state;

use crate::between::step_between;
use crate::reason::{Next, Reason};
use crate::state::State;

/// Reads a character in the first part of a tag.
pub fn step_tag(c: char) -> Result<State, Reason>
    ensures steps { Steps (Accepts state.Tag) c result }
    ensures says { Explains state.Tag c result }
{
    if c.is_ascii_alphabetic() {
        Ok(State::Tag)
    } else if c == '-' {
        Ok(State::Hyphen)
    } else {
        step_between(Next::Graph, c)
    }
}

/// Reads a character in a later part of a tag.
pub fn step_subtag(c: char) -> Result<State, Reason>
    ensures steps { Steps (Accepts state.Subtag) c result }
    ensures says { Explains state.Subtag c result }
{
    if c.is_ascii_alphanumeric() {
        Ok(State::Subtag)
    } else if c == '-' {
        Ok(State::Hyphen)
    } else {
        step_between(Next::Graph, c)
    }
}
