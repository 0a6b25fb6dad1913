//! Blank node labels (RDF 1.1 N-Quads, section 4, [141s] BLANK_NODE_LABEL). A dot after a label is
//! a part of it if a label character follows the dots.

ghost use Rattle.line_diagnosis.specs.Rest.{Accepts, Steps};
ghost use Rattle.line_diagnosis.specs.Says.{Explains};
ghost use Rattle.line_diagnosis.specs.declared.state.State.TheVariants as state;

use crate::between::step_between;
use crate::reason::{Next, Reason};
use crate::state::{Part, State, after};
use rdf_core::lexical::is_label_char;

/// Reads a character in a label.
pub fn step_label(part: Part, c: char) -> Result<State, Reason>
    ensures steps { Steps (Accepts (state.Label part)) c result }
    ensures says { Explains (state.Label part) c result }
{
    if is_label_char(c) {
        Ok(State::Label(part))
    } else if c == '.' {
        Ok(State::LabelDot(part))
    } else {
        step_between(after(part), c)
    }
}

/// Reads a character after the first dot, which may be the end of the statement.
pub fn step_label_dot(part: Part, c: char) -> Result<State, Reason>
    ensures steps { Steps (Accepts (state.LabelDot part)) c result }
    ensures says { Explains (state.LabelDot part) c result }
{
    if is_label_char(c) {
        Ok(State::Label(part))
    } else if c == '.' {
        Ok(State::LabelDots(part))
    } else if matches!(after(part), Next::Graph | Next::Dot) {
        step_between(Next::End, c)
    } else {
        Err(Reason::LabelDot)
    }
}

/// Reads a character after further dots, which only a label can have.
pub fn step_label_dots(part: Part, c: char) -> Result<State, Reason>
    ensures steps { Steps (Accepts (state.LabelDots part)) c result }
    ensures says { Explains (state.LabelDots part) c result }
{
    if c == '.' {
        Ok(State::LabelDots(part))
    } else if is_label_char(c) {
        Ok(State::Label(part))
    } else {
        Err(Reason::LabelDot)
    }
}
