//! Messages about a place in a text. The first line has the place and the reason. The line of the
//! text and a line with a caret follow, and then at most one hint.
//!
//! [`message`] composes the whole message. [`excerpt`] appends only the line of the text and the
//! caret. A line is cut to 80 columns around the place, and control characters are shown by their
//! pictures (`␀` to `␡`). The crate assumes that each character is one column wide, so wide
//! characters, for example Chinese ones, shift the caret to the left of its place.
//!
//! No standard defines these messages; they are a choice of this project.
//!
//! Reading order: specs/Excerpt.antt, `columns`; specs/Message.antt, `messages`. Tests: tests/examples.py
//! compares whole messages. Example:
//!
//! ```text
//! spq: line 3, column 12: a predicate must be an IRI, found a literal
//! <http://e/a> "x" <http://e/b> .
//!              ^
//! ```
//!
//! Not guaranteed: how a terminal displays characters that it does not know.
#![tactic(auto)]

mod columns;
mod messages;

pub use columns::{count_of, excerpt, visible};
pub use messages::message;
