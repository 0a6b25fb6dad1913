//! Writes notes on a query that was evaluated: rows that errors of its expressions cost, and parts of
//! the query that find nothing.
//!
//! [`outline_of`] goes over the terminals of a query once. It finds each expression in the order in
//! which the plan has them, the variables of expressions, and the first pattern outside of GRAPH.
//! [`keys_of`] names the expressions of its plan, for the counts of an evaluation. [`notes_on`] writes the notes, from
//! the outline and the counts. All notes are one line each and begin with `spq: note: `.
//!
//! `speaks` of `causes` decides when a count is worth a note. Nothing here changes a result.
//!
//! Standard: SPARQL 1.1 Query Language, sections 13 (the default graph), 17.2 and 17.3 (errors), 18.2
//! (the order of a plan).
//!
//! Reading order: `outline`, `expressions` (the counts), `texts` (places and names), `causes` (rows),
//! `features` (the query alone), `notes`. Tests: tests/examples/program_notes.toml, tests/notes.py and
//! tests/messages.py.
//!
//! Not guaranteed: that a person is surprised by what a note says.
#![tactic(auto)]

mod causes;
mod expressions;
mod features;
mod notes;
mod outline;
mod texts;

pub use expressions::keys_of;
pub use notes::{RowNote, notes_on};
pub use outline::{Outline, Site, SiteKind, outline_of};
pub use texts::{Terminal, Text};
