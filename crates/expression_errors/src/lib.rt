//! Finds out why an expression is an error over a row, and counts the rows.
//!
//! [`condition_cause`] and [`value_cause`] take a second look at a row. They return a [`Cause`] only
//! if the condition or the value is an error, which their contracts state. [`test_counted`] and
//! [`value_counted`] evaluate as `test` and `value` of the crate expression_values do, with the same
//! clauses. They look a second time only at an error, and count its cause in [`ErrorCounts`]. So an
//! evaluation without errors pays nothing. [`count_rows`] counts rows that a join leaves out unseen: all of
//! them are like one of them.
//!
//! Standard: SPARQL 1.1 Query Language, sections 17.2 and 17.3 (which operations are errors). What
//! the causes are, and which of them count, is a choice of this project.
//!
//! Reading order: `cause` (what can be wrong with terms), `search` (which part of an expression is
//! wrong), `digest` (how an evaluation finds the counts), `counts`, `counting`. Tests:
//! tests/examples/program_notes.toml, and tests/notes.py, which compares the counts with a model.
//!
//! ```text
//! condition_cause(alloc, &less, &row)   // ?l < "x", where ?l is "a"@en: Some(Cause::Tagged)
//! ```
//!
//! Not guaranteed: which of several causes is returned.
#![tactic(auto)]

mod cause;
mod counting;
mod counts;
mod digest;
mod search;

pub use cause::{Cause, TermClass, is_float};
pub use counting::{count_rows, test_counted, value_counted};
pub use counts::{ErrorCounts, Key, Place, Tally};
pub use digest::{Owner, digest_of};
pub use search::{condition_cause, value_cause};
