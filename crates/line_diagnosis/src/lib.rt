//! Finds the place at which a line of N-Quads is malformed, and the reason.
//!
//! [`diagnose`] takes the bytes of a line. It returns None for a well-formed line, and a
//! [`Diagnosis`] for a malformed one. Its contract states that some well-formed line begins with
//! the bytes before the place, and that none begins with more whole characters of the line
//! (`IsPlace` of specs/Place.antt). So the place is neither too late nor too early.
//!
//! [`report`] composes the message for a user: the place and the reason, the excerpt, and a hint.
//!
//! Standard: RDF 1.1 N-Quads (Recommendation of 2014), section 4, as nquads_core reads it.
//!
//! Reading order: specs/Place.antt, `reason`, `state` (the states between two characters), then a
//! file for each family of terminals (`between`, `iris`, `escapes`, `literals`, `labels`, `tags`),
//! `diagnosis`, `likeness` (other formats), `hint`, `reports`. The contract of each step cites specs/Rest.antt, which says
//! which texts complete the line after each state.
//!
//! Tests: tests/examples/program_line_*.toml, and `program::lines` of spq_tests.
//!
//! Not guaranteed: that the reason is the mistake that the author made. It is about the first
//! character that is not allowed at its place.
#![tactic(auto)]

mod between;
mod diagnosis;
mod escapes;
mod hint;
mod iris;
mod labels;
mod likeness;
mod literals;
mod reason;
mod reports;
mod state;
mod summary;
mod tags;

pub use diagnosis::{Counted, Diagnosis, diagnose};
pub use hint::{Hint, LineContext, hint_of};
pub use reason::{Found, Next, Packing, Reason};
pub use reports::{report, report_without_hint};
pub use summary::Summary;
