//! Finds the place at which a query is rejected, and the reason.
//!
//! [`diagnose`] takes the text of a query. It returns None for a text that `read_query` of
//! sparql_read reads, and otherwise a [`Diagnosis`] with the same fault. The place of a syntax
//! error is that of the first terminal after which no query continues. Two facts define it:
//!
//! - Some query begins with the terminals before the place (`IsQueryPrefix` of specs/QueryPrefix.antt).
//!   This is proved.
//! - No query begins with these terminals and the one at the place. This is not proved; the tests
//!   run every query that is read through the same machine.
//!
//! For an undeclared prefix, a relative IRI and the depth of brackets it is proved that the place is
//! that of the first terminal that breaks the rule (`IsRejectedAt` of specs/Place.antt).
//!
//! [`report`] composes the message for a user: the place and the reason, the line of the query with
//! a caret, and a hint. It is proved that the line and the column are those of the place, and that
//! the caret is under it (`IsReport` of specs/Report.antt). The hint for an unsupported feature names
//! what to write instead.
//!
//! Standard: SPARQL 1.1 Query Language, section 19.8 (grammar), and sections 4.1.1, 5.1.1 and 10.1
//! for the rules on prefixes, blank node labels and BIND.
//!
//! Reading order: specs/QueryPrefix.antt, Position, TerminalPlace, Place and Report; `symbol`, `steps`
//! (the grammar as tables), `machine`,
//! `completion`; `expected` (the terminals that may come, as text); `places`,
//! `rules`; `hint`, `diagnosis`, `reports`.
//!
//! Tests: tests/examples/program_query_*.toml.
//!
//! Not guaranteed: that the reason is the mistake that the author made.
#![tactic(auto)]

mod completion;
mod diagnosis;
mod expected;
mod hint;
mod hints;
mod machine;
mod places;
mod reports;
mod rules;
mod steps;
mod symbol;

pub use diagnosis::{Diagnosis, diagnose};
pub use hint::Hint;
pub use machine::{Cause, Stop, stop_of};
pub use places::{Position, offset_of, position_of};
pub use reports::report;
