//! The malformed lines of a document: the first twenty, how many there are, and how many for each reason.
//!
//! [`list_piece`] lists the malformed lines of a piece. [`MalformedLines::add`] appends the list of the next piece to
//! that of the pieces before. So the list of a document is that of its lines (`IsListed` in specs/Malformed.antt),
//! however it is split into pieces. [`MalformedLine::diagnosis`] returns the place in a line, of which only the first
//! bytes may be kept, and the reason.
//!
//! A malformed line is one that holds no statement and is not blank and no comment (RDF 1.1 N-Quads, grammar). That
//! twenty of them are kept, and the counts by reason, are choices of this project.
//!
//! Reading order: `reason_counts`, `piece_list`, `well_formed` and `listing` (one piece), `document_list` and `adding` (all pieces), `placing`.
//!
//! Tests: tests/messages.py, and tests/examples/program_line_contexts.toml.
//!
//! Not guaranteed: that a reason is the mistake that the author made.
#![tactic(auto)]

mod adding;
mod document_list;
mod listing;
mod piece_list;
mod placing;
mod reason_counts;
mod well_formed;

pub use document_list::{MalformedLine, MalformedLines};
pub use listing::list_piece;
pub use piece_list::{FoundLine, PieceList};
pub use reason_counts::{ReasonCount, ReasonCounts};
