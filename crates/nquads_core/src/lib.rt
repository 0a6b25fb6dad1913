//! Parses N-Quads: from the bytes of a document to its quads. Also defines sources and sinks of bytes.
//!
//! [`read_piece`] takes whole lines of a document and returns their quads in order, or the first malformed
//! line. Other crates rely on its clauses `quads`, `lines` and `bad_line`.
//! [`read_term`] reads the term of one slice of a document. The crate `nquads_scan` finds the slices of each statement
//! ([`RawStatement`]).
//!
//! Standard: RDF 1.1 N-Quads (Recommendation of 2014), grammar, with four rules of this project: a CR that
//! no LF follows ends a line too; an IRI has a scheme, and no escape in it names a character that may not
//! occur there without an escape; a line with a byte order mark is malformed; tags are kept in lower case.
//!
//! Reading order: `fault`, `token` (the terminals), `statement` (the productions), `line`, `piece`,
//! `slices`, `raw_term`, `laws`. `device` and `transfer` are independent of these.
//!
//! ```text
//! let piece = read_piece(alloc, b"<http://e/a> <http://e/p> \"x\"@en-GB.\n")?;
//! ```
//! returns one quad and one line. The files tests/examples/document_*.toml have many lines like this one.
//!
//! Not guaranteed: full checking of IRIs, and that a language tag is registered.
#![tactic(auto)]

pub mod device;
mod fault;
pub mod laws;
mod line;
mod piece;
mod raw_term;
mod slices;
mod statement;
mod token;
pub mod transfer;

pub use device::{Device, DeviceFailed, Sink, Source};
pub use fault::{LineFault, PieceFault};
pub use line::read_line;
pub use piece::{Piece, count_lines, first_line, read_piece};
pub use raw_term::read_term;
pub use slices::RawStatement;
pub use transfer::{ReadFault, read_more, read_to_end, write_all};
