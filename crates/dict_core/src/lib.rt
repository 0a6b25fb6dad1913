//! Numbers terms: the quads of a document become quads of numbers, and a dictionary has the terms by number.
//!
//! In contracts a [`Dict`] is the list of its distinct terms. A term's number is its place, counted from 0.
//! [`number_piece`] numbers the quads of one piece by a dictionary of the piece. [`merge`] merges numbered pieces,
//! in order. The merged dictionary has exactly the terms of the quads, by first appearance. The numbered quads, read
//! through it, are the quads (`IsNumbered` in specs/Numbered.antt).
//!
//! The law `absorbing_keeps_the_numbering` says that consecutive pieces may be merged in any groups. Tests:
//! `loading::refusals::dictionary` of spq_tests.
//!
//! Standard: RDF 1.1 Concepts and Abstract Syntax, section 3 (when two terms are the same). The numbers are a
//! choice of this project.
//!
//! Each term keeps its hash, so it is hashed once, in the dictionary of its piece.
//!
//! Reading order: `dict`, `num_quad`, `local_piece`, `merging`, `laws`. `term_set`, `hashed_term` and `inserting` are
//! private.
//!
//! Not guaranteed: which hash a term has. No result depends on it.
#![tactic(auto)]

mod dict;
mod hashed_term;
mod inserting;
mod laws;
mod local_piece;
mod merging;
mod num_quad;
mod term_set;

pub use dict::Dict;
pub use laws::{absorbing_keeps_the_numbering, equality_is_identity};
pub use local_piece::{LocalPiece, number_piece};
pub use merging::merge;
pub use num_quad::NumQuad;
