//! Numbers the quads of a document by a dictionary of texts.
//!
//! [`read_lines`] reads a piece of an N-Quads document against a borrowed [`TextDict`], so pieces may be read in
//! parallel. It validates every line, and may leave out quads that a filter does not keep. [`add_piece`] then adds pieces, in
//! order. The texts of the dictionary are the N-Quads forms of the
//! terms of the quads, by first appearance (`AreNumberedBy` in specs/Forms.antt).
//!
//! A slice of the document that is the N-Quads form of a term already is looked up by its bytes: no term is built, and
//! nothing is allocated. Any other slice is first rewritten to that form.
//!
//! Standard: RDF 1.1 N-Quads, grammar; RDF 1.1 Concepts and Abstract Syntax, section 3 (when two terms are the same).
//! The numbers are a choice of this project.
//!
//! Reading order: `text_piece`, `hashes`, `new_texts`, `naming` (one slice), `statements`, `relevance`,
//! `reading` (a piece), `adding`, `terms`.
#![tactic(auto)]

mod adding;
mod hashes;
mod naming;
mod new_texts;
mod reading;
mod relevance;
mod renumbering;
mod statements;
mod terms;
mod text_piece;

pub use adding::add_piece;
pub use reading::read_lines;
pub use terms::terms_between;
pub use text_piece::{Seen, TextPiece};
