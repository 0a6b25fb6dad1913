//! Splits N-Quads into the slices of its terms, in every layout of the grammar, and gives each slice its canonical
//! text.
//!
//! [`split_piece`] finds the slices in one pass over the bytes. It does not check them. [`canonical`] checks one
//! slice, and gives the N-Quads form of the term that it denotes. Two terms that were read are the same if these
//! forms are (the law `forms_identify_terms` of nquads_core), so a dictionary can keep the forms alone.
//!
//! Standard: RDF 1.1 N-Quads (Recommendation of 2014), grammar. Which form of a term is the canonical one is a choice
//! of this project: the one that `write_term` of rdf_core writes.
//!
//! Reading order: `search`, `ends` (where a slice ends), `blanks` (what is between slices), `statement` (a line), `pieces`,
//! `checks`, `plain`, `rewriting`, `canonical_text`, `plain_lines`.
#![tactic(auto)]

mod blanks;
mod canonical_text;
mod checks;
mod ends;
mod pieces;
mod plain;
mod plain_lines;
mod rewriting;
mod search;
mod statement;

pub use canonical_text::{Form, canonical};
pub use pieces::{SplitPiece, split_piece};
pub use plain_lines::skip_plain_lines;
