//! A dictionary of terms as texts.
//!
//! A [`TextDict`] keeps each term as its N-Quads form, in one buffer, with a table of hash bits and numbers. In contracts
//! it is the list of these texts. Such a form identifies its term (the law `forms_identify_terms` of nquads_core). So a
//! slice of a document that is the N-Quads form of a term already is looked up by its bytes, and no term is built.
//!
//! Standard: RDF 1.1 Concepts and Abstract Syntax, section 3 (when two terms are the same); RDF 1.1 N-Quads, section 4.
//! The numbers are a choice of this project.
//!
//! Reading order: `texts` (the buffer), `slots` (the table), `text_dict`.
//!
//! Not guaranteed: which hash a text has. No result depends on it.
#![tactic(auto)]

mod slots;
mod text_dict;
mod texts;

pub use text_dict::TextDict;
