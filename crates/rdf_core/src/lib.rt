//! RDF terms and quads, which most other crates use.
//!
//! A [`Term`] is a blank node, an IRI or a literal. Its texts are of the type [`Text`], which a
//! contract views as UTF-8 bytes. Two terms in a clause are therefore equal (`≡`) if and only if
//! all their parts are equal, and there is no second model of a term. `==` decides `≡`, and `cmp`
//! is the order `term_cmp` of specs/Order.antt ([`laws`]).
//!
//! A [`Quad`] is a statement with an invariant: the subject and the graph name are not literals,
//! and the predicate is an IRI. [`write_term`] appends the N-Quads form of a term. The form of a
//! term that was read round-trips: the N-Quads reader of nquads_core returns the same term.
//!
//! Standards: RDF 1.1 Concepts and Abstract Syntax, sections 3 to 5; RDF 1.1 N-Quads, section 4;
//! SPARQL 1.1 Query Language, section 19.8, for the shared lexical forms.
//!
//! Reading order: `vocabulary` (IRIs of the standards), `text`, `term`, `quad`, `serialization` (the
//! N-Quads form of a term), `laws`, `lexical` (the lexical forms that N-Quads and SPARQL share).
//!
//! Tests: `loading::terms` of spq_tests, and the files tests/examples/document_*.toml.
//!
//! Not guaranteed: that an IRI is well-formed beyond what a reader checks, or that a blank node
//! label is valid in N-Quads. A term can be made of any texts.
#![tactic(auto)]

pub mod laws;
pub mod lexical;
mod quad;
mod serialization;
mod term;
mod text;
pub mod vocabulary;

pub use quad::{Quad, is_iri, is_node};
pub use serialization::write_term;
pub use term::Term;
pub use text::Text;
