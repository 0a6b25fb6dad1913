//! Defines the grammar of SELECT queries, over lists of terminals.
//!
//! The grammar is a value: `right_side` of specs/Productions.antt maps each symbol to its right
//! side. `Derivation` of specs/Derivation.antt is the relation that the productions derive. It relates
//! lists of terminals to syntax trees and does not look ahead. The law [`one_query`] states that a
//! list of terminals is at most one query.
//!
//! The kind and the characters of a terminal determine its value (specs/Class.antt). A terminal
//! whose escape denotes no character has no value, so no production accepts it.
//!
//! The declarations of its prefix determine the IRI of a prefixed name. A name whose prefix has no
//! declaration has itself as its value. [`Declarations`] are the declarations of a text.
//! [`Declarations::find`] returns the last [`Declaration`] of a prefix, without a search through
//! the list.
//!
//! Standard: SPARQL 1.1 Query Language, sections 4.1.1 and 19.8. docs/USAGE.md (the query
//! language) has the supported part.
//!
//! Reading order: specs/Class.antt, specs/Symbol.antt, specs/Form.antt, specs/Productions.antt,
//! specs/Derivation.antt, then `laws`; specs/Values.antt, then `declarations`; specs/Prologue.antt,
//! specs/Mentioned.antt, specs/Derives.antt (the query of a text).
//!
//! Tests: tests/examples/query_accepted.toml, query_syntax.toml and query_terminals.toml.
//!
//! Not part of this crate: the readers (`sparql_expression`, `sparql_parse`), and the rules that
//! reject a query (`sparql_read`).
#![tactic(auto)]

mod declarations;
mod laws;

pub use declarations::{Declaration, Declarations};
pub use laws::one_query;
