//! The tree of a SPARQL query. `sparql_read` makes it, and `sparql_algebra` translates it.
//!
//! A [`Query`] holds the parts of one SELECT query in SPARQL's terms: its group with the elements
//! in their order, its expressions, and its solution modifiers. Prefixed names are expanded,
//! strings are decoded, and `a`, numbers and booleans are terms. The tree has no semantics; the
//! algebra defines what a query means.
//!
//! All fields are public. Contracts use plain models of the types, without boxes and vectors:
//! `expression_of` an [`Expression`] (specs/ExpressionTree.antt), `element_of` an [`Element`]
//! (specs/GroupTree.antt) and `query_of` a [`Query`] (specs/QueryTree.antt). A [`Triple`] and a
//! [`VarOrTerm`] are their own models. specs/BlankReuse.antt has the basic graph patterns of a group.
//!
//! Standard: SPARQL 1.1 Query Language, section 19.8 (grammar).
//!
//! Reading order: `expression`, `group`, `query`. The crate has no tests of its own; those of
//! spq_tests use its trees.
//!
//! Not guaranteed: that a tree made by hand has a text. The trees of `sparql_read` have one.
#![tactic(auto)]

mod expression;
mod group;
mod query;

pub use expression::{Comparison, Expression, Function};
pub use group::{Element, Triple, VarOrIri, VarOrTerm};
pub use query::{Query, Selection};
