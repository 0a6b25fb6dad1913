//! Reads the text of a SPARQL query.
//!
//! [`read_query`] is the main call. It returns the syntax tree that the grammar derives from the
//! text, a [`Query`], whose types this crate re-exports. If a rule rejects the text, it returns the
//! first such rule as a [`QueryFault`] (`IsReadResult` of specs/Rejection.antt). The law [`one_tree`]
//! states that a text derives at most one query, rejected or not. The law [`one_result`] states
//! that a text has at most one result, apart from `Memory`.
//!
//! These calls check a rule each:
//!
//! - [`is_too_deep`]: brackets are nested too deep.
//! - [`has_undefined_prefix`]: a prefixed name has no declaration.
//! - [`has_relative_iri`]: an IRI has no scheme.
//! - [`breaks_bind_scope`]: a BIND is to a variable that is already in scope.
//! - [`reuses_blank`]: a blank node label occurs in two basic graph patterns.
//!
//! [`declarations_of`] returns the prefix declarations of a text, and [`mentioned`] its variables,
//! each time that one occurs. The contract of each call states that it returns the value of its
//! definition over terminals or trees. specs/Rejection.antt defines the order of the rules: the one
//! on depth is before all others.
//!
//! Standard: SPARQL 1.1 Query Language, sections 4.1.1 (prefixes), 5.1.1 (blank node labels), 10.1
//! and 18.2.1 (BIND and variable scope), 19.8 (grammar). The limit of depth and the rejection of
//! relative IRIs are choices of this project.
//!
//! Reading order: specs/Depth.antt, specs/RelativeIri.antt, specs/BindScope.antt,
//! specs/Rejection.antt; then `depth`, `prologue`, `iris`, `name_set`, `scope`, `labels`, `checking`,
//! `reader`, `laws`. `sparql_grammar` defines which tree a text derives, and `sparql_tree` the basic
//! graph patterns of a group.
//!
//! Tests: tests/examples/query_rules.toml, which has texts for each rule.
//!
//! Not guaranteed: the time that a text takes. By design it is the time to sort its names and to
//! write the triples of the tree, each of which owns its subject and verb.
#![tactic(auto)]

mod checking;
mod depth;
mod fault;
mod iris;
mod labels;
mod laws;
mod name_set;
mod prologue;
mod reader;
mod scope;
mod variables;

pub use depth::is_too_deep;
pub use fault::QueryFault;
pub use iris::has_relative_iri;
pub use labels::reuses_blank;
pub use laws::{one_result, one_tree};
pub use prologue::{declarations_of, has_undefined_prefix};
pub use reader::read_query;
pub use scope::breaks_bind_scope;
pub use variables::mentioned;

/// A SELECT query as it is in its text, which [`read_query`] returns.
pub use sparql_tree::Query;

/// The variables that a query selects.
pub use sparql_tree::Selection;

/// An element of a group: triples, a group, OPTIONAL, UNION, MINUS, GRAPH, FILTER, BIND or VALUES.
pub use sparql_tree::Element;

/// A triple pattern.
pub use sparql_tree::Triple;

/// A variable, a blank node label or an RDF term in a triple pattern.
pub use sparql_tree::VarOrTerm;

/// The variable or the IRI after GRAPH.
pub use sparql_tree::VarOrIri;

/// An expression of FILTER or BIND.
pub use sparql_tree::Expression;

/// A function of one argument: STR, LANG, DATATYPE, isIRI, isBlank or isLiteral.
pub use sparql_tree::Function;

/// An operator that compares two values.
pub use sparql_tree::Comparison;
