//! Reads the terminals of a SPARQL query as its syntax tree.
//!
//! [`parse`] takes the tokens of a whole text and its prefix declarations. It returns the
//! [`Select`] that the grammar of sparql_grammar derives from the terminals (`IsParsed` of
//! specs/Queries.antt). It returns `Syntax` if and only if they are not a query. The caller,
//! `sparql_read`, finds the declarations first, and checks the other rules for the query
//! afterwards.
//!
//! The readers work by recursive descent over a slice of tokens, with a function for each
//! production or group of productions. The contract of a reader is about one symbol of the grammar
//! and has two directions. The grammar derives the value that is returned. `Syntax` is returned
//! only if the grammar derives no value whose next terminal cannot continue it.
//!
//! Standard: SPARQL 1.1 Query Language, section 19.8. docs/USAGE.md (the query language)
//! has the supported part.
//!
//! Reading order: `triples`, `data_block`, `group`, `select`, `query`. Tests:
//! tests/examples/query_accepted.toml and query_syntax.toml.
//!
//! Not guaranteed: a limit on the depth of nested groups and expressions. The caller first checks
//! how deep the brackets of the text nest.
#![tactic(auto)]

mod data_block;
mod group;
mod query;
mod select;
mod triples;

pub use query::parse;
pub use select::Select;
