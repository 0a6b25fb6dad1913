//! Tests of what queries need, from their texts to the JSON of their results:
//!
//! - `values`: an expression over a row, a comparison and an effective boolean value (expression_values, term_values)
//! - `plans`: a query from its text to its solutions over a document (sparql_read, sparql_algebra, sparql_eval)
//! - `operators`: the operators by themselves, with two workers at the same time (sparql_eval)
//!
//! `rows` has what the tests of operators share. tests/depth.py runs the program with long and deep queries.

mod operators;
mod plans;
mod rows;
mod values;
