//! The laws of queries over the parts of a dataset.
//!
//! [`laws::merges_give_the_result`] says that the results of the parts, merged, are the result of the query over a document
//! that has the quads of all parts. The others are about its steps: [`laws::parts_give_the_rows`] says that the rows of a
//! query over a dataset are the merged rows of its parts, and [`laws::overlapping_parts_give_the_rows`] says it of parts by
//! lines that have quads in common, with DISTINCT. [`laws::rows_are_tagged`] says that literals with a language tag have the
//! datatype that results must have to be read in one way only.
//!
//! The crate query_split has the conditions on queries and parts, query_plan the plan of a query, row_merge defines how rows
//! are merged, result_merge how results are merged, and spq_core defines the result of a query.
//!
//! Standards: SPARQL 1.1 Query Language, sections 15, 18 and 19.8; RDF 1.1 N-Quads.
//!
//! Reading order: specs/Laws.antt, specs/Results.antt, `laws`. The crate has no code to run; the prover checks the laws.
#![tactic(auto)]

pub mod laws;
