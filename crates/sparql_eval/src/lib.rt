//! Evaluates plans of the SPARQL algebra over an indexed dataset. Solutions are rows of numbers,
//! and a dictionary gives the term of each number.
//!
//! [`evaluate`] takes a plan, an index and the dictionary of its numbers. It returns the rows of
//! the solutions and a dictionary. [`evaluate_counted`] also counts the rows over which expressions
//! are errors. [`graph`] evaluates a tree in named graphs. Each other operator is a function of its
//! own: [`pattern`], [`join`], [`left_join`], [`minus`], [`union`], [`filter`], [`extend`],
//! [`project`], [`distinct`] and [`table`].
//!
//! Callers rely on two clauses of each of them:
//!
//! - `IsEvaluated` (specs/Evaluated.antt): the returned dictionary begins with the given one. The
//!   rows, read through it, are the multiset of solutions that the definition of the operator
//!   gives, whatever the workers and the pieces.
//! - `TakesOnly` (specs/Computed.antt): only the terms of VALUES and computed values are added to
//!   the dictionary.
//!
//! Numbers are compared in place of terms, since a dictionary holds each term once.
//!
//! Standard: SPARQL 1.1 Query Language, sections 18.5 and 18.6. The crate algebra_model states its
//! definitions.
//!
//! Reading order: `appending`, `unions`, `projections`, `distinctness` (rows alone); `operator_result`
//! (rows with a dictionary); `numbering`, `tables` (terms added to the dictionary); `read_row`,
//! `filters`, `piece_values`, `values`, `extensions` (expressions); `patterns`, `graphs` (the index);
//! `equalities`, `keyed_rows`, `keyed_joins`, `fitted_joins`, `joins` (two lists of rows);
//! `pair_counts`, `separated_pairs`, `separated_classes`, `separated`, `separated_rows` (pairs that a
//! join by keys leaves out); `mentions`, `closed`, `possible_graphs`, `forms`, `evaluator`,
//! `two_inputs`, `trees_to_join`, `tree_sizes`, `filtered_trees`, `named_graphs`, `across_graphs`,
//! `evaluation` (a plan). Tests: `query::operators` and `query::plans` of spq_tests, and
//! tests/examples/query_solutions.toml.
//!
//! ```text
//! { ?s p ?o OPTIONAL { ?o p ?z } }  over  x p y, y p z  =  (?s: x, ?o: y, ?z: z), (?s: y, ?o: z)
//! ```
//! The test `query::plans::a_query_has_its_plan_and_solutions` of spq_tests runs a similar query.
//!
//! Not guaranteed: the order of the rows, and which numbers computed terms get.
#![tactic(auto)]

mod across_graphs;
mod appending;
mod closed;
mod distinctness;
mod equalities;
mod evaluation;
mod evaluator;
mod extensions;
mod filtered_trees;
mod filters;
mod fitted_joins;
mod forms;
mod graphs;
mod joins;
mod keyed_joins;
mod keyed_rows;
mod mentions;
mod named_graphs;
mod numbering;
mod operator_result;
mod pair_counts;
mod patterns;
mod piece_values;
mod possible_graphs;
mod projections;
mod read_row;
mod separated;
mod separated_classes;
mod separated_pairs;
mod separated_rows;
mod tables;
mod tree_sizes;
mod trees_to_join;
mod two_inputs;
mod unions;
mod values;

pub use distinctness::distinct;
pub use evaluation::{evaluate, evaluate_counted, graph};
pub use extensions::extend;
pub use filters::filter;
pub use joins::{join, left_join, minus};
pub use patterns::pattern;
pub use projections::project;
pub use row_core::Rows;
pub use row_join::Keyed;
pub use row_pieces::{EvalFault, How};
pub use tables::table;
pub use unions::union;
