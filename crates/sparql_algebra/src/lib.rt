//! Translates queries to plans of the SPARQL algebra.
//!
//! [`translate`] returns the plan of a query, exactly as specs/Translation.antt defines it. A
//! [`Plan`] holds the names of a query's variables and a tree of [`Operator`]s over their numbers.
//! In contracts the tree is an algebra expression: `algebra_of` of specs/AlgebraOf.antt, into
//! `Algebra` of the crate algebra_model. It is an invariant of a plan that its variables have
//! names, so an evaluator needs no condition on it.
//!
//! The expressions in a plan are [`Expr`]s of the crate expression_values. That crate evaluates
//! them over a row with [`value`] and [`test`]. Its public names are reexported here, so a user of
//! plans needs this crate alone.
//!
//! Standard: SPARQL 1.1 Query Language, section 18.2. The crate algebra_model states the
//! definitions of the algebra.
//!
//! `sparql_read` rejects a query in which two basic graph patterns have the same blank node label.
//! The law [`laws::one_set_of_patterns`] states that the plan has the same basic graph patterns as
//! that rule, in the same order and with the same labels.
//!
//! Reading order: `operator`, `plan` (the tree); `names`, `naming` (the variables of a query and
//! their numbers); `conversion`, `pattern`, `table`, `constructors`, `operation`, `part`, `addition`,
//! `group`, `translation` (a query, element by element); `laws`. Tests: `query::plans` of
//! spq_tests, and tests/examples/query_solutions.toml.
//!
//! ```text
//! translate(alloc, &query)   // SELECT ?x { ?x ?p ?o FILTER (?o < 3) }:
//!                            // Project([0], Filter(2 < 3, Join(Pattern(), Pattern(0 1 2))))
//! ```
//!
//! Not guaranteed: enough stack for a query of any depth.
#![tactic(auto)]

mod addition;
mod constructors;
mod conversion;
mod group;
pub mod laws;
mod names;
mod naming;
mod operation;
mod operator;
mod part;
mod pattern;
mod plan;
mod table;
mod translation;

pub use expression_values::{
    Comparison, Expr, ExprFault, Function, Lookup, compare, test, truth, value,
};
pub use operator::{GraphName, Operator, PatternTerm, TriplePattern};
pub use plan::Plan;
pub use translation::translate;
