//! Evaluates expressions over a row.
//!
//! An [`Expr`] is an expression over numbered variables. In contracts it is `expression_of` of
//! specs/ExpressionOf.antt, an `Expression` of the crate algebra_model. A row is any type that
//! implements [`Lookup`].
//!
//! [`value`] returns the value of an expression over a row, or `Error` exactly if the expression is
//! an error. [`test`] evaluates the condition of a filter, and [`truth_value`] returns an error
//! and false as two results. Many conditions allocate nothing: `takes_none` of specs/NoAllocation.antt says which.
//!
//! [`compare`] compares two terms, and [`truth`] is the effective boolean value of a term. Both are
//! functions of the crate term_values, reexported here.
//!
//! Standard: SPARQL 1.1 Query Language, section 17. The crate algebra_model states its definitions.
//!
//! Reading order: `expression` (the tree), `lookup` (rows), `held` (intermediate values),
//! `evaluation`, `condition`. Tests: `query::values` of spq_tests, and
//! tests/examples/query_values.toml with the files next to it.
//!
//! ```text
//! value(alloc, &str_of_x, &row)      // STR(?x), where ?x is <http://e/a>: "http://e/a"
//! value(alloc, &str_of_x, &empty)    // ?x is unbound: Err(ExprFault::Error)
//! test(alloc, &x_or_true, &empty)    // ?x || true, where ?x is unbound: Ok(true)
//! ```
//!
//! Not guaranteed: enough stack for an expression of any depth. Chains of `||` and `&&` are
//! evaluated in a loop.
#![tactic(auto)]

mod condition;
mod evaluation;
mod expression;
mod held;
mod lookup;

pub use condition::truth_value;
pub use evaluation::{ExprFault, test, value};
pub use expression::Expr;
pub use lookup::Lookup;
pub use sparql_tree::{Comparison, Function};
pub use term_values::{compare, truth};
