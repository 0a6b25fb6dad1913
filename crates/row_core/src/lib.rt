//! Rows of numbers: the solutions that the evaluator works on.
//!
//! [`Rows`] is a list of rows of one width. A row holds the number of each variable's term, or None
//! if it leaves the variable unbound. In contracts `Rows` is its width and the list of its rows,
//! and a row is a `Solution ℕ` of the algebra's model. `is_compatible` and `merge_into` compute the
//! model's `is_compatible` and `merge`.
//!
//! Callers rely on these clauses: `push` adds exactly the given row, `append` and `extend` add exactly
//! the other rows, `restrict` unbinds exactly the variables that are not kept, and `read` gives
//! exactly the row at a place. `push_row` adds exactly one row of another list, `push_merge` the merge
//! of two rows if and only if they are compatible, and `pop` removes exactly the last row. If an
//! allocation fails, the rows are unchanged.
//!
//! Standard: SPARQL 1.1 Query Language, section 18.3 (compatible mappings, merge) and section 18.5
//! (Project).
//!
//! Reading order: `rows` (over `cells`, their memory), `merging`, `rows::copies` (over `cell_merging`,
//! which merges two rows where their cells are). Tests: `query::operators` of spq_tests.
//!
//! Not guaranteed: how much memory a row takes.
#![tactic(auto)]

mod cell_merging;
mod cells;
mod merging;
mod rows;

pub use merging::{is_compatible, merge_into};
pub use rows::Rows;
