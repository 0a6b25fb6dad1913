//! Join, LeftJoin, Minus and Distinct over rows of numbers. The right side is hashed by a key, and the left
//! rows are split into pieces.
//!
//! Each of the first three takes two lists of rows of one width, a hash state, the number of workers and
//! the rows of a piece. It returns the rows of the operator, as a multiset. [`distinct`] keeps the order
//! of the rows.
//!
//! Callers rely on three clauses of [`join`], [`left_join`] and [`minus`]:
//!
//! - `rows`: the rows are the multiset that the model's operator gives for the two lists.
//! - `width`: they have the width of the left rows.
//! - `numbers`: what is true of every number in the given rows is true of every number in the
//!   result.
//!
//! A [`RowTest`] is the condition of a left join. [`Keyed`] finds the places of the rows that bind
//! some variables to given numbers, and of those that leave one of them unbound.
//!
//! If almost all rows of both sides bind a common variable, the time is linear. It is relative to
//! the number of given rows, of pairs with equal keys, and of rows in the result. A join or left
//! join of sides that share no variable is a cross product. Minus compares no pair of such sides.
//!
//! Standard: SPARQL 1.1 Query Language, section 18.5.
//!
//! Reading order: `keyed` (over `numbered_places` with `chains` and `column`, for one variable whose numbers are close
//! together, and over `hashed_places` with `groups`, `keys` and `hashing`, the hash table), `key_choice` (the variables
//! of the key), `row_ref` (a row in its list), `tried` (the candidates for a left row), `right_side` (the keyed rows, and
//! what finds the candidates), `left_rows` (the loop over the left rows, in pieces), `merging` (the merges of a left
//! row), `joins`, `left_joins`, `minus_operator`, `distinct_rows`.
//!
//! ```text
//! join((?s: 1), (?s: 2) ; (?s: 1, ?o: 7), (?o: 9))
//!     = (?s: 1, ?o: 7), (?s: 1, ?o: 9), (?s: 2, ?o: 9)
//! ```
//! Tests: `query::operators` of spq_tests, and tests/examples/query_solutions.toml, which has similar joins.
//!
//! Not guaranteed: the order of the rows, which variables make the key, how much memory is taken.
#![tactic(auto)]

mod chains;
mod column;
mod distinct_rows;
mod groups;
mod hashed_places;
mod hashing;
mod joins;
mod key_choice;
mod keyed;
mod keys;
mod left_joins;
mod left_rows;
mod merging;
mod minus_operator;
mod numbered_places;
mod right_side;
mod row_ref;
mod tried;

pub use distinct_rows::distinct;
pub use joins::join;
pub use keyed::Keyed;
pub use left_joins::{RowTest, left_join};
pub use minus_operator::minus;
