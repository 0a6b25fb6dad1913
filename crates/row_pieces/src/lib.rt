//! Runs an operator in parallel, over pieces of its input.
//!
//! An operator implements [`RowWork`]: a list of elements, and the rows that each of them gives.
//! [`over_pieces`] splits the list into pieces of [`How::rows`] elements and runs them on a pool of
//! [`How::workers`] workers. It returns the rows of all elements as a multiset, which is the same
//! for every size of piece and every number of workers. [`EvalFault`] says why there is no result.
//!
//! The split is a choice of this project (not fixed by the standard).
//!
//! Reading order: `how`, `context`, `pieces`. The tests `query::operators` of spq_tests run
//! [`over_pieces`].
//!
//! ```text
//! let rows = over_pieces(&rt, alloc, &work, &How { workers: 4, rows: 1024 }, &OpenGate)?;
//! ```
//!
//! Not guaranteed: the order of the rows, and which worker runs which piece.
//!
//! [`How`] is how an evaluation is run: the number of workers, and how many rows a task has at most.
//! [`EvalFault`] is why it has no result. The crate sparql_eval re-exports both. [`Context`] is what
//! the operators of one evaluation are run with.
#![tactic(auto)]

mod context;
mod fault;
mod how;
mod pieces;

pub use context::Context;
pub use fault::EvalFault;
pub use how::How;
pub use pieces::{RowWork, over_pieces, piece_ends, piece_size};
