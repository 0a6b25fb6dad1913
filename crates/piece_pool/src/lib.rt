//! Runs numbered pieces of work on worker threads. The result is the output of every piece in
//! order, or the first faulty piece.
//!
//! Other crates call [`run_all`] and [`run_all_with`]. They run a [`Job`] over the pieces `0` to `n - 1`. The
//! result is an [`Outcome`] that depends only on the job and `n` (`IsPoolOutcome` in specs/Outcome.antt). The
//! clause `outcome` mentions no worker and no gate, so every number of workers gives the same result. With
//! one worker, or with at most one piece, the caller's thread runs the pieces, so `WorkerRefused` cannot occur.
//!
//! [`run_all_with`] also runs a task on the caller's thread: while the workers run, or after the pieces if no
//! thread is started.
//!
//! [`run_pieces`] does the same as [`run_all`], but starts a thread also for one worker and for one piece. It
//! consists of two functions. Each worker calls [`work`] with a pass of a claim board (crate piece_board) and never
//! waits. [`gather`] combines what all workers return.
//!
//! Everything here is a choice of this project (not fixed by a standard).
//!
//! Reading order: `job` (the work), `gate` (callbacks before and after each piece), `worker` (the
//! loop of a worker), `collector` (outputs by number), `task` (a task for the caller's thread), `pool`
//! (starting and joining the workers), `running` (in parallel, or on the caller's thread). Tests:
//! `loading::pools` of spq_tests.
//!
//! ```text
//! let outcome = run_all(&rt, alloc, 4, 1000, &job, &OpenGate)?;
//! ```
//! The test `loading::pools::each_piece_passes_the_gate_once` makes similar calls.
//!
//! Not guaranteed: that a second thread runs, that any piece is skipped, which worker runs which
//! piece, and that `run_pieces` returns (it joins its workers).
#![tactic(auto)]

mod collector;
mod gate;
mod job;
mod pool;
mod running;
mod task;
mod worker;

pub use collector::{Outcome, gather};
pub use gate::{Gate, OffsetGate, OpenGate};
pub use job::{Job, JobFault};
pub use pool::{PoolFault, run_pieces};
pub use running::{run_all, run_all_with};
pub use worker::{Worked, work};

/// The places at which a document in memory is split into pieces.
pub use piece_cuts::Cuts;

/// The pieces of a document that is read block by block.
pub use piece_cuts::Blocks;

/// Why [`Blocks::next`] has no block.
pub use piece_cuts::BlockFault;
