//! What is known of a run of spq: why it failed, and its notes for messages to the user.
//!
//! [`RunFault`] is why a command was not done. [`finish`] writes its line ([`write_fault`]) and returns the exit status
//! ([`status`]); specs/Report.antt has the table of both. [`Notes`] are what messages show, and no clause depends on
//! them. A [`Progress`] is told of the stages of a run, of the first malformed line, and of each failure that becomes
//! `Memory` or `WorkerRefused`.
//!
//! `spq_core` runs commands, and exports all of this too. `spq_report` writes the messages. Both depend on this crate, and
//! neither on the other, so they are proved at the same time.
//!
//! Reading order: `fault`, `writing`, `report` (lines and statuses of faults, and the end), `notes`.
//!
//! Example: the line of `RunFault::BadLine(7)` is `error: line 7`, and its status is 1. The test
//! `program::faults::a_fault_is_written` of spq_tests has such examples.
//!
//! Not guaranteed: that the writer takes a line.
#![tactic(auto)]

mod fault;
mod notes;
mod report;
mod writing;

pub use fault::RunFault;
pub use notes::{NoProgress, Notes, Progress, Stage};
pub use report::{finish, status, write_fault};
pub use writing::write_text;

/// The malformed lines of a document.
pub use dataset_load::Listing;
/// Is called when the first malformed line of a document is known.
pub use dataset_load::LoadListener;
/// Why a call failed, as a progress is told.
pub use piece_pool::PoolFault;
