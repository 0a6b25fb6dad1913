//! A claim board. Threads draw the numbers of pieces of work, each number once, and share the least
//! number that was reported as faulty. No thread waits for another.
//!
//! A [`Board`] is two shared words, `next` and `least`. Each thread holds a [`Pass`] and makes
//! three kinds of step, each of them one atomic exchange:
//!
//! - [`Board::draw`] is a fetch_add on `next`.
//! - [`Board::report`] is a fetch_min on `least`.
//! - [`Board::least`] is a load of `least`.
//!
//! [`Pass::skip`] leaves out a number above a report that the pass has seen. [`Board::close`] takes
//! all passes back and states what they did together. The numbers drawn are 0 up to `drawn`, each
//! drawn once. `least` is the least report. Whatever was skipped is above `least`. A pool of
//! workers relies on these facts.
//!
//! The claims of specs/Claims.antt are true between any two steps of any threads. They are the
//! invariant of the table of `atomic_table` that holds the words. The protocol is a choice of this
//! project, not fixed by a standard. It is defined as plain data in specs/Protocol.antt, and a law
//! in `laws` states that every run keeps the claims.
//!
//! Reading order: `history` (what is known of a seat), `rule` (the steps), `pass`, `board`, `laws`.
//!
//! ```text
//! let (board, mut passes) = Board::open(alloc, 4, 2)?;     // two passes, to hand to two threads
//! while let Some(i) = board.draw(&mut pass) { .. }         // in each thread
//! let closed = board.close(passes);                        // drawn is 4
//! ```
//! Tests: `loading::boards` of spq_tests, and `loading::pools::two_threads_work_on_one_board`, which draws on two
//! threads.
//!
//! Not guaranteed: which pass draws which number, that a look shows another pass's report at once,
//! that any thread makes progress, and time.
#![tactic(auto)]

mod board;
pub mod history;
pub mod laws;
mod pass;
pub mod rule;

pub use board::{Board, BoardFault, Closed};
pub use pass::Pass;
