//! Checks in parallel whether the terms of a result are in order.
//!
//! The check compares each term with the next. The texts of neighbours are far apart in memory, so
//! most of the time is spent waiting for memory. Workers share the comparisons.
ghost use Rattle.std.specs.Prelude.{◌≡◌, ◌≤◌, ◌-◌, true, length, All, IfErr, IfOk, IsSorted};
ghost use Rattle.rdf_core.specs.Order.{term_cmp};
ghost use Rattle.row_pieces.specs.How.{HasOneWorker, IsRunnable};
ghost use Rattle.row_pieces.specs.declared.fault.EvalFault.TheVariants.{Memory};
ghost use Rattle.result_json.specs.Ranks.{terms_of, IsPieceInOrder, IsRisingPart};

use crate::pieces::worker_piece_size;
use piece_pool::{Job, JobFault, OpenGate, Outcome, run_all};
use rdf_core::Term;
use row_pieces::{EvalFault, How, piece_ends};
use std::alloc::Global;
use std::sync::Wait;
use std::thread::Threads;

/// The pairs of neighbours in a list of terms, in pieces of `size` pairs. The output of a piece says
/// whether its pairs are in order.
#[derive(Drop)]
struct Neighbours<'a, 't> {
    entries: &'a [(&'t Term, u64)],
    size: usize,
}

impl<'a, 't> Job for Neighbours<'a, 't> {
    ghost use Rattle.std.specs.Prelude.{◌≡◌, true};
    ghost use Rattle.result_json.specs.Ranks.{terms_of, IsPieceInOrder};

    type Out = bool;

    type Fault = ();

    ghost answers = { λ job i out. out ≡ true → IsPieceInOrder job.size i (terms_of job.entries.now) };

    ghost faults = { λ _ _ _. ⊥ };

    fn run(&self, _alloc: Global, i: u64) -> Result<bool, JobFault<()>> {
        Ok(is_piece_in_order(self.entries, self.size, i))
    }

    ghost exclusive = { λ job i out fault _ absurd. absurd };
}

/// Returns whether no term from one place up to another is after the next term.
fn is_rising(entries: &[(&Term, u64)], from: usize, to: usize) -> bool
    requires places { to ≤ length entries.now - 1 }
    ensures rising { result ≡ true → IsRisingPart (terms_of entries.now) from to }
{
    for k in from..to {
        let term = entries[k].0;
        let next = entries[k + 1].0;
        if next.cmp(term).is_lt() {
            return false;
        }
    }
    true
}

/// Returns whether the pairs of a piece of `size` pairs are in order.
fn is_piece_in_order(entries: &[(&Term, u64)], size: usize, number: u64) -> bool
    ensures order { result ≡ true → IsPieceInOrder size number (terms_of entries.now) }
{
    let count = entries.len().saturating_sub(1);
    let (from, to) = piece_ends(count, size, number);
    is_rising(entries, from, to)
}

/// Returns whether all values are true.
fn all_true(values: &[bool]) -> bool
    ensures all { result ≡ true → All (λ value. value ≡ true) values.now }
{
    for value in values {
        if !*value {
            return false;
        }
    }
    true
}

/// Returns whether the terms are in ascending order. Each worker gets a piece of the pairs of
/// neighbours, unless that has fewer pairs than `how` has rows in a piece.
///
/// # Requires
/// `how` is within its limits.
///
/// # Errors
/// - `WorkerRefused` if a worker thread could not be started. It cannot occur with one worker.
/// - `Memory` if an allocation fails.
pub(crate) fn is_in_order<R: Threads + Wait>(
    rt: &R,
    alloc: Global,
    entries: &[(&Term, u64)],
    how: &How,
) -> Result<bool, EvalFault>
    requires how { IsRunnable how.now }
    ensures rising { IfOk result
        (λ is_sorted. is_sorted ≡ true → IsSorted term_cmp (terms_of entries.now)) }
    ensures one_worker { HasOneWorker how.now → IfErr result (λ fault. fault ≡ Memory) }
{
    let count = entries.len().saturating_sub(1);
    let size = worker_piece_size(count, how);
    let pieces = count.div_ceil(size) as u64;
    let job = Neighbours { entries, size };
    match run_all(rt, alloc, how.workers, pieces, &job, &OpenGate)? {
        Outcome::All(found) => Ok(all_true(&found)),
        Outcome::First { .. } => unreachable!(),
    }
}
