//! Operators over pieces of a list. Each element gives rows by itself, however the list is split.
ghost use Rattle.std.specs.Int.{div_ceil};
ghost use Rattle.std.specs.List.{flat_map};
ghost use Rattle.std.specs.Prelude.{◌≡◌, ◌≤◌, ◌+◌, ◌*◌, ◌-◌, ℕ, List, length, min, IfOk, IfErr, All, take, drop};
ghost use Rattle.piece_pool.specs.Limits.{most_pieces};
ghost use Rattle.algebra_model.specs.Solution.{Solution};
ghost use Rattle.row_pieces.specs.How.{IsRunnable, HasOneWorker};
ghost use Rattle.row_pieces.specs.Pieces.{AreRowsOf, piece_of};
ghost use Rattle.row_pieces.specs.declared.fault.EvalFault.TheVariants.{Memory};

use crate::fault::EvalFault;
use crate::how::How;
use piece_pool::{Gate, Job, JobFault, Outcome, run_all};
use row_core::Rows;
use std::alloc::{AllocError, Global};
use std::sync::Wait;
use std::thread::Threads;

/// A list of elements, each of which gives rows.
pub trait RowWork {
    /// The width of the rows.
    ghost width: { Self → ℕ };

    /// The rows that each element gives.
    ghost parts: { Self → List (List (Solution ℕ)) };

    /// Returns the width of the rows.
    fn row_width(&self) -> usize
        ensures value { result ≡ width self.now };

    /// Returns the number of elements.
    fn count(&self) -> usize
        ensures value { result ≡ length (parts self.now) };

    /// Returns the rows of the elements from one place up to another.
    ///
    /// # Requires
    /// `from` is at most `to`, and `to` is at most the number of elements.
    ///
    /// # Errors
    /// `AllocError` if an allocation fails.
    fn run(&self, alloc: Global, from: usize, to: usize) -> Result<Rows, AllocError>
        requires places { (from ≤ to) × (to ≤ length (parts self.now)) }
        ensures rows { IfOk result (λ rows. AreRowsOf (width self.now)
            (take (to - from) (drop from (parts self.now))) rows) };
}

/// A `RowWork` as a job for the pool, in pieces of `size` elements.
#[derive(Drop)]
struct RowPieces<'w, W> {
    work: &'w W,
    size: usize,
}

impl<'w, W: RowWork> Job for RowPieces<'w, W> {
    ghost use Rattle.row_pieces.specs.Pieces.{AreRowsOf, piece_of};

    type Out = Rows;

    type Fault = ();

    ghost answers = { λ job i out. AreRowsOf (W.width job.work.now) (piece_of job.size i (W.parts job.work.now)) out };

    ghost faults = { λ _ _ _. ⊥ };

    fn run(&self, alloc: Global, i: u64) -> Result<Rows, JobFault<()>> {
        let (from, to) = piece_ends(self.work.count(), self.size, i);
        Ok(self.work.run(alloc, from, to)?)
    }

    ghost exclusive = { λ job i out fault _ absurd. absurd };
}

/// Returns the rows of all elements as a multiset. The elements are split into pieces as `how`
/// says, and workers run the pieces. With one worker, or if one piece holds all elements, the
/// caller runs them all at once.
///
/// # Requires
/// `how` keeps its limits.
///
/// # Errors
/// - `WorkerRefused` if a worker thread could not be started. It cannot occur with one worker, or
///   if one piece holds all elements.
/// - `Memory` if an allocation fails.
pub fn over_pieces<R: Threads + Wait, W: RowWork + Sync, G: Gate + Sync>(
    rt: &R,
    alloc: Global,
    work: &W,
    how: &How,
    gate: &G,
) -> Result<Rows, EvalFault>
    requires how { IsRunnable how.now }
    ensures rows { IfOk result (AreRowsOf (W.width work.now) (W.parts work.now)) }
    ensures alone { length (W.parts work.now) ≤ how.now.rows → IfErr result (λ fault. fault ≡ Memory) }
    ensures one_worker { HasOneWorker how.now → IfErr result (λ fault. fault ≡ Memory) }
{
    let count = work.count();
    let size = piece_size(count, rows_a_piece(count, how));
    let pieces = count.div_ceil(size) as u64;
    let job = RowPieces { work, size };
    match run_all(rt, alloc, how.workers, pieces, &job, gate)? {
        Outcome::All(outs) => Ok(join_pieces(alloc, work.row_width(), outs)?),
        Outcome::First { .. } => unreachable!(),
    }
}

/// Returns the number of elements that a piece should have. One worker takes all of them at once, so
/// that their rows are not copied from pieces.
fn rows_a_piece(count: usize, how: &How) -> usize
    ensures least { how.now.rows ≤ result }
{
    if how.workers == 1 {
        return how.rows.max(count);
    }
    how.rows
}

/// Returns the number of elements in a piece. It is `rows`, or more if that would make more than
/// 2^62 pieces, which is the limit of a pool.
///
/// # Requires
/// `rows` is 1 or more.
pub fn piece_size(count: usize, rows: usize) -> usize
    requires { 1 ≤ rows }
    ensures some { 1 ≤ result }
    ensures few { div_ceil count result ≤ most_pieces }
    ensures asked { count ≤ most_pieces → result ≡ rows }
    ensures least { rows ≤ result }
{
    if count > 1 << 62 { rows.max(4) } else { rows }
}

/// Returns where piece `number` of a list begins and ends. The list has `count` elements, and a piece
/// has `size`. Both places are `count` for a piece after the last.
pub fn piece_ends(count: usize, size: usize, number: u64) -> (usize, usize)
    ensures begin { result.0 ≡ min (number * size) count }
    ensures end { result.1 ≡ min (result.0 + size) count }
{
    let from = (number as usize).saturating_mul(size).min(count);
    let to = from.saturating_add(size).min(count);
    (from, to)
}

/// Concatenates lists of rows of the same width.
fn join_pieces(alloc: Global, width: usize, outs: Vec<Rows>) -> Result<Rows, AllocError>
    requires width { All (λ out. out.width ≡ width) outs.items }
    ensures width { IfOk result (λ rows. rows.width ≡ width) }
    ensures rows { IfOk result (λ rows. rows.rows ≡ flat_map (λ out. out.rows) outs.items) }
{
    let mut rows = Rows::new(alloc, width);
    for out in outs {
        rows.append(out)?;
    }
    Ok(rows)
}
