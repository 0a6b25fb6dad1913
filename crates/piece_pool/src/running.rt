//! Runs the pieces of a job in parallel, or on the caller's thread if there is nothing to share.
ghost use Rattle.std.specs.Prelude.{◌≡◌, ◌≤◌, All, IfErr, IfOk, vec_len};
ghost use Rattle.piece_pool.specs.Limits.{most_pieces, most_workers};
ghost use Rattle.piece_board.specs.Pass.{unused};
ghost use Rattle.piece_pool.specs.Outcome.{IsPoolOutcome};
ghost use Rattle.piece_pool.specs.Worked.{IsWorked};
ghost use Rattle.piece_pool.specs.declared.pool.PoolFault.TheVariants.{Memory};

use crate::collector::{Outcome, gather};
use crate::gate::Gate;
use crate::job::Job;
use crate::pool::{PoolFault, gathered, run_pieces, run_workers};
use crate::task::{Borrowed, take_back};
use crate::worker::{Worked, work};
use piece_board::{Board, Pass};
use std::alloc::{AllocError, Global};
use std::sync::Wait;
use std::thread::Threads;

/// Runs the pieces 0 to `n - 1` of a job, and returns their result, which is that of
/// [`run_pieces`]. With one worker, or if `n` is at most 1, the caller's thread runs the pieces and
/// no thread is started.
///
/// # Requires
/// `workers` is 1 to 64, and `n` is at most 2^62.
///
/// # Errors
/// - `WorkerRefused` if a worker thread could not be started. It takes precedence over `Memory`. It
///   cannot occur with one worker, or if `n` is at most 1.
/// - `Memory` if an allocation fails.
///
/// On error, all started threads have been joined, and all outputs are dropped.
pub fn run_all<R: Threads + Wait, J: Job + Sync, G: Gate + Sync>(
    rt: &R,
    alloc: Global,
    workers: usize,
    n: u64,
    job: &J,
    gate: &G,
) -> Result<Outcome<J::Out, J::Fault>, PoolFault>
where
    J::Out: Send + Drop,
    J::Fault: Send + Drop,
    requires workers { (1 ≤ workers) × (workers ≤ most_workers) }
    requires pieces { n ≤ most_pieces }
    ensures outcome { IfOk result (IsPoolOutcome (J.answers job.now) (J.faults job.now) n) }
    ensures alone { n ≤ 1 → IfErr result (λ fault. fault ≡ Memory) }
    ensures one_worker { workers ≡ 1 → IfErr result (λ fault. fault ≡ Memory) }
{
    if n <= 1 || workers == 1 {
        return run_alone(alloc, n, job, gate);
    }
    run_pieces(rt, alloc, workers, n, job, gate)
}

/// Runs the pieces 0 to `n - 1` of a job as [`run_all`] does, and a task on the caller's thread. Returns the
/// result of the job and that of the task.
///
/// The task runs exactly once, whatever the result of the job: after the workers are started and before
/// they are joined, or after the pieces if no thread is started.
///
/// # Requires
/// `workers` is 1 to 64, `n` is at most 2^62, and the task may be called.
///
/// # Errors
/// As `run_all`, of the job. They do not stop the task.
pub fn run_all_with<R: Threads + Wait, J: Job + Sync, G: Gate + Sync, F: FnMut() -> T, T>(
    rt: &R,
    alloc: Global,
    workers: usize,
    n: u64,
    job: &J,
    gate: &G,
    task: &mut F,
) -> (Result<Outcome<J::Out, J::Fault>, PoolFault>, T)
where
    J::Out: Send + Drop,
    J::Fault: Send + Drop,
    requires workers { (1 ≤ workers) × (workers ≤ most_workers) }
    requires pieces { n ≤ most_pieces }
    requires task { F.pre task.old }
    ensures outcome { IfOk result.0 (IsPoolOutcome (J.answers job.now) (J.faults job.now) n) }
    ensures alone { n ≤ 1 → IfErr result.0 (λ fault. fault ≡ Memory) }
    ensures one_worker { workers ≡ 1 → IfErr result.0 (λ fault. fault ≡ Memory) }
    ensures task { F.step task.old result.1 task.new }
{
    if workers == 1 || n <= 1 {
        return (run_alone(alloc, n, job, gate), task());
    }
    let seats = n.min(workers as u64) as usize;
    let Ok((board, passes)) = Board::open(alloc, n, seats) else {
        return (Err(PoolFault::Memory), task());
    };
    let borrowed = Borrowed { f: task };
    let (works, (task, given)) = run_workers(rt, alloc, &board, passes, job, gate, borrowed);
    take_back(task);
    (gathered(alloc, board, works, job), given)
}

/// Runs the pieces 0 to `n - 1` of a job on the caller's own thread. The result is that of
/// [`run_pieces`]. It starts no thread and never waits.
///
/// # Requires
/// `n` is at most 2^62.
///
/// # Errors
/// `Memory` if an allocation of the pool or of the job fails. All outputs are dropped.
pub(crate) fn run_alone<J: Job, G: Gate>(
    alloc: Global,
    n: u64,
    job: &J,
    gate: &G,
) -> Result<Outcome<J::Out, J::Fault>, PoolFault>
where
    J::Out: Drop,
    J::Fault: Drop,
    requires pieces { n ≤ most_pieces }
    ensures outcome { IfOk result (IsPoolOutcome (J.answers job.now) (J.faults job.now) n) }
    ensures memory { IfErr result (λ fault. fault ≡ Memory) }
{
    let (board, passes) = Board::open(alloc, n, 1)?;
    let works = work_alone(alloc, &board, passes, job, gate)?;
    Ok(gather(alloc, board, works, job)?)
}

/// Calls `work` with the only pass on the caller's own thread.
fn work_alone<J: Job, G: Gate>(
    alloc: Global,
    board: &Board,
    mut passes: Vec<Pass>,
    job: &J,
    gate: &G,
) -> Result<Vec<Worked<J::Out, J::Fault>>, AllocError>
where
    J::Out: Drop,
    J::Fault: Drop,
    requires one { vec_len passes ≡ 1 }
    requires unused { All (λ p. p ≡ unused board.now.id board.now.pieces) passes.items }
    ensures len { IfOk result (λ ws. vec_len ws ≡ 1) }
    ensures works { IfOk result (λ ws. All (IsWorked (J.answers job.now) (J.faults job.now)
        board.now) ws.items) }
{
    let mut works = Vec::with_capacity(alloc, 1)?;
    let Some(pass) = passes.pop() else {
        unreachable!()
    };
    works.push_reserved(work(alloc, board, pass, job, gate));
    Ok(works)
}
