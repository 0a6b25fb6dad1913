//! Starting and joining the workers.
ghost use Rattle.std.specs.Prelude.{◌≡◌, ◌≤◌, [], IfOk, IfErr, IfSome, All, vec_capacity, vec_len};
ghost use Rattle.piece_pool.specs.Limits.{most_pieces, most_workers};
ghost use Rattle.piece_board.specs.Pass.{unused};
ghost use Rattle.piece_pool.specs.Worked.{IsWorked};
ghost use Rattle.piece_pool.specs.Outcome.{IsPoolOutcome};
ghost use Rattle.piece_pool.specs.declared.pool.PoolFault.TheVariants.{Memory};

use crate::collector::{Outcome, gather};
use crate::gate::Gate;
use crate::job::Job;
use crate::running::run_alone;
use crate::task::{NoTask, Task};
use crate::worker::{Worked, work};
use core::thread::Stack;
use piece_board::{Board, BoardFault, Pass};
use std::alloc::{AllocError, Global};
use std::snapshot::Snapshot;
use std::sync::Wait;
use std::thread;
use std::thread::{Promise, PromisedHandle, Scope, Threads};

/// The size of a worker's stack in bytes. It has room for a job that recurses over a long query.
/// Only the pages that are used take memory.
const WORKER_STACK: usize = 64 * 1024 * 1024;

/// Why a pool has no result.
#[derive(Clone, Copy, Debug)]
pub enum PoolFault {
    /// A worker thread could not be started. All started threads have been joined.
    WorkerRefused,
    /// Out of memory: an allocation of the pool, of a worker or of the job failed.
    Memory,
}

impl From<AllocError> for PoolFault {
    ghost use Rattle.std.specs.Prelude.{◌≡◌};
    ghost use Rattle.piece_pool.specs.declared.pool.PoolFault.TheVariants.{Memory};

    ghost from_gives = { λ _ fault. fault ≡ Memory };

    fn from(_failed: AllocError) -> PoolFault {
        PoolFault::Memory
    }
}

impl From<BoardFault> for PoolFault {
    ghost use Rattle.std.specs.Prelude.{◌≡◌};
    ghost use Rattle.piece_pool.specs.declared.pool.PoolFault.TheVariants.{Memory};

    ghost from_gives = { λ _ fault. fault ≡ Memory };

    fn from(failed: BoardFault) -> PoolFault {
        match failed {
            BoardFault::Memory => PoolFault::Memory,
        }
    }
}

/// What the workers of a job share: the board of the job's pieces, the job and its gate.
#[derive(Drop)]
struct Shared<'s, J, G> {
    board: &'s Board,
    job: &'s J,
    gate: &'s G,
}

/// The claim that a worker runs this job with a pass of this board.
#[derive(Drop)]
struct WorkOn<J> {
    job: Snapshot<J>,
    board: Snapshot<Board>,
}

impl<J: Job> Promise<Worked<J::Out, J::Fault>> for WorkOn<J> {
    ghost kept_by = { λ p w. IsWorked (J.answers p.job.value) (J.faults p.job.value)
        p.board.value w };
}

/// Runs the pieces 0 to `n - 1` of a job on threads, and returns their result. The number of
/// threads is the smaller of `workers` and `n`. Every number of workers and every gate gives the
/// same result.
///
/// If `n` is 0, no thread is started and no gate is called. The call waits for the threads that it
/// starts.
///
/// # Requires
/// `workers` is 1 to 64, and `n` is at most 2^62.
///
/// # Errors
/// - `WorkerRefused` if a worker thread could not be started. It takes precedence over `Memory`,
///   and cannot occur if `n` is 0.
/// - `Memory` if an allocation fails.
///
/// On error, all started threads have been joined, and all outputs are dropped.
pub fn run_pieces<R: Threads + Wait, J: Job + Sync, G: Gate + Sync>(
    rt: &R,
    alloc: Global,
    workers: usize,
    n: u64,
    job: &J,
    gate: &G,
) -> Result<Outcome<J::Out, J::Fault>, PoolFault>
where
    J::Out: Send + Drop,
    J::Fault: Send + Drop,
    requires workers { (1 ≤ workers) × (workers ≤ most_workers) }
    requires pieces { n ≤ most_pieces }
    ensures outcome { IfOk result (IsPoolOutcome (J.answers job.now) (J.faults job.now) n) }
    ensures idle { n ≡ 0 → IfErr result (λ fault. fault ≡ Memory) }
{
    if n == 0 {
        return run_alone(alloc, n, job, gate);
    }
    let seats = n.min(workers as u64) as usize;
    let (board, passes) = Board::open(alloc, n, seats)?;
    let (works, ()) = run_workers(rt, alloc, &board, passes, job, gate, NoTask);
    gathered(alloc, board, works, job)
}

/// Combines what the workers returned, if all of them were started.
pub(crate) fn gathered<J: Job>(
    alloc: Global,
    board: Board,
    works: Result<Vec<Worked<J::Out, J::Fault>>, PoolFault>,
    job: &J,
) -> Result<Outcome<J::Out, J::Fault>, PoolFault>
where
    J::Out: Drop,
    J::Fault: Drop,
    requires all { IfOk works (λ ws. vec_len ws ≡ board.seats) }
    requires works { IfOk works (λ ws. All (IsWorked (J.answers job.now) (J.faults job.now) board)
        ws.items) }
    ensures outcome { IfOk result (IsPoolOutcome (J.answers job.now) (J.faults job.now) board.pieces) }
{
    Ok(gather(alloc, board, works?, job)?)
}

/// Runs one thread for each pass, and the task on the caller's thread. Returns what the workers return, and what
/// the task returns.
pub(crate) fn run_workers<
    R: Threads + Wait,
    J: Job + Sync,
    G: Gate + Sync,
    T: Task<Output = A> + Drop,
    A,
>(
    rt: &R,
    alloc: Global,
    board: &Board,
    passes: Vec<Pass>,
    job: &J,
    gate: &G,
    task: T,
) -> (Result<Vec<Worked<J::Out, J::Fault>>, PoolFault>, A)
where
    J::Out: Send + Drop,
    J::Fault: Send + Drop,
    requires unused { All (λ p. p ≡ unused board.now.id board.now.pieces) passes.items }
    requires task { T.can_run task }
    ensures len { IfOk result.0 (λ ws. vec_len ws ≡ vec_len passes) }
    ensures works { IfOk result.0 (λ ws. All (IsWorked (J.answers job.now) (J.faults job.now)
        board.now) ws.items) }
    ensures task { T.run_gives task result.1 }
{
    thread::scope(
        thread::scope_env(),
        rt,
        |scope| -> (Result<Vec<Worked<J::Out, J::Fault>>, PoolFault>, A)
            requires unused { All (λ p. p ≡ unused board.now.id board.now.pieces) passes.items }
            requires task { T.can_run task }
            ensures len { IfOk result.0 (λ ws. vec_len ws ≡ vec_len passes) }
            ensures works { IfOk result.0 (λ ws. All (IsWorked (J.answers job.entry.now)
                (J.faults job.entry.now) board.entry.now) ws.items) }
            ensures task { T.run_gives task result.1 }
        { start_and_join(rt, scope, alloc, &Shared { board, job, gate }, passes, task) },
    )
}

/// Starts a worker for each pass, until one cannot be started. Runs the task, and then joins all that were
/// started.
fn start_and_join<'s, E, R: Threads, J: Job + Sync, G: Gate + Sync, T: Task<Output = A> + Drop, A>(
    rt: &R,
    scope: &Scope<'s, E>,
    alloc: Global,
    shared: &Shared<'s, J, G>,
    passes: Vec<Pass>,
    task: T,
) -> (Result<Vec<Worked<J::Out, J::Fault>>, PoolFault>, A)
where
    J::Out: Send + Drop,
    J::Fault: Send + Drop,
    requires unused { All (λ p. p ≡ unused shared.now.board.now.id shared.now.board.now.pieces) passes.items }
    requires task { T.can_run task }
    ensures len { IfOk result.0 (λ ws. vec_len ws ≡ vec_len passes) }
    ensures works { IfOk result.0 (λ ws. All (IsWorked (J.answers shared.now.job.now)
        (J.faults shared.now.job.now) shared.now.board.now) ws.items) }
    ensures task { T.run_gives task result.1 }
{
    let count = passes.len();
    let started = start_with_room(scope, alloc, shared, passes);
    let given = task.run();
    let Ok((handles, mut works)) = started else {
        return (Err(PoolFault::Memory), given);
    };
    for handle in handles {
        works.push_reserved(handle.join(rt));
    }
    if works.len() < count {
        return (Err(PoolFault::WorkerRefused), given);
    }
    (Ok(works), given)
}

/// Allocates room for what the workers return, and then starts them.
fn start_with_room<'s, E, J: Job + Sync, G: Gate + Sync>(
    scope: &Scope<'s, E>,
    alloc: Global,
    shared: &Shared<'s, J, G>,
    passes: Vec<Pass>,
) -> Result<
    (
        Vec<PromisedHandle<Worked<J::Out, J::Fault>, WorkOn<J>>>,
        Vec<Worked<J::Out, J::Fault>>,
    ),
    AllocError,
>
where
    J::Out: Send + Drop,
    J::Fault: Send + Drop,
    requires unused { All (λ p. p ≡ unused shared.now.board.now.id shared.now.board.now.pieces) passes.items }
    ensures most { IfOk result (λ started. vec_len started.0 ≤ vec_len passes) }
    ensures promised { IfOk result (λ started. All (λ h. (h.promise.job.value ≡ shared.now.job.now)
        × (h.promise.board.value ≡ shared.now.board.now)) started.0.items) }
    ensures none { IfOk result (λ started. started.1.items ≡ []) }
    ensures room { IfOk result (λ started. vec_len passes ≤ vec_capacity started.1) }
{
    let room = Vec::with_capacity(alloc, passes.len())?;
    let handles = start(scope, alloc, shared, passes)?;
    Ok((handles, room))
}

/// Starts a worker for each pass, until one cannot be started. Returns the handles of those that
/// were started.
fn start<'s, E, J: Job + Sync, G: Gate + Sync>(
    scope: &Scope<'s, E>,
    alloc: Global,
    shared: &Shared<'s, J, G>,
    passes: Vec<Pass>,
) -> Result<Vec<PromisedHandle<Worked<J::Out, J::Fault>, WorkOn<J>>>, AllocError>
where
    J::Out: Send + Drop,
    J::Fault: Send + Drop,
    requires unused { All (λ p. p ≡ unused shared.now.board.now.id shared.now.board.now.pieces) passes.items }
    ensures most { IfOk result (λ hs. vec_len hs ≤ vec_len passes) }
    ensures promised { IfOk result (λ hs. All (λ h. (h.promise.job.value ≡ shared.now.job.now)
        × (h.promise.board.value ≡ shared.now.board.now)) hs.items) }
{
    let mut handles = Vec::with_capacity(alloc, passes.len())?;
    for pass in passes {
        let Some(handle) = start_one(scope, alloc, shared, pass) else {
            break;
        };
        handles.push_reserved(handle);
    }
    Ok(handles)
}

/// Starts the worker of one pass. Returns None if it cannot be started.
fn start_one<'s, E, J: Job + Sync, G: Gate + Sync>(
    scope: &Scope<'s, E>,
    alloc: Global,
    shared: &Shared<'s, J, G>,
    pass: Pass,
) -> Option<PromisedHandle<Worked<J::Out, J::Fault>, WorkOn<J>>>
where
    J::Out: Send + Drop,
    J::Fault: Send + Drop,
    requires unused { pass ≡ unused shared.now.board.now.id shared.now.board.now.pieces }
    ensures promised { IfSome result (λ h. (h.promise.job.value ≡ shared.now.job.now)
        × (h.promise.board.value ≡ shared.now.board.now)) }
{
    let (board, job, gate) = (shared.board, shared.job, shared.gate);
    let promise = WorkOn {
        job: Snapshot::of(job),
        board: Snapshot::of(board),
    };
    let stack = Stack::new().stack_size(WORKER_STACK);
    let worker = move || work(alloc, board, pass, job, gate);
    stack.spawn_scoped_with(scope, promise, worker).ok()
}
