//! One worker: it draws pieces of a board and runs them.
ghost use Rattle.std.specs.Prelude.{◌≡◌, ◌+◌, ◌≤◌, IsTrue, IsFalse, OnOk, OnErr, length};
ghost use Rattle.piece_board.specs.Pass.{unused};
ghost use Rattle.piece_pool.specs.Worked.{IsWorked, IsUnderway, IsDrawn};

use crate::gate::Gate;
use crate::job::{Job, JobFault};
use piece_board::{Board, Pass};
use std::alloc::{AllocError, Global};

/// What one worker returns.
#[derive(Drop)]
pub struct Worked<Out, Fault> {
    /// The pass that it used.
    pub pass: Pass,
    /// The outputs, each with the number of its piece.
    pub outs: Vec<(u64, Out)>,
    /// The faults, each with the number of its piece.
    pub faults: Vec<(u64, Fault)>,
    /// Whether it stopped because an allocation of the worker or of the job failed.
    pub stopped: bool,
}

/// Draws pieces of the board with this pass and runs them, until no piece is left.
///
/// After each draw it reads the least reported number of the board once. A piece above that number
/// is skipped. Any other piece is run, between `enter` and `leave` of the gate, and reported if it
/// is faulty. The worker stops if an allocation fails, its own or the job's. It never waits, and it
/// returns, since no pass draws a number twice.
///
/// # Requires
/// The pass is of this board, and unused.
pub fn work<J: Job, G: Gate>(
    alloc: Global,
    board: &Board,
    pass: Pass,
    job: &J,
    gate: &G,
) -> Worked<J::Out, J::Fault>
where
    J::Out: Drop,
    J::Fault: Drop,
    requires unused { pass ≡ unused board.now.id board.now.pieces }
    ensures worked { IsWorked (J.answers job.now) (J.faults job.now) board.now result }
{
    let mut worked = Worked {
        pass,
        outs: Vec::new(alloc),
        faults: Vec::new(alloc),
        stopped: false,
    };
    while next_piece(alloc, board, job, gate, &mut worked) {}
    worked
}

/// Draws one piece, and skips it or runs it. Returns whether the worker continues.
fn next_piece<J: Job, G: Gate>(
    alloc: Global,
    board: &Board,
    job: &J,
    gate: &G,
    worked: &mut Worked<J::Out, J::Fault>,
) -> bool
where
    J::Out: Drop,
    J::Fault: Drop,
    requires underway { IsUnderway (J.answers job.now) (J.faults job.now) board.now worked.old.pass
        worked.old.outs.items worked.old.faults.items }
    ensures underway { IsTrue result → IsUnderway (J.answers job.now) (J.faults job.now) board.now
        worked.new.pass worked.new.outs.items worked.new.faults.items }
    ensures drew { IsTrue result
        → (length worked.new.pass.history.draws ≡ length worked.old.pass.history.draws + 1)
        × (length worked.new.pass.history.draws ≤ board.now.pieces) }
    ensures worked { IsFalse result → IsWorked (J.answers job.now) (J.faults job.now) board.now
        worked.new }
{
    let Some(i) = board.draw(&mut worked.pass) else {
        return false;
    };
    if board.least(&mut worked.pass) < i {
        worked.pass.skip(i);
        return true;
    }
    let Ok(()) = run_piece(alloc, board, job, gate, i, worked) else {
        worked.stopped = true;
        return false;
    };
    true
}

/// Runs the piece that was drawn last. Adds its output, or adds its fault and reports it.
///
/// # Errors
/// `AllocError` if an allocation fails, of the worker or of the job.
fn run_piece<J: Job, G: Gate>(
    alloc: Global,
    board: &Board,
    job: &J,
    gate: &G,
    i: u64,
    worked: &mut Worked<J::Out, J::Fault>,
) -> Result<(), AllocError>
where
    J::Out: Drop,
    J::Fault: Drop,
    requires drawn { IsDrawn (J.answers job.now) (J.faults job.now) board.now i worked.old.pass
        worked.old.outs.items worked.old.faults.items }
    ensures underway { OnOk result (IsUnderway (J.answers job.now) (J.faults job.now) board.now
        worked.new.pass worked.new.outs.items worked.new.faults.items) }
    ensures draws { worked.new.pass.history.draws ≡ worked.old.pass.history.draws }
    ensures unchanged { OnErr result ((worked.new.pass ≡ worked.old.pass)
        × (worked.new.outs.items ≡ worked.old.outs.items)
        × (worked.new.faults.items ≡ worked.old.faults.items)) }
{
    gate.enter(i);
    let outcome = job.run(alloc, i);
    gate.leave(i);
    match outcome {
        Ok(out) => Ok(worked.outs.push((i, out))?),
        Err(JobFault::Own(fault)) => {
            worked.faults.push((i, fault))?;
            board.report(&mut worked.pass, i);
            Ok(())
        }
        Err(JobFault::Memory) => Err(AllocError),
    }
}
