//! Runs of the pool that show what no clause says about threads and gates.
ghost use Rattle.std.specs.Prelude.{◌≡◌};
ghost use Rattle.piece_board.specs.Pass.{unused};
ghost use Rattle.piece_pool.specs.Worked.{IsWorked};

use crate::fixtures::{Numbers, Recorder};
use crate::loading::boards::{open_two, pair};
use piece_board::{Board, Pass};
use piece_pool::{Gate, Job, OffsetGate, Outcome, Worked, gather, run_all_with, run_pieces, work};
use std::alloc::Global;
use std::thread;
use std::thread::Threads;

/// Each piece that is run passes the gate once. A single worker skips the pieces above the first faulty one.
#[test]
fn each_piece_passes_the_gate_once(rt: HostRuntime) {
    for workers in 1..5 {
        let gate = Recorder::counting();
        let job = Numbers::sound_below(4);
        let outcome = run_pieces(&rt, rt.alloc(), workers, 16, &job, &gate).expect(&rt, "a run");
        let is_first = match outcome {
            Outcome::First { piece, fault } => piece == 4 && fault == 4,
            Outcome::All(_) => false,
        };
        let (entered, left, sum) = gate.counts();
        assert!(rt;
            is_first && entered == job.runs() && entered == left,
            "runs and the gate"
        );
        assert!(rt; workers > 1 || sum == 10, "skipped pieces were run");
    }
}

/// Returns whether the outputs of two pieces are in their order.
fn are_in_order(outcome: &Outcome<u64, u64>) -> bool {
    match outcome {
        Outcome::All(outs) => outs.as_slice() == [0, 1].as_slice(),
        _ => false,
    }
}

/// The task and a piece that wait for each other meet, so the task runs while a worker does. After the workers are
/// joined, the wait would have reached its limit. (Piece 0 is number 1 of the meeting, and piece 1 does not wait.)
#[test]
fn a_task_meets_a_worker(rt: HostRuntime) {
    let meeting = Recorder::meeting();
    let gate = OffsetGate {
        gate: &meeting,
        first: 1,
    };
    let job = Numbers::sound_below(2);
    let (outcome, ()) = run_all_with(
        &rt,
        rt.alloc(),
        2,
        2,
        &job,
        &gate,
        &mut || { meeting.enter(0) },
    );
    let outcome = outcome.expect(&rt, "a run");
    assert!(rt;
        are_in_order(&outcome) && meeting.is_met(),
        "the task did not meet a worker"
    );
}

/// Calls `work` on two threads, with one pass each.
fn work_twice<R: Threads, J: Job + Sync, G: Gate + Sync>(
    rt: &R,
    alloc: Global,
    board: &Board,
    a: Pass,
    b: Pass,
    job: &J,
    gate: &G,
) -> (Worked<J::Out, J::Fault>, Worked<J::Out, J::Fault>)
where
    J::Out: Send + Drop,
    J::Fault: Send + Drop,
    requires first { a ≡ unused board.now.id board.now.pieces }
    requires second { b ≡ unused board.now.id board.now.pieces }
    ensures first { IsWorked (J.answers job.now) (J.faults job.now) board.now result.0 }
    ensures second { IsWorked (J.answers job.now) (J.faults job.now) board.now result.1 }
{
    thread::join(
        rt,
        move || -> Worked<J::Out, J::Fault>
            requires { a ≡ unused board.now.id board.now.pieces }
            ensures { IsWorked (J.answers job.entry.now) (J.faults job.entry.now)
                board.entry.now result }
        { work(alloc, board, a, job, gate) },
        move || -> Worked<J::Out, J::Fault>
            requires { b ≡ unused board.now.id board.now.pieces }
            ensures { IsWorked (J.answers job.entry.now) (J.faults job.entry.now)
                board.entry.now result }
        { work(alloc, board, b, job, gate) },
    )
}

/// The two functions of the pool on threads of the test: the two workers meet, and `gather` runs no
/// piece again.
#[test]
fn two_threads_work_on_one_board(rt: HostRuntime) {
    let gate = Recorder::meeting();
    let job = Numbers::sound_below(2);
    let (board, a, b) = open_two(rt.alloc()).expect(&rt, "a board");
    let (one, other) = work_twice(&rt, rt.alloc(), &board, a, b, &job, &gate);
    let works = pair(rt.alloc(), one, other).expect(&rt, "two results");
    let outcome = gather(rt.alloc(), board, works, &job).expect(&rt, "a result");
    assert!(rt;
        are_in_order(&outcome) && gate.is_met(),
        "the workers did not meet"
    );
    assert!(rt; job.runs() == 2, "a piece is run again");
}
