//! Combines what the workers return.
ghost use Rattle.std.specs.Prelude.{◌≡◌, ℕ, ◌+◌, ◌<◌, ◌≤◌, IfOk, OnOk, map, IsSome, IsSomeAnd, Some, None, All, Contains, false, vec_len, slice_index_or};
ghost use Rattle.piece_pool.specs.Worked.{IsWorked, numbers_of};
ghost use Rattle.piece_pool.specs.Outcome.{IsPoolOutcome};
ghost use Rattle.piece_pool.specs.Collected.{IsCollected};

use crate::job::Job;
use crate::worker::Worked;
use piece_board::{Board, Pass};
use std::alloc::{AllocError, Global};

/// The result of a job over all its pieces.
#[derive(Drop)]
pub enum Outcome<Out, Fault> {
    /// No piece is faulty. The output of piece `i` is at index `i`.
    All(Vec<Out>),
    /// The faulty piece with the least number, and its fault.
    First { piece: u64, fault: Fault },
}

/// What all workers return, by kind.
#[derive(Drop)]
struct Collected<Out, Fault> {
    passes: Vec<Pass>,
    outs: Vec<(u64, Out)>,
    faults: Vec<(u64, Fault)>,
}

/// Closes the board. Orders the outputs of its pieces by their numbers, or finds the faulty piece
/// with the least number. It does not matter which threads did the work.
///
/// # Requires
/// `works` has what `work` returned for this job, once for each pass of this board.
///
/// # Errors
/// `AllocError` if an allocation fails, or if a worker stopped, which happens only if an allocation
/// failed. Everything is dropped.
pub fn gather<J: Job>(
    alloc: Global,
    board: Board,
    works: Vec<Worked<J::Out, J::Fault>>,
    job: &J,
) -> Result<Outcome<J::Out, J::Fault>, AllocError>
where
    J::Out: Drop,
    J::Fault: Drop,
    requires all { vec_len works ≡ board.seats }
    requires works { All (IsWorked (J.answers job.now) (J.faults job.now) board) works.items }
    ensures stopped { OnOk result (All (λ w. w.stopped ≡ false) works.items) }
    ensures outcome { IfOk result (IsPoolOutcome (J.answers job.now) (J.faults job.now) board.pieces) }
{
    let Collected {
        passes,
        outs,
        faults,
    } = collect(alloc, &board, works, job)?;
    let closed = board.close(passes);
    let n = closed.drawn;
    if closed.least < n {
        let piece = closed.least;
        let fault = fault_of(faults, piece);
        return Ok(Outcome::First { piece, fault });
    }
    Ok(Outcome::All(in_order(alloc, n, outs)?))
}

/// Concatenates the passes, the outputs and the faults of the workers.
fn collect<J: Job>(
    alloc: Global,
    board: &Board,
    works: Vec<Worked<J::Out, J::Fault>>,
    job: &J,
) -> Result<Collected<J::Out, J::Fault>, AllocError>
where
    J::Out: Drop,
    J::Fault: Drop,
    requires works { All (IsWorked (J.answers job.now) (J.faults job.now) board.now) works.items }
    ensures some { OnOk result (0 < board.now.seats) }
    ensures stopped { OnOk result (All (λ w. w.stopped ≡ false) works.items) }
    ensures count { IfOk result (λ c. vec_len c.passes ≡ vec_len works) }
    ensures collected { IfOk result (λ c. IsCollected (J.answers job.now) (J.faults job.now)
        board.now c.passes.items c.outs.items c.faults.items) }
{
    let mut all = Collected {
        passes: Vec::with_capacity(alloc, board.seats())?,
        outs: Vec::new(alloc),
        faults: Vec::new(alloc),
    };
    for worked in works {
        add_work(board, worked, job, &mut all)?;
    }
    Ok(all)
}

/// Adds the pass, the outputs and the faults of a worker.
fn add_work<J: Job>(
    board: &Board,
    worked: Worked<J::Out, J::Fault>,
    job: &J,
    all: &mut Collected<J::Out, J::Fault>,
) -> Result<(), AllocError>
where
    J::Out: Drop,
    J::Fault: Drop,
    requires work { IsWorked (J.answers job.now) (J.faults job.now) board.now worked }
    requires collected { IsCollected (J.answers job.now) (J.faults job.now)
        board.now all.old.passes.items all.old.outs.items all.old.faults.items }
    ensures stopped { OnOk result (worked.stopped ≡ false) }
    ensures count { OnOk result (vec_len all.new.passes ≡ vec_len all.old.passes + 1) }
    ensures collected { OnOk result (IsCollected (J.answers job.now) (J.faults job.now)
        board.now all.new.passes.items all.new.outs.items all.new.faults.items) }
{
    let Worked {
        pass,
        mut outs,
        mut faults,
        stopped,
    } = worked;
    if stopped {
        return Err(AllocError);
    }
    all.passes.push(pass)?;
    all.outs.append(&mut outs)?;
    all.faults.append(&mut faults)?;
    Ok(())
}

/// Returns the outputs in the order of their numbers.
fn in_order<Out: Drop>(alloc: Global, n: u64, outs: Vec<(u64, Out)>) -> Result<Vec<Out>, AllocError>
    requires all { (i : ℕ) → i < n → Contains (numbers_of outs.items) i }
    ensures count { IfOk result (λ v. vec_len v ≡ n) }
    ensures each { IfOk result (λ v. (i : ℕ) (d : Out) → i < n
        → Contains outs.items (i, slice_index_or v.items i d)) }
{
    let slots = by_number(alloc, n, outs)?;
    let ordered = unwrapped(alloc, slots)?;
    Ok(ordered)
}

/// Puts each output at the index of its number.
fn by_number<Out: Drop>(
    alloc: Global,
    n: u64,
    outs: Vec<(u64, Out)>,
) -> Result<Vec<Option<Out>>, AllocError>
    requires all { (i : ℕ) → i < n → Contains (numbers_of outs.items) i }
    ensures count { IfOk result (λ v. vec_len v ≡ n) }
    ensures each { IfOk result (λ v. (i : ℕ) → i < n
        → IsSomeAnd (slice_index_or v.items i None) (λ out. Contains outs.items (i, out))) }
{
    let count = n as usize;
    let mut slots = Vec::with_capacity(alloc, count)?;
    for _ in 0..count {
        slots.push_reserved(None);
    }
    for (i, out) in outs {
        if i < n {
            slots[i as usize] = Some(out);
        }
    }
    Ok(slots)
}

/// Returns the values of slots that are all filled.
fn unwrapped<Out: Drop>(alloc: Global, slots: Vec<Option<Out>>) -> Result<Vec<Out>, AllocError>
    requires full { (i : ℕ) → i < vec_len slots → IsSome (slice_index_or slots.items i None) }
    ensures values { IfOk result (λ v. map Some v.items ≡ slots.items) }
{
    let mut outs = Vec::with_capacity(alloc, slots.len())?;
    for slot in slots {
        let Some(out) = slot else { unreachable!() };
        outs.push_reserved(out);
    }
    Ok(outs)
}

/// Returns the fault of a piece that has one.
fn fault_of<Fault: Drop>(faults: Vec<(u64, Fault)>, piece: u64) -> Fault
    requires there { Contains (numbers_of faults.items) piece }
    ensures fault { Contains faults.items (piece, result) }
{
    for (i, fault) in faults {
        if i == piece {
            return fault;
        }
    }
    unreachable!()
}
