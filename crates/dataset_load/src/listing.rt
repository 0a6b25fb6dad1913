//! The malformed lines of blocks, listed in parallel.
ghost use Rattle.std.specs.Prelude.{◌≡◌, ◌+◌, ◌<◌, ◌≤◌, ◌^◌, ◌++◌, List, ℕ, length, slice_index_or, IfOk, OnOk};
ghost use Rattle.nquads_core.specs.Lines.{lines};
ghost use Rattle.piece_pool.specs.Limits.{most_workers};
ghost use Rattle.piece_pool.specs.Outcome.{IsPoolOutcome};
ghost use Rattle.malformed_lines.specs.Malformed.{IsListOf, IsListed};
ghost use Rattle.malformed_lines.specs.declared.piece_list.PieceList.{PieceList};
ghost use Rattle.dataset_load.specs.Limits.{most_pieces_of_a_round};
ghost use Rattle.dataset_load.specs.Lines.{all_lines, block_texts, text_at, texts};

use crate::loading::borrowed_blocks;
use crate::round_job::piece_at;
use malformed_lines::{MalformedLines, PieceList, list_piece};
use piece_pool::{Gate, Job, JobFault, Outcome, PoolFault, run_all_with};
use std::alloc::{AllocError, Global};
use std::sync::Wait;
use std::thread::Threads;

/// The pieces whose malformed lines are listed.
#[derive(Drop)]
struct Listed<'d> {
    pieces: &'d [&'d [u8]],
}

impl<'d> Job for Listed<'d> {
    ghost use Rattle.nquads_core.specs.Lines.{lines};
    ghost use Rattle.malformed_lines.specs.Malformed.{IsListOf};
    ghost use Rattle.dataset_load.specs.Lines.{text_at};

    type Out = PieceList<'d>;

    type Fault = ();

    ghost answers = { λ job i out. IsListOf (lines (text_at job.pieces.now i)) out };

    ghost faults = { λ _ _ _. ⊥ };

    fn run(&self, alloc: Global, i: u64) -> Result<PieceList<'d>, JobFault<()>> {
        Ok(list_piece(alloc, piece_at(self.pieces, i))?)
    }

    ghost exclusive = { λ job i out fault _ absurd. absurd };
}

/// Adds the malformed lines of blocks to a list (RDF 1.1 N-Quads, grammar). Workers list the lines of the blocks, each
/// block by itself. The caller's thread runs the task, as in [`run_all_with`].
///
/// Each block but the last of a document has to be empty or to end with LF. The list is then that of all its lines so far.
///
/// # Requires
/// - `workers` is 1 to 64, and there are at most 2^20 blocks.
/// - At most 2^126 lines were added.
///
/// # Errors
/// - `WorkerRefused` if a worker thread could not be started. Those that were started have been joined.
/// - `Memory` if an allocation fails.
///
/// On both, the list may lack lines of the blocks.
pub fn list_blocks<R: Threads + Wait, G: Gate + Sync, F: FnMut() -> T, T>(
    rt: &R,
    alloc: Global,
    list: &mut MalformedLines,
    blocks: &[Vec<u8>],
    workers: usize,
    gate: &G,
    task: &mut F,
) -> (Result<(), PoolFault>, T)
    requires workers { (1 ≤ workers) × (workers ≤ most_workers) }
    requires blocks { length blocks.now ≤ most_pieces_of_a_round }
    requires countable { list.old.lines ≤ 2 ^ 126 }
    requires task { F.pre task.old }
    ensures listed { OnOk result.0 ((before : List (List ℕ)) → IsListed before list.old
        → IsListed (before ++ all_lines (block_texts blocks.now)) list.new) }
    ensures counted { OnOk result.0 (list.new.lines ≤ list.old.lines + 2 ^ 84) }
    ensures task { F.step task.old result.1 task.new }
{
    let Ok(pieces) = borrowed_blocks(alloc, blocks) else {
        return (Err(PoolFault::Memory), task());
    };
    let pieces = pieces.as_slice();
    let job = Listed { pieces };
    let (outcome, given) = run_all_with(rt, alloc, workers, pieces.len() as u64, &job, gate, task);
    (add_outcome(alloc, list, pieces, outcome), given)
}

/// Adds the lists of pieces, if all were made.
fn add_outcome(
    alloc: Global,
    list: &mut MalformedLines,
    pieces: &[&[u8]],
    outcome: Result<Outcome<PieceList<'_>, ()>, PoolFault>,
) -> Result<(), PoolFault>
    requires pieces { length pieces.now ≤ most_pieces_of_a_round }
    requires countable { list.old.lines ≤ 2 ^ 126 }
    requires outcome { IfOk outcome
        (IsPoolOutcome (λ i out. IsListOf (lines (text_at pieces.now i)) out) (λ _ _. ⊥) (length pieces.now)) }
    ensures listed { OnOk result ((before : List (List ℕ)) → IsListed before list.old
        → IsListed (before ++ all_lines (texts pieces.now)) list.new) }
    ensures counted { OnOk result (list.new.lines ≤ list.old.lines + 2 ^ 84) }
{
    match outcome? {
        Outcome::All(lists) => Ok(add_lists(alloc, list, pieces, lists.as_slice())?),
        Outcome::First { .. } => unreachable!(),
    }
}

/// Adds the lists of pieces, one after the other.
fn add_lists(
    alloc: Global,
    list: &mut MalformedLines,
    pieces: &[&[u8]],
    lists: &[PieceList<'_>],
) -> Result<(), AllocError>
    requires count { length lists.now ≡ length pieces.now }
    requires each { (i : ℕ) (d : PieceList) → i < length pieces.now
        → IsListOf (lines (text_at pieces.now i)) (slice_index_or lists.now i d) }
    requires pieces { length pieces.now ≤ most_pieces_of_a_round }
    requires countable { list.old.lines ≤ 2 ^ 126 }
    ensures listed { OnOk result ((before : List (List ℕ)) → IsListed before list.old
        → IsListed (before ++ all_lines (texts pieces.now)) list.new) }
    ensures counted { OnOk result (list.new.lines ≤ list.old.lines + 2 ^ 84) }
{
    for piece in lists {
        list.add(alloc, piece)?;
    }
    Ok(())
}
