//! Loads a document that is in memory.
ghost use Rattle.std.specs.Prelude.{◌≡◌, ◌≤◌, length, IfOk, IfErr};
ghost use Rattle.nquads_core.specs.Lines.{lines};
ghost use Rattle.nquads_core.specs.Pieces.{IsBadLine};
ghost use Rattle.piece_pool.specs.Limits.{most_workers};
ghost use Rattle.piece_cuts.specs.Cuts.{AreCuts};
ghost use Rattle.dataset_load.specs.Fault.{IfBadLine, IsOneWorkerLoadFault};
ghost use Rattle.dataset_load.specs.Lines.{all_lines, AreWholeLines, block_texts, joined, texts};
ghost use Rattle.dataset_load.specs.Loaded.{IsLoaded};

use crate::building::store_of;
use crate::fault::LoadFault;
use crate::rounds::number_pieces;
use crate::store::Store;
use piece_cuts::Cuts;
use piece_cuts::laws::pieces_are_the_document;
use piece_pool::Gate;
use quad_filter::QuadFilter;
use std::alloc::{AllocError, Global};
use std::hash::RandomState;
use std::random::RandomSource;
use std::sync::Wait;
use std::thread::Threads;

/// Loads a document that is cut into pieces (RDF 1.1 N-Quads; RDF 1.1 Concepts, section 4). The store has the
/// terms by first appearance, within a quad in the order subject, predicate, object, graph name. Its index is
/// the set of the quads.
///
/// Workers read the pieces in parallel. With one worker, the caller's thread reads them. Neither the cuts, nor
/// their number, nor the gate changes the result. The gate is called with the number of each piece in the
/// document. The sorting of the index does not call it.
///
/// # Requires
/// `cuts` are cuts of this document, and `workers` is 1 to 64.
///
/// # Errors
/// - `BadLine(n)` if line n of the document, counted from 1, is the first that is malformed.
/// - `WorkerRefused` if a worker thread could not be started. Those that were started have been joined.
///   With one worker no thread is started, so this cannot occur.
/// - `Memory` if an allocation fails, or if the runtime provides no random numbers.
pub fn load<R: Threads + Wait + RandomSource, G: Gate + Sync>(
    rt: &R,
    alloc: Global,
    doc: &[u8],
    cuts: &Cuts,
    workers: usize,
    gate: &G,
) -> Result<Store, LoadFault>
    requires fits { AreCuts doc.now cuts.now }
    requires workers { (1 ≤ workers) × (workers ≤ most_workers) }
    ensures loaded { IfOk result (IsLoaded (lines doc.now)) }
    ensures bad_line { IfErr result (IfBadLine (IsBadLine (lines doc.now))) }
    ensures one_worker { workers ≡ 1 → IfErr result IsOneWorkerLoadFault }
{
    let pieces = pieces_of(alloc, doc, cuts)?;
    load_pieces(rt, alloc, pieces.as_slice(), workers, gate)
}

/// Loads a document that is split into blocks of whole lines, as `load` does. Its bytes are not joined.
///
/// # Requires
/// Each block but the last is empty or ends with a line feed, and `workers` is 1 to 64.
///
/// # Errors
/// As `load`, for the joined blocks.
pub fn load_blocks<R: Threads + Wait + RandomSource, G: Gate + Sync>(
    rt: &R,
    alloc: Global,
    blocks: &[Vec<u8>],
    workers: usize,
    gate: &G,
) -> Result<Store, LoadFault>
    requires whole_lines { AreWholeLines (block_texts blocks.now) }
    requires workers { (1 ≤ workers) × (workers ≤ most_workers) }
    ensures loaded { IfOk result (IsLoaded (lines (joined (block_texts blocks.now)))) }
    ensures bad_line { IfErr result
        (IfBadLine (IsBadLine (lines (joined (block_texts blocks.now))))) }
    ensures one_worker { workers ≡ 1 → IfErr result IsOneWorkerLoadFault }
{
    let pieces = borrowed_blocks(alloc, blocks)?;
    load_pieces(rt, alloc, pieces.as_slice(), workers, gate)
}

/// Loads pieces of whole lines.
fn load_pieces<R: Threads + Wait + RandomSource, G: Gate + Sync>(
    rt: &R,
    alloc: Global,
    pieces: &[&[u8]],
    workers: usize,
    gate: &G,
) -> Result<Store, LoadFault>
    requires workers { (1 ≤ workers) × (workers ≤ most_workers) }
    ensures loaded { IfOk result (IsLoaded (all_lines (texts pieces.now))) }
    ensures bad_line { IfErr result (IfBadLine (IsBadLine (all_lines (texts pieces.now)))) }
    ensures one_worker { workers ≡ 1 → IfErr result IsOneWorkerLoadFault }
{
    let filter = QuadFilter::All;
    let state = hash_state(rt)?;
    let so_far = number_pieces(rt, alloc, state, pieces, &filter, workers, gate)?;
    store_of(rt, alloc, so_far, workers)
}

/// Creates a hash state with random keys of the runtime, because the terms are untrusted input.
pub(crate) fn hash_state<R: RandomSource>(rt: &R) -> Result<RandomState, AllocError> {
    match RandomState::new(rt) {
        Ok(state) => Ok(state),
        Err(_) => Err(AllocError),
    }
}

/// Returns the pieces of a document, in order.
fn pieces_of<'d>(alloc: Global, doc: &'d [u8], cuts: &Cuts) -> Result<Vec<&'d [u8]>, AllocError>
    requires fits { AreCuts doc.now cuts.now }
    ensures lines { IfOk result (λ v. all_lines (texts v.items) ≡ lines doc.now) }
{
    pieces_are_the_document();
    let mut pieces = Vec::new(alloc);
    for i in 0..cuts.pieces() {
        pieces.push(cuts.piece(doc, i))?;
    }
    Ok(pieces)
}

/// Returns the bytes of the blocks, in order.
pub(crate) fn borrowed_blocks(alloc: Global, blocks: &[Vec<u8>]) -> Result<Vec<&[u8]>, AllocError>
    ensures texts { IfOk result (λ v. texts v.items ≡ block_texts blocks.now) }
    ensures count { IfOk result (λ v. length v.items ≡ length blocks.now) }
{
    let mut pieces = Vec::new(alloc);
    for block in blocks {
        pieces.push(block.as_slice())?;
    }
    Ok(pieces)
}
