//! All pieces of a document, read in rounds.
//!
//! In a round each piece is read by itself and looked up in the dictionary of the rounds before,
//! which all workers borrow. Then one thread adds, in order, only what is new.
ghost use Rattle.std.specs.Prelude.{◌≡◌, ◌+◌, ◌-◌, ◌*◌, ◌<◌, ◌≤◌, ◌^◌, ◌++◌, List, length, true, slice_range, take, Err, IfOk, IfErr, OnOk};
ghost use Rattle.rdf_core.specs.QuadParts.{QuadParts};
ghost use Rattle.nquads_core.specs.Lines.{lines};
ghost use Rattle.nquads_core.specs.Pieces.{IsFirstMalformed, IsBadLine};
ghost use Rattle.piece_pool.specs.Limits.{most_pieces, most_workers};
ghost use Rattle.piece_pool.specs.Outcome.{IsPoolOutcome};
ghost use Rattle.piece_pool.specs.declared.pool.PoolFault.TheVariants.{Memory};
ghost use Rattle.dict_core.specs.Numbered.{joined};
ghost use Rattle.text_pieces.specs.Forms.{AreNumberedBy};
ghost use Rattle.text_pieces.specs.Pieces.{IsRead};
ghost use Rattle.dataset_load.specs.Fault.{IfBadLine, IsOneWorkerLoadFault, load_fault_of};
ghost use Rattle.dataset_load.specs.FaultNames.{IsLoadFailed};
ghost use Rattle.dataset_load.specs.Limits.{least_bytes_of_a_round, most_pieces_of_a_round};
ghost use Rattle.dataset_load.specs.Lines.{all_lines, text_at, texts};
ghost use Rattle.dataset_load.specs.Rounds.{ArePiecesOf, HasRead, line_total};

use crate::causes::pool_failed;
use crate::fault::LoadFault;
use crate::load_context::LoadContext;
use crate::load_notes::{LoadListener, NoListener};
use crate::numbered::Numbered;
use crate::round_job::RoundJob;
use nquads_core::count_lines;
use piece_pool::{Gate, OffsetGate, Outcome, PoolFault, run_all_with};
use quad_filter::QuadFilter;
use quad_index::QuadList;
use std::alloc::{AllocError, Global};
use std::hash::RandomState;
use std::sync::Wait;
use std::thread::Threads;
use text_dict::TextDict;
use text_pieces::{Seen, TextPiece, add_piece};

/// The least number of pieces of a round for each of several workers, except in the last round.
const PIECES_A_WORKER: usize = 16;

/// The least number of bytes of a round, except in the last round.
const BYTES_A_ROUND: usize = 4 << 20;

/// The same for one worker. No thread is started, so a round costs little, and its bytes stay in the cache.
const BYTES_OF_ONE_WORKER: usize = 1 << 16;

/// The largest number of pieces of a round.
pub(crate) const PIECES_A_ROUND: usize = 1 << 20;

/// Reads all pieces, round by round. Returns the quads that the filter keeps by number, in order, their terms by first
/// appearance, and the number of the lines of the pieces. Other quads of the pieces may be among these.
///
/// # Errors
/// - `BadLine(n)` if the line, counted from 1 over all pieces, is the first that is malformed.
/// - `WorkerRefused` and `Memory` as in a pool. With one worker the first cannot occur.
pub(crate) fn number_pieces<'f, R: Threads + Wait, G: Gate + Sync>(
    rt: &R,
    alloc: Global,
    state: RandomState,
    pieces: &[&[u8]],
    filter: &'f QuadFilter,
    workers: usize,
    gate: &G,
) -> Result<Numbered<'f>, LoadFault>
    requires workers { (1 ≤ workers) × (workers ≤ most_workers) }
    ensures numbered { IfOk result (λ so_far. HasRead so_far (all_lines (texts pieces.now))) }
    ensures filter { IfOk result (λ so_far. so_far.filter.now ≡ filter.now) }
    ensures bad_line { IfErr result (IfBadLine (IsBadLine (all_lines (texts pieces.now)))) }
    ensures one_worker { workers ≡ 1 → IfErr result IsOneWorkerLoadFault }
{
    let context = LoadContext { rt, alloc, workers };
    let mut so_far = Numbered::new(alloc, state, filter);
    let mut from = 0;
    while from < pieces.len() {
        let to = round_end(pieces, from, workers);
        let round = part(pieces, from, to);
        let gate = OffsetGate {
            gate,
            first: from as u64,
        };
        let (added, ()) = add_round(
            &context,
            state,
            &mut so_far,
            round,
            &gate,
            &NoListener,
            &mut || (),
        );
        added?;
        from = to;
    }
    Ok(so_far)
}

/// Reads the pieces of a round in parallel, and adds their quads to those of the rounds before. The caller's
/// thread runs the task, as in [`run_all_with`].
///
/// # Errors
/// As `number_pieces`, of the lines before and these. They do not stop the task.
pub(crate) fn add_round<R: Threads + Wait, G: Gate + Sync, L: LoadListener, F: FnMut() -> T, T>(
    context: &LoadContext<'_, R>,
    state: RandomState,
    so_far: &mut Numbered<'_>,
    pieces: &[&[u8]],
    gate: &G,
    listener: &L,
    task: &mut F,
) -> (Result<(), LoadFault>, T)
    requires pieces { length pieces.now ≤ most_pieces_of_a_round }
    requires countable { so_far.old.lines ≤ 2 ^ 127 }
    requires task { F.pre task.old }
    ensures numbered { OnOk result.0 ((before : _) → HasRead so_far.old before
        → HasRead so_far.new (before ++ all_lines (texts pieces.now))) }
    ensures counted { OnOk result.0
        (so_far.new.lines ≤ so_far.old.lines + length pieces.now * (2 ^ 64 - 1)) }
    ensures filter { so_far.new.filter.now ≡ so_far.old.filter.now }
    ensures bad_line { IfErr result.0 (IfBadLine (λ n. (before : _) → HasRead so_far.old before
        → IsBadLine (before ++ all_lines (texts pieces.now)) n)) }
    ensures one_worker { context.now.workers ≡ 1 → IfErr result.0 IsOneWorkerLoadFault }
    ensures cause { IfErr result.0 (IsLoadFailed L.fails) }
    ensures task { F.step task.old result.1 task.new }
{
    let filter = so_far.filter;
    let (outcome, given) = read_round(context, state, pieces, &so_far.dict, filter, gate, task);
    let alloc = context.alloc;
    (add_outcome(alloc, listener, so_far, pieces, outcome), given)
}

/// Reads the pieces of a round against the dictionary of the rounds before. The caller's thread runs the task,
/// as in [`run_all_with`].
fn read_round<R: Threads + Wait, G: Gate + Sync, F: FnMut() -> T, T>(
    context: &LoadContext<'_, R>,
    state: RandomState,
    pieces: &[&[u8]],
    dict: &TextDict,
    filter: &QuadFilter,
    gate: &G,
    task: &mut F,
) -> (Result<Outcome<TextPiece, u64>, PoolFault>, T)
    requires pieces { length pieces.now ≤ most_pieces }
    requires task { F.pre task.old }
    ensures outcome { IfOk result.0
        (IsPoolOutcome (λ i out. IsRead filter.now dict.now.texts (text_at pieces.now i) out)
        (λ i line. IsFirstMalformed (lines (text_at pieces.now i)) line) (length pieces.now)) }
    ensures one_worker { context.now.workers ≡ 1 → IfErr result.0 (λ fault. fault ≡ Memory) }
    ensures task { F.step task.old result.1 task.new }
{
    let job = RoundJob {
        pieces,
        dict,
        filter,
        state,
    };
    let (rt, alloc, workers) = (context.rt, context.alloc, context.workers);
    run_all_with(rt, alloc, workers, pieces.len() as u64, &job, gate, task)
}

/// Adds the pieces of a round that were read, or finds the number of the first malformed line.
fn add_outcome<L: LoadListener>(
    alloc: Global,
    listener: &L,
    so_far: &mut Numbered<'_>,
    pieces: &[&[u8]],
    outcome: Result<Outcome<TextPiece, u64>, PoolFault>,
) -> Result<(), LoadFault>
    requires pieces { length pieces.now ≤ most_pieces_of_a_round }
    requires countable { so_far.old.lines ≤ 2 ^ 127 }
    requires outcome { IfOk outcome
        (IsPoolOutcome
        (λ i out. IsRead so_far.old.filter.now so_far.old.dict.texts (text_at pieces.now i) out)
        (λ i line. IsFirstMalformed (lines (text_at pieces.now i)) line) (length pieces.now)) }
    ensures numbered { OnOk result ((before : _) → HasRead so_far.old before
        → HasRead so_far.new (before ++ all_lines (texts pieces.now))) }
    ensures counted { OnOk result
        (so_far.new.lines ≤ so_far.old.lines + length pieces.now * (2 ^ 64 - 1)) }
    ensures filter { so_far.new.filter.now ≡ so_far.old.filter.now }
    ensures bad_line { IfErr result (IfBadLine (λ n. (before : _) → HasRead so_far.old before
        → IsBadLine (before ++ all_lines (texts pieces.now)) n)) }
    ensures one_worker { IfErr outcome (λ fault. fault ≡ Memory)
        → IfErr result IsOneWorkerLoadFault }
    ensures same { IfErr outcome (λ fault. result ≡ Err (load_fault_of fault)) }
    ensures cause { IfErr result (IsLoadFailed L.fails) }
{
    match outcome {
        Ok(Outcome::All(read)) => match add_read_pieces(alloc, so_far, read) {
            Ok(()) => Ok(()),
            Err(_) => {
                listener.failed(PoolFault::Memory);
                Err(LoadFault::Memory)
            }
        },
        Ok(Outcome::First { piece, fault }) => {
            let line = so_far.lines + line_number(pieces, piece as usize, fault);
            Err(LoadFault::BadLine(line))
        }
        Err(fault) => Err(pool_failed(listener, fault)),
    }
}

/// Returns where the round that begins at `from` ends.
fn round_end(pieces: &[&[u8]], from: usize, workers: usize) -> usize
    requires from { from < length pieces.now }
    requires workers { (1 ≤ workers) × (workers ≤ most_workers) }
    ensures some { from < result }
    ensures within { result ≤ length pieces.now }
    ensures small { result ≤ from + most_pieces_of_a_round }
{
    let most = (pieces.len() - from).min(PIECES_A_ROUND);
    let mut bytes = 0usize;
    for len in 0..most {
        if is_full(len, bytes, workers) {
            return from + len;
        }
        bytes = bytes.saturating_add(pieces[from + len].len());
    }
    from + most
}

/// Returns whether a round with this number of pieces and bytes is long enough.
pub(crate) fn is_full(pieces: usize, bytes: usize, workers: usize) -> bool
    requires workers { (1 ≤ workers) × (workers ≤ most_workers) }
    ensures some { result ≡ true → 1 ≤ pieces }
    ensures bytes { result ≡ true → least_bytes_of_a_round ≤ bytes }
{
    if workers == 1 {
        pieces >= 1 && bytes >= BYTES_OF_ONE_WORKER
    } else {
        pieces >= PIECES_A_WORKER * workers && bytes >= BYTES_A_ROUND
    }
}

fn part<'p, 'd>(pieces: &'p [&'d [u8]], from: usize, to: usize) -> &'p [&'d [u8]]
    requires rising { from ≤ to }
    requires within { to ≤ length pieces.now }
    ensures value { result.now ≡ slice_range pieces.now from to }
    ensures len { length result.now ≡ to - from }
{
    &pieces[from..to]
}

/// Adds the pieces of a round to what was read before.
fn add_read_pieces(
    alloc: Global,
    so_far: &mut Numbered<'_>,
    pieces: Vec<TextPiece>,
) -> Result<(), AllocError>
    requires pieces { length pieces.items ≤ most_pieces_of_a_round }
    requires countable { so_far.old.lines ≤ 2 ^ 127 }
    ensures numbered { OnOk result ((done : List QuadParts) (each : List (List QuadParts))
        → AreNumberedBy done so_far.old.dict.texts so_far.old.quads
        → ArePiecesOf so_far.old.dict.texts each pieces.items
        → AreNumberedBy (done ++ joined each) so_far.new.dict.texts so_far.new.quads) }
    ensures lines { OnOk result
        (so_far.new.lines ≡ so_far.old.lines + line_total pieces.items) }
    ensures counted { OnOk result
        (so_far.new.lines ≤ so_far.old.lines + length pieces.items * (2 ^ 64 - 1)) }
    ensures filter { so_far.new.filter.now ≡ so_far.old.filter.now }
{
    let lines = count_read(pieces.as_slice());
    let seen = seen_in(so_far.seen, pieces.as_slice());
    add_pieces(alloc, &mut so_far.dict, &mut so_far.quads, pieces)?;
    so_far.lines += lines;
    so_far.seen = seen;
    Ok(())
}

/// Returns what the pieces before and these have.
fn seen_in(before: Seen, pieces: &[TextPiece]) -> Seen {
    let mut seen = before;
    for piece in pieces {
        seen.default_graph |= piece.seen.default_graph;
        seen.named_graph |= piece.seen.named_graph;
        seen.lacks_beyond_ascii |= piece.seen.lacks_beyond_ascii;
    }
    seen
}

/// Adds the pieces of a round, one after the other.
fn add_pieces(
    alloc: Global,
    dict: &mut TextDict,
    quads: &mut QuadList,
    pieces: Vec<TextPiece>,
) -> Result<(), AllocError>
    ensures numbered { OnOk result ((done : List QuadParts) (each : List (List QuadParts))
        → AreNumberedBy done dict.old.texts quads.old
        → ArePiecesOf dict.old.texts each pieces.items
        → AreNumberedBy (done ++ joined each) dict.new.texts quads.new) }
{
    for piece in pieces {
        let added = add_piece(alloc, dict, piece)?;
        quads.extend(alloc, added.as_slice())?;
    }
    Ok(())
}

/// Returns the number of lines of the pieces of a round.
fn count_read(pieces: &[TextPiece]) -> u128
    ensures total { result ≡ line_total pieces.now }
    ensures small { result ≤ length pieces.now * (2 ^ 64 - 1) }
{
    let mut count = 0u128;
    for piece in pieces {
        count += piece.lines as u128;
    }
    count
}

/// Returns the number of a line over all pieces, counted from 1. `line` is its place in its piece, counted
/// from 0.
fn line_number(pieces: &[&[u8]], piece: usize, line: u64) -> u128
    requires inside { piece ≤ length pieces.now }
    requires few { length pieces.now ≤ most_pieces_of_a_round }
    ensures number { result ≡ length (all_lines (texts (take piece pieces.now))) + line + 1 }
    ensures small { result ≤ 2 ^ 85 }
{
    count_all_lines(&pieces[..piece]) + line as u128 + 1
}

fn count_all_lines(pieces: &[&[u8]]) -> u128
    ensures count { result ≡ length (all_lines (texts pieces.now)) }
    ensures small { result ≤ length pieces.now * (2 ^ 64 - 1) }
{
    let mut count = 0u128;
    for piece in pieces {
        count += count_lines(piece) as u128;
    }
    count
}
