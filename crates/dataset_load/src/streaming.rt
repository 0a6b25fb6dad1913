//! Loading the rest of a reader, round by round, so that the document is never held as a whole.
ghost use Rattle.std.specs.Prelude.{◌≡◌, ◌+◌, ◌≤◌, ◌^◌, ◌++◌, ℕ, [], false, length, Err, IfErr, IfOk, IfSome, IsOk, IsSomeAnd, MatchOption, Ok, OnErr, OnOk};
ghost use Rattle.nquads_core.specs.Transfer.{CountsRead, IsReadInPart};
ghost use Rattle.nquads_core.specs.Pieces.{IsBadLine};
ghost use Rattle.piece_pool.specs.Limits.{most_workers};
ghost use Rattle.dataset_load.specs.Counted.{AreTermsFrom, IsCountedFrom};
ghost use Rattle.dataset_load.specs.declared.fault.LoadFault.TheVariants.{BadLine};
ghost use Rattle.dataset_load.specs.Fault.{IfBadLine, IsOneWorkerLoadFault};
ghost use Rattle.dataset_load.specs.Limits.{most_pieces_of_a_round};
ghost use Rattle.dataset_load.specs.Lines.{all_lines, block_texts};
ghost use Rattle.dataset_load.specs.Rounds.{HasRead};
ghost use Rattle.dataset_load.specs.ReaderFault.{CountsLoading, IfBadLineRead, IsOneWorkerReaderFault};
ghost use Rattle.dataset_load.specs.Streaming.{IsBadLineFrom, IsKeptLoadedFrom};
ghost use Rattle.dataset_load.specs.ReadSoFar.{IsReadFrom, IsReadUpTo};
ghost use Rattle.dataset_load.specs.Ahead.{IsReadAhead, Spends};
ghost use Rattle.dataset_load.specs.Causes.{IsCaused, IsStopped};
ghost use Rattle.dataset_load.specs.FaultNames.{IsFailed, IsLoadFailed, IsReadFailed};
ghost use Rattle.dataset_load.specs.Listing.{IsListing};
ghost use Rattle.dataset_load.specs.BadRounds.{IsBadRound, IsListedAfter, IsReady};

use crate::bad_round::{BadRound, ReadState};
use crate::building::store_of;
use crate::causes::load_failed;
use crate::counted::{Counted, counted_of};
use crate::fault::LoadFault;
use crate::load_context::LoadContext;
use crate::load_notes::{LoadListener, LoadNotes};
use crate::loading::{borrowed_blocks, hash_state};
use crate::numbered::Numbered;
use crate::reader::{RoundBlocks, next_round, round_after};
use crate::reader_fault::ReaderFault;
use crate::rest::{MOST_ROUNDS, list_rest};
use crate::rounds::add_round;
use crate::store::Store;
use nquads_core::{ReadFault, Source};
use piece_cuts::{BlockState, Blocks};
use piece_pool::{Gate, PoolFault};
use quad_filter::QuadFilter;
use std::alloc::{AllocError, Global};
use std::hash::RandomState;
use std::random::RandomSource;
use std::sync::Wait;
use std::thread::Threads;
use text_dict::TextDict;

/// What reading begins with.
#[derive(Drop)]
struct Fresh<'f> {
    state: RandomState,
    so_far: Numbered<'f>,
    blocks: Blocks,
}

/// Loads the rest of a reader, as `load_blocks` does after `read_blocks`. Only the blocks of two rounds are in
/// memory at a time: one that is parsed, and the next one. `notes` gets what messages show.
///
/// The store has the quads that `filter` keeps, and may lack each other quad. Every line is validated, also one
/// whose quad is left out.
///
/// # Requires
/// `size` is 1 or more, and `workers` is 1 to 64.
///
/// # Errors
/// - `BadLine(n)` if line n of what was read, counted from 1, is the first that is malformed. The reader
///   was read to its end.
/// - `WorkerRefused` if a worker thread could not be started. Those that were started have been joined.
///   With one worker no thread is started, so this cannot occur.
/// - `Memory` if an allocation fails, or if the runtime provides no random numbers. Also if the document has more
///   than 2^34 - 2 distinct terms or 2^40 rounds, or if the reader has not ended 2^64 - 1 reads after a malformed line.
/// - `Read` if the reader fails in this call. It takes precedence over the other errors.
///
/// On every error, the bytes that were taken are a beginning of what the reader had left.
pub fn load_reader<R: Threads + Wait + RandomSource, S: Source, G: Gate + Sync, L: LoadListener>(
    rt: &R,
    alloc: Global,
    size: usize,
    reader: &mut S,
    filter: &QuadFilter,
    workers: usize,
    gate: &G,
    notes: &mut LoadNotes,
    listener: &L,
) -> Result<Store, ReaderFault>
    requires some { 1 ≤ size }
    requires workers { (1 ≤ workers) × (workers ≤ most_workers) }
    ensures loaded { IfOk result
        (IsKeptLoadedFrom filter.now (S.left reader.old) (S.left reader.new)) }
    ensures bad_line { IfErr result
        (IfBadLineRead (IsBadLineFrom (S.left reader.old) (S.left reader.new))) }
    ensures listed { IfErr result (IfBadLineRead
        (λ _. IsListing (S.left reader.old) (S.left reader.new) notes.new.malformed)) }
    ensures taken { OnErr result (IsReadInPart (S.left reader.old) (S.left reader.new)) }
    ensures count { CountsLoading (S.failures reader.old) (S.failures reader.new) result }
    ensures one_worker { workers ≡ 1 → IfErr result IsOneWorkerReaderFault }
    ensures cause { IfErr result (IsCaused L.fails (S.left reader.old)) }
    ensures stopped { IfErr result (IfBadLineRead
        (λ _. IsStopped L.fails (S.left reader.old) notes.new.malformed)) }
{
    let context = LoadContext { rt, alloc, workers };
    let so_far = read_reader(&context, size, reader, filter, gate, notes, listener)?;
    match store_of(rt, alloc, so_far, workers) {
        Ok(store) => Ok(store),
        Err(fault) => Err(load_failed(listener, fault)),
    }
}

/// Counts the distinct quads and graph names of the rest of a reader, and returns its terms. It reads as
/// [`load_reader`] does, but no index is built.
///
/// # Requires
/// `size` is 1 or more, and `workers` is 1 to 64.
///
/// # Errors
/// As `load_reader`.
pub fn count_reader<R: Threads + Wait + RandomSource, S: Source, G: Gate + Sync, L: LoadListener>(
    rt: &R,
    alloc: Global,
    size: usize,
    reader: &mut S,
    workers: usize,
    gate: &G,
    notes: &mut LoadNotes,
    listener: &L,
) -> Result<Counted, ReaderFault>
    requires some { 1 ≤ size }
    requires workers { (1 ≤ workers) × (workers ≤ most_workers) }
    ensures counted { IfOk result (IsCountedFrom (S.left reader.old) (S.left reader.new)) }
    ensures bad_line { IfErr result
        (IfBadLineRead (IsBadLineFrom (S.left reader.old) (S.left reader.new))) }
    ensures listed { IfErr result (IfBadLineRead
        (λ _. IsListing (S.left reader.old) (S.left reader.new) notes.new.malformed)) }
    ensures taken { OnErr result (IsReadInPart (S.left reader.old) (S.left reader.new)) }
    ensures count { CountsLoading (S.failures reader.old) (S.failures reader.new) result }
    ensures one_worker { workers ≡ 1 → IfErr result IsOneWorkerReaderFault }
    ensures cause { IfErr result (IsCaused L.fails (S.left reader.old)) }
    ensures stopped { IfErr result (IfBadLineRead
        (λ _. IsStopped L.fails (S.left reader.old) notes.new.malformed)) }
{
    let context = LoadContext { rt, alloc, workers };
    let filter = QuadFilter::All;
    let so_far = read_reader(&context, size, reader, &filter, gate, notes, listener)?;
    match counted_of(rt, alloc, so_far, workers) {
        Ok(counted) => Ok(counted),
        Err(fault) => Err(load_failed(listener, fault)),
    }
}

/// Returns the terms of the rest of a reader as texts. It reads as [`load_reader`] does. No quads are sorted.
///
/// # Requires
/// `size` is 1 or more, and `workers` is 1 to 64.
///
/// # Errors
/// As `load_reader`.
pub fn load_terms<R: Threads + Wait + RandomSource, S: Source, G: Gate + Sync, L: LoadListener>(
    rt: &R,
    alloc: Global,
    size: usize,
    reader: &mut S,
    workers: usize,
    gate: &G,
    notes: &mut LoadNotes,
    listener: &L,
) -> Result<TextDict, ReaderFault>
    requires some { 1 ≤ size }
    requires workers { (1 ≤ workers) × (workers ≤ most_workers) }
    ensures terms { IfOk result (AreTermsFrom (S.left reader.old) (S.left reader.new)) }
    ensures bad_line { IfErr result
        (IfBadLineRead (IsBadLineFrom (S.left reader.old) (S.left reader.new))) }
    ensures listed { IfErr result (IfBadLineRead
        (λ _. IsListing (S.left reader.old) (S.left reader.new) notes.new.malformed)) }
    ensures taken { OnErr result (IsReadInPart (S.left reader.old) (S.left reader.new)) }
    ensures count { CountsLoading (S.failures reader.old) (S.failures reader.new) result }
    ensures one_worker { workers ≡ 1 → IfErr result IsOneWorkerReaderFault }
    ensures cause { IfErr result (IsCaused L.fails (S.left reader.old)) }
    ensures stopped { IfErr result (IfBadLineRead
        (λ _. IsStopped L.fails (S.left reader.old) notes.new.malformed)) }
{
    let context = LoadContext { rt, alloc, workers };
    let filter = QuadFilter::All;
    let so_far = read_reader(&context, size, reader, &filter, gate, notes, listener)?;
    let Numbered { dict, .. } = so_far;
    Ok(dict)
}

/// Reads a reader to its end, and numbers the quads of its lines that the filter keeps. After a malformed line it lists the
/// malformed lines.
fn read_reader<'f, R: Threads + Wait + RandomSource, S: Source, G: Gate + Sync, L: LoadListener>(
    context: &LoadContext<'_, R>,
    size: usize,
    reader: &mut S,
    filter: &'f QuadFilter,
    gate: &G,
    notes: &mut LoadNotes,
    listener: &L,
) -> Result<Numbered<'f>, ReaderFault>
    requires some { 1 ≤ size }
    ensures read { IfOk result (IsReadFrom (S.left reader.old) (S.left reader.new)) }
    ensures filter { IfOk result (λ so_far. so_far.filter.now ≡ filter.now) }
    ensures bad_line { IfErr result
        (IfBadLineRead (IsBadLineFrom (S.left reader.old) (S.left reader.new))) }
    ensures listed { IfErr result (IfBadLineRead
        (λ _. IsListing (S.left reader.old) (S.left reader.new) notes.new.malformed)) }
    ensures taken { OnErr result (IsReadInPart (S.left reader.old) (S.left reader.new)) }
    ensures count { CountsLoading (S.failures reader.old) (S.failures reader.new) result }
    ensures one_worker { context.now.workers ≡ 1 → IfErr result IsOneWorkerReaderFault }
    ensures cause { IfErr result (IsCaused L.fails (S.left reader.old)) }
    ensures stopped { IfErr result (IfBadLineRead
        (λ _. IsStopped L.fails (S.left reader.old) notes.new.malformed)) }
{
    let Ok(fresh) = nothing_read(context.rt, context.alloc, size, filter) else {
        listener.failed(PoolFault::Memory);
        return Err(ReaderFault::Memory);
    };
    let Fresh {
        state,
        mut so_far,
        mut blocks,
    } = fresh;
    let mut reading = ReadState::new(gate, listener);
    match number_rounds(
        context,
        state,
        &mut so_far,
        &mut blocks,
        reader,
        &mut reading,
    ) {
        Ok(()) => {
            notes.is_read = true;
            notes.has_default = so_far.seen.default_graph;
            notes.has_named = so_far.seen.named_graph;
            Ok(so_far)
        }
        Err(ReaderFault::BadLine(line)) => {
            let Some(bad) = reading.bad else {
                unreachable!();
            };
            Err(list_malformed(
                context,
                line,
                bad,
                so_far,
                &mut blocks,
                reader,
                notes,
                listener,
            ))
        }
        Err(fault) => Err(fault),
    }
}

/// Lists the malformed lines of a reader, of which this line is the first, and returns why the reader is not loaded. The
/// quads of the lines before are dropped first.
fn list_malformed<R: Threads + Wait, S: Source, L: LoadListener>(
    context: &LoadContext<'_, R>,
    line: u128,
    bad: BadRound,
    so_far: Numbered<'_>,
    blocks: &mut Blocks,
    reader: &mut S,
    notes: &mut LoadNotes,
    listener: &L,
) -> ReaderFault
    requires ready { IsReady blocks.old bad }
    ensures outcome { (start : _) → IsBadRound start (S.left reader.old) blocks.old.kept line bad
        → IsListedAfter L.fails start (S.left reader.new) notes.new.malformed result }
    ensures count { CountsLoading {T = ℕ} (S.failures reader.old) (S.failures reader.new) (Err result) }
    ensures one_worker { IsOneWorkerReaderFault result }
{
    let is_after_utf8 = so_far.seen.lacks_beyond_ascii || bad.is_after_utf8(&so_far.dict, line);
    drop(so_far);
    match list_rest(context, bad, is_after_utf8, blocks, reader, notes, listener) {
        Ok(()) => ReaderFault::BadLine(line),
        Err(fault) => ReaderFault::from(fault),
    }
}

/// Creates the state in which nothing is read.
fn nothing_read<'f, R: RandomSource>(
    rt: &R,
    alloc: Global,
    size: usize,
    filter: &'f QuadFilter,
) -> Result<Fresh<'f>, AllocError>
    requires some { 1 ≤ size }
    ensures none { IfOk result (λ fresh. HasRead fresh.so_far []) }
    ensures no_lines { IfOk result (λ fresh. fresh.so_far.lines ≡ 0) }
    ensures filter { IfOk result (λ fresh. fresh.so_far.filter.now ≡ filter.now) }
    ensures blocks { IfOk result (λ fresh.
        fresh.blocks ≡ record { size = size; kept = []; state = BlockState.Reading }) }
{
    let state = hash_state(rt)?;
    let blocks = Blocks::new(alloc, size)?;
    Ok(Fresh {
        state,
        so_far: Numbered::new(alloc, state, filter),
        blocks,
    })
}

/// Reads the rounds of a reader. Each round is read while the one before is parsed.
fn number_rounds<R: Threads + Wait, S: Source, G: Gate + Sync, L: LoadListener>(
    context: &LoadContext<'_, R>,
    state: RandomState,
    so_far: &mut Numbered<'_>,
    blocks: &mut Blocks,
    reader: &mut S,
    reading: &mut ReadState<'_, G, L>,
) -> Result<(), ReaderFault>
    requires reading { blocks.old.state ≡ BlockState.Reading }
    requires none { so_far.old.lines ≡ 0 }
    requires start { IsReadUpTo (S.left reader.old) (S.left reader.old) blocks.old.kept so_far.old }
    ensures read { OnOk result (IsReadFrom (S.left reader.old) (S.left reader.new) so_far.new) }
    ensures filter { so_far.new.filter.now ≡ so_far.old.filter.now }
    ensures bad_round { IfErr result (IfBadLineRead (λ n. IsSomeAnd reading.new.bad
        (λ bad. IsReady blocks.new bad × IsBadRound (S.left reader.old) (S.left reader.new)
        blocks.new.kept n bad))) }
    ensures taken { OnErr result (IsReadInPart (S.left reader.old) (S.left reader.new)) }
    ensures count { CountsLoading (S.failures reader.old) (S.failures reader.new) result }
    ensures one_worker { context.now.workers ≡ 1 → IfErr result IsOneWorkerReaderFault }
    ensures cause { IfErr result (IsCaused L.fails (S.left reader.old)) }
{
    let mut round = match next_round(context, blocks, reader, reading.listener) {
        Ok(round) => round,
        Err(fault) => return Err(ReaderFault::from(fault)),
    };
    for _ in 0..MOST_ROUNDS {
        match number_round(context, state, so_far, blocks, reader, reading, round) {
            Ok(Some(next)) => round = next,
            Ok(None) => return Ok(()),
            Err(fault) => return Err(fault),
        }
    }
    Err(ReaderFault::Memory)
}

/// Adds the quads of a round to those of the rounds before, and returns the next round, or None after the last
/// one. The caller's thread reads the next round while the workers parse this one.
fn number_round<R: Threads + Wait, S: Source, G: Gate + Sync, L: LoadListener>(
    context: &LoadContext<'_, R>,
    state: RandomState,
    so_far: &mut Numbered<'_>,
    blocks: &mut Blocks,
    reader: &mut S,
    reading: &mut ReadState<'_, G, L>,
    round: RoundBlocks,
) -> Result<Option<RoundBlocks>, ReaderFault>
    requires few { length round.blocks.items ≤ most_pieces_of_a_round }
    requires reading { round.is_last ≡ false → blocks.old.state ≡ BlockState.Reading }
    requires countable { so_far.old.lines ≤ 2 ^ 124 }
    ensures reading { IfOk result (λ next. IfSome next
        (λ round. round.is_last ≡ false → blocks.new.state ≡ BlockState.Reading)) }
    ensures counted { OnOk result (so_far.new.lines ≤ so_far.old.lines + 2 ^ 84) }
    ensures filter { so_far.new.filter.now ≡ so_far.old.filter.now }
    ensures read { IfOk result (λ next. (start : _)
        → IsReadAhead start (S.left reader.old) blocks.old.kept so_far.old round
        → MatchOption next (IsReadFrom start (S.left reader.new) so_far.new)
        (IsReadAhead start (S.left reader.new) blocks.new.kept so_far.new)) }
    ensures bad_round { IfErr result (IfBadLineRead (λ n. IsSomeAnd reading.new.bad
        (λ bad. IsReady blocks.new bad × ((start : _)
        → IsReadAhead start (S.left reader.old) blocks.old.kept so_far.old round
        → IsBadRound start (S.left reader.new) blocks.new.kept n bad)))) }
    ensures taken { OnErr result ((start : _)
        → IsReadAhead start (S.left reader.old) blocks.old.kept so_far.old round
        → IsReadInPart start (S.left reader.new)) }
    ensures count { CountsLoading (S.failures reader.old) (S.failures reader.new) result }
    ensures one_worker { context.now.workers ≡ 1 → IfErr result IsOneWorkerReaderFault }
    ensures cause { IfErr result (IsFailed L.fails) }
    ensures spent { IfOk result (λ next. IfSome next
        (Spends (S.left reader.old) (S.left reader.new) blocks.old.kept blocks.new.kept round)) }
{
    let before = so_far.lines;
    let is_last = round.is_last;
    let listener = reading.listener;
    let (added, next) = add_blocks(
        context,
        state,
        so_far,
        round.blocks.as_slice(),
        reading,
        &mut || round_after(context, is_last, blocks, reader, listener),
    );
    end_round(reading, blocks, before, round, added, next)
}

/// Returns the round that was read while another was added, or the fault of one of the two. That of the read takes
/// precedence, except over a worker that could not be started, where the read ran out of memory. A round with a malformed
/// line is kept to be listed; otherwise the memory of its blocks is used again.
fn end_round<G, L: LoadListener>(
    reading: &mut ReadState<'_, G, L>,
    blocks: &mut Blocks,
    before: u128,
    round: RoundBlocks,
    added: Result<(), LoadFault>,
    next: Result<Option<RoundBlocks>, ReadFault>,
) -> Result<Option<RoundBlocks>, ReaderFault>
    requires added { IfErr added (IsLoadFailed L.fails) }
    requires next { IfErr next (IsReadFailed L.fails) }
    ensures blocks { blocks.new ≡ blocks.old }
    ensures next { IfOk result (λ round. next ≡ Ok round) }
    ensures added { OnOk result (IsOk added) }
    ensures bad_line { IfErr result (IfBadLineRead (λ n. added ≡ Err (BadLine n))) }
    ensures bad_round { IfErr result (IfBadLineRead (λ n. IsSomeAnd reading.new.bad
        (λ bad. (bad.before ≡ before) × (bad.round ≡ round) × (next ≡ Ok bad.next)))) }
    ensures count { (old : _) (new : _) → CountsRead old new next → CountsLoading old new result }
    ensures one_worker { IfErr added IsOneWorkerLoadFault → IfErr result IsOneWorkerReaderFault }
    ensures cause { IfErr result (IsFailed L.fails) }
{
    match next {
        Ok(next) => match added {
            Ok(()) => {
                blocks.reuse(round.blocks);
                Ok(next)
            }
            Err(LoadFault::BadLine(line)) => {
                reading.bad = Some(BadRound {
                    before,
                    round,
                    next,
                });
                Err(ReaderFault::BadLine(line))
            }
            Err(fault) => Err(ReaderFault::from(fault)),
        },
        Err(ReadFault::Read) => Err(ReaderFault::Read),
        Err(ReadFault::Memory) => match added {
            Err(LoadFault::WorkerRefused) => Err(ReaderFault::WorkerRefused),
            _ => Err(ReaderFault::Memory),
        },
    }
}

/// Adds the quads of blocks to those of the rounds before. The caller's thread runs the task while the workers
/// parse the blocks.
fn add_blocks<R: Threads + Wait, G: Gate + Sync, L: LoadListener, F: FnMut() -> T, T>(
    context: &LoadContext<'_, R>,
    state: RandomState,
    so_far: &mut Numbered<'_>,
    blocks: &[Vec<u8>],
    reading: &mut ReadState<'_, G, L>,
    task: &mut F,
) -> (Result<(), LoadFault>, T)
    requires blocks { length blocks.now ≤ most_pieces_of_a_round }
    requires countable { so_far.old.lines ≤ 2 ^ 127 }
    requires task { F.pre task.old }
    ensures numbered { OnOk result.0 ((before : _) → HasRead so_far.old before
        → HasRead so_far.new (before ++ all_lines (block_texts blocks.now))) }
    ensures counted { OnOk result.0 (so_far.new.lines ≤ so_far.old.lines + 2 ^ 84) }
    ensures filter { so_far.new.filter.now ≡ so_far.old.filter.now }
    ensures bad_line { IfErr result.0 (IfBadLine (λ n. (before : _) → HasRead so_far.old before
        → IsBadLine (before ++ all_lines (block_texts blocks.now)) n)) }
    ensures one_worker { context.now.workers ≡ 1 → IfErr result.0 IsOneWorkerLoadFault }
    ensures cause { IfErr result.0 (IsLoadFailed L.fails) }
    ensures task { F.step task.old result.1 task.new }
{
    let Ok(pieces) = borrowed_blocks(context.alloc, blocks) else {
        reading.listener.failed(PoolFault::Memory);
        return (Err(LoadFault::Memory), task());
    };
    let gate = reading.next_gate(blocks.len());
    add_round(
        context,
        state,
        so_far,
        pieces.as_slice(),
        &gate,
        reading.listener,
        task,
    )
}
