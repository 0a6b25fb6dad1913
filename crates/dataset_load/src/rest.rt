//! The malformed lines of the rest of a reader, after the first of them is known.
ghost use Rattle.std.specs.Prelude.{◌≡◌, ◌+◌, ◌≤◌, ◌⊎◌, ◌^◌, List, ℕ, false, length, Err, IfErr, IfOk, IfSome, IsOk, MatchOption, OnErr, OnOk, Ok};
ghost use Rattle.std.specs.Io.KnownBytes.{IsAtEnd};
ghost use Rattle.rdf_core.specs.QuadParts.{QuadParts};
ghost use Rattle.nquads_core.specs.Pieces.{HaveStatements};
ghost use Rattle.nquads_core.specs.Transfer.{CountsRead, IsReadInPart};
ghost use Rattle.malformed_lines.specs.Malformed.{IsListed};
ghost use Rattle.dataset_load.specs.Limits.{most_pieces_of_a_round};
ghost use Rattle.nquads_core.specs.declared.transfer.ReadFault.TheVariants.{Memory};
ghost use Rattle.dataset_load.specs.Ahead.{IsAhead, IsSpent, Spends};
ghost use Rattle.dataset_load.specs.Causes.{HasFailed, IsStopped, IsTooLong};
ghost use Rattle.dataset_load.specs.FaultNames.{IsReadFailed};
ghost use Rattle.dataset_load.specs.Listing.{IsListing};
ghost use Rattle.dataset_load.specs.BadRounds.{IsBadList, IsBadRound, IsReady};
ghost use Rattle.dataset_load.specs.Streaming.{IsBadLineFrom};
ghost use Rattle.dataset_load.specs.ReadSoFar.{IsBadSoFar, IsToEnd};

use crate::bad_round::BadRound;
use crate::listing::list_blocks;
use crate::load_context::LoadContext;
use crate::load_notes::{Listing, LoadListener, LoadNotes};
use crate::reader::{RoundBlocks, round_after};
use malformed_lines::MalformedLines;
use nquads_core::{ReadFault, Source};
use piece_cuts::{BlockState, Blocks};
use piece_pool::{OpenGate, PoolFault};
use std::sync::Wait;
use std::thread::Threads;

/// The largest number of rounds of a document. A round has at least 64 KiB or 2^20 lines, except the last one.
pub(crate) const MOST_ROUNDS: u64 = 1 << 40;

/// Lists the malformed lines of a round and of all that the reader has after it, and reads the reader to its end.
/// `notes` gets the list. If an allocation fails or a worker cannot be started, the rest is dropped, and the list is not complete.
///
/// # Errors
/// - `Read` if the reader fails.
/// - `Memory` if the reader has not ended after 2^64 - 1 reads.
pub(crate) fn list_rest<R: Threads + Wait, S: Source, L: LoadListener>(
    context: &LoadContext<'_, R>,
    bad: BadRound,
    is_after_utf8: bool,
    blocks: &mut Blocks,
    reader: &mut S,
    notes: &mut LoadNotes,
    listener: &L,
) -> Result<(), ReadFault>
    requires ready { IsReady blocks.old bad }
    ensures bad_line { OnOk result ((start : _) (n : ℕ)
        → IsBadRound start (S.left reader.old) blocks.old.kept n bad
        → IsBadLineFrom start (S.left reader.new) n) }
    ensures listed { OnOk result ((start : _) (n : ℕ)
        → IsBadRound start (S.left reader.old) blocks.old.kept n bad
        → IsListing start (S.left reader.new) notes.new.malformed) }
    ensures stopped { OnOk result ((start : _) (n : ℕ)
        → IsBadRound start (S.left reader.old) blocks.old.kept n bad
        → IsStopped L.fails start notes.new.malformed) }
    ensures limit { result ≡ Err Memory → (start : _) (n : ℕ)
        → IsBadRound start (S.left reader.old) blocks.old.kept n bad → IsTooLong start }
    ensures taken { OnErr result ((start : _) (n : ℕ)
        → IsBadRound start (S.left reader.old) blocks.old.kept n bad
        → IsReadInPart start (S.left reader.new)) }
    ensures count { CountsRead (S.failures reader.old) (S.failures reader.new) result }
{
    let mut list = MalformedLines::after(context.alloc, bad.before);
    match list_lines(
        context,
        &mut list,
        bad,
        is_after_utf8,
        blocks,
        reader,
        listener,
    ) {
        Ok(()) => {
            notes.malformed = Some(Listing {
                list,
                is_complete: true,
                is_after_utf8,
            });
            Ok(())
        }
        Err(ReadFault::Memory) => {
            notes.malformed = Some(Listing {
                list,
                is_complete: false,
                is_after_utf8,
            });
            skip_rest(reader)
        }
        Err(ReadFault::Read) => Err(ReadFault::Read),
    }
}

/// Adds the malformed lines of a round, and of all rounds after it, to the list. The listener is told of the first one.
///
/// # Errors
/// - `Read` if the reader fails.
/// - `Memory` if an allocation fails, if a worker could not be started, or if the document has too many rounds.
fn list_lines<R: Threads + Wait, S: Source, L: LoadListener>(
    context: &LoadContext<'_, R>,
    list: &mut MalformedLines,
    bad: BadRound,
    is_after_utf8: bool,
    blocks: &mut Blocks,
    reader: &mut S,
    listener: &L,
) -> Result<(), ReadFault>
    requires ready { IsReady blocks.old bad }
    requires countable { list.old.lines ≤ 2 ^ 124 }
    requires before { (before : List (List ℕ)) (quads : List QuadParts) → HaveStatements before quads
        → bad.before ≡ length before → IsListed before list.old }
    ensures listed { OnOk result ((start : _) (n : ℕ)
        → IsBadRound start (S.left reader.old) blocks.old.kept n bad
        → IsToEnd (IsBadList n list.new) start (S.left reader.new)) }
    ensures stopped { OnErr result ((start : _) (n : ℕ)
        → IsBadRound start (S.left reader.old) blocks.old.kept n bad
        → IsBadSoFar start (S.left reader.new) n) }
    ensures cause { result ≡ Err Memory → (start : _) (n : ℕ)
        → IsBadRound start (S.left reader.old) blocks.old.kept n bad
        → HasFailed L.fails ⊎ IsTooLong start }
    ensures count { CountsRead (S.failures reader.old) (S.failures reader.new) result }
{
    let BadRound { round, next, .. } = bad;
    let (listed, ()) = list_blocks(
        context.rt,
        context.alloc,
        list,
        round.blocks.as_slice(),
        context.workers,
        &OpenGate,
        &mut || (),
    );
    match listed {
        Ok(()) => {
            tell(listener, list, is_after_utf8);
            match next {
                Some(next) => list_rounds(context, list, blocks, reader, listener, next),
                None => Ok(()),
            }
        }
        Err(fault) => {
            listener.failed(fault);
            Err(ReadFault::Memory)
        }
    }
}

/// Tells the listener of the first line of a list.
fn tell<L: LoadListener>(listener: &L, list: &MalformedLines, is_after_utf8: bool) {
    if let Some(line) = list.shown.first() {
        listener.found(line, is_after_utf8);
    }
}

/// Adds the malformed lines of a round, and of all rounds after it, to the list. Each round is read while the one before is
/// listed.
///
/// # Errors
/// As `list_lines`.
fn list_rounds<R: Threads + Wait, S: Source, L: LoadListener>(
    context: &LoadContext<'_, R>,
    list: &mut MalformedLines,
    blocks: &mut Blocks,
    reader: &mut S,
    listener: &L,
    first: RoundBlocks,
) -> Result<(), ReadFault>
    requires few { length first.blocks.items ≤ most_pieces_of_a_round }
    requires reading { first.is_last ≡ false → blocks.old.state ≡ BlockState.Reading }
    requires countable { list.old.lines ≤ 2 ^ 125 }
    ensures listed { OnOk result ((start : _) (n : ℕ)
        → IsAhead (IsBadList n list.old) start (S.left reader.old) blocks.old.kept first
        → IsToEnd (IsBadList n list.new) start (S.left reader.new)) }
    ensures stopped { OnErr result ((start : _) (n : ℕ)
        → IsAhead (IsBadList n list.old) start (S.left reader.old) blocks.old.kept first
        → IsBadSoFar start (S.left reader.new) n) }
    ensures cause { result ≡ Err Memory → HasFailed L.fails ⊎ ((start : _)
        → (first.is_last ≡ false → IsSpent 0 start (S.left reader.old) blocks.old.kept)
        → IsTooLong start) }
    ensures count { CountsRead (S.failures reader.old) (S.failures reader.new) result }
{
    let mut round = first;
    for _ in 0..MOST_ROUNDS {
        match list_round(context, list, blocks, reader, listener, round) {
            Ok(Some(next)) => round = next,
            Ok(None) => return Ok(()),
            Err(fault) => return Err(fault),
        }
    }
    Err(ReadFault::Memory)
}

/// Adds the malformed lines of a round to the list, and returns the next round, or None after the last one. The
/// caller's thread reads the next round while the workers list this one.
///
/// # Errors
/// As `list_lines`.
fn list_round<R: Threads + Wait, S: Source, L: LoadListener>(
    context: &LoadContext<'_, R>,
    list: &mut MalformedLines,
    blocks: &mut Blocks,
    reader: &mut S,
    listener: &L,
    round: RoundBlocks,
) -> Result<Option<RoundBlocks>, ReadFault>
    requires few { length round.blocks.items ≤ most_pieces_of_a_round }
    requires reading { round.is_last ≡ false → blocks.old.state ≡ BlockState.Reading }
    requires countable { list.old.lines ≤ 2 ^ 126 }
    ensures few { IfOk result (λ next. IfSome next
        (λ round. length round.blocks.items ≤ most_pieces_of_a_round)) }
    ensures reading { IfOk result (λ next. IfSome next
        (λ round. round.is_last ≡ false → blocks.new.state ≡ BlockState.Reading)) }
    ensures counted { OnOk result (list.new.lines ≤ list.old.lines + 2 ^ 84) }
    ensures listed { (n : ℕ) → IfOk result (λ next. (start : _)
        → IsAhead (IsBadList n list.old) start (S.left reader.old) blocks.old.kept round
        → MatchOption next (IsToEnd (IsBadList n list.new) start (S.left reader.new))
        (IsAhead (IsBadList n list.new) start (S.left reader.new) blocks.new.kept)) }
    ensures stopped { (n : ℕ) → OnErr result ((start : _)
        → IsAhead (IsBadList n list.old) start (S.left reader.old) blocks.old.kept round
        → IsBadSoFar start (S.left reader.new) n) }
    ensures cause { result ≡ Err Memory → HasFailed L.fails }
    ensures spent { IfOk result (λ next. IfSome next
        (Spends (S.left reader.old) (S.left reader.new) blocks.old.kept blocks.new.kept round)) }
    ensures count { CountsRead (S.failures reader.old) (S.failures reader.new) result }
{
    let is_last = round.is_last;
    let (listed, next) = list_blocks(
        context.rt,
        context.alloc,
        list,
        round.blocks.as_slice(),
        context.workers,
        &OpenGate,
        &mut || round_after(context, is_last, blocks, reader, listener),
    );
    blocks.reuse(round.blocks);
    next_if_listed(listener, listed, next)
}

/// Returns the round that was read while another was listed. If that one was not listed, returns `Memory`, unless the
/// read failed.
fn next_if_listed<L: LoadListener>(
    listener: &L,
    listed: Result<(), PoolFault>,
    next: Result<Option<RoundBlocks>, ReadFault>,
) -> Result<Option<RoundBlocks>, ReadFault>
    requires next { IfErr next (IsReadFailed L.fails) }
    ensures next { IfOk result (λ round. next ≡ Ok round) }
    ensures listed { OnOk result (IsOk listed) }
    ensures count { (old : _) (new : _) → CountsRead old new next → CountsRead old new result }
    ensures cause { result ≡ Err Memory → HasFailed L.fails }
{
    match next {
        Ok(next) => match listed {
            Ok(()) => Ok(next),
            Err(fault) => {
                listener.failed(fault);
                Err(ReadFault::Memory)
            }
        },
        Err(fault) => Err(fault),
    }
}

/// Reads a reader to its end, and drops what is read.
///
/// # Errors
/// - `Read` if the reader fails.
/// - `Memory` if the reader has not ended after 2^64 - 1 reads.
fn skip_rest<S: Source>(reader: &mut S) -> Result<(), ReadFault>
    ensures part { IsReadInPart (S.left reader.old) (S.left reader.new) }
    ensures at_end { OnOk result (IsAtEnd (S.left reader.new)) }
    ensures limit { result ≡ Err Memory → IsTooLong (S.left reader.old) }
    ensures count { CountsRead (S.failures reader.old) (S.failures reader.new) result }
{
    let mut chunk = [0u8; 8192];
    for _ in 0..u64::MAX {
        match reader.read(&mut chunk) {
            Ok(0) => return Ok(()),
            Ok(_) => {}
            Err(_) => return Err(ReadFault::Read),
        }
    }
    Err(ReadFault::Memory)
}
