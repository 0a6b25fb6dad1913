//! A document that is read in blocks of whole lines.
ghost use Rattle.std.specs.Prelude.{◌≡◌, ◌≤◌, ◌^◌, [], false, length, true, IfErr, IfOk, IfSome, IsSomeAnd, None, Ok, OnErr, OnOk};
ghost use Rattle.std.specs.Io.KnownBytes.{Consumes, IsAtEnd};
ghost use Rattle.nquads_core.specs.Transfer.{CountsRead, IsReadInPart};
ghost use Rattle.piece_pool.specs.Limits.{most_workers};
ghost use Rattle.piece_cuts.specs.Laws.{EndsWithLineFeed};
ghost use Rattle.dataset_load.specs.Limits.{least_bytes_of_a_round, most_pieces_of_a_round};
ghost use Rattle.dataset_load.specs.Lines.{AreBlocksOf, AreWholeLines, EachEnds, block_texts, joined};
ghost use Rattle.dataset_load.specs.ReadSoFar.{IsReadIn, TakesRest, TakesRound};
ghost use Rattle.dataset_load.specs.Ahead.{IsNextRound};
ghost use Rattle.dataset_load.specs.FaultNames.{IsReadFailed};

use crate::causes::tell_read;
use crate::load_context::LoadContext;
use crate::load_notes::LoadListener;
use crate::rounds::{PIECES_A_ROUND, is_full};
use nquads_core::{ReadFault, Source};
use piece_cuts::laws::first_piece_then_the_rest;
use piece_cuts::{BlockState, Blocks};
use piece_pool::PoolFault;
use std::alloc::Global;

/// Reads all bytes that a reader has left, in blocks of whole lines. The blocks are the pieces of `Cuts::every`
/// with this size: each but the last has at least `size` bytes. The bytes are not joined.
///
/// # Requires
/// `size` is 1 or more.
///
/// # Errors
/// - `Read` if the reader fails. Bytes before that may have been taken from it.
/// - `Memory` if an allocation fails. Bytes may have been taken from the reader.
pub fn read_blocks<S: Source>(
    alloc: Global,
    size: usize,
    reader: &mut S,
) -> Result<Vec<Vec<u8>>, ReadFault>
    requires some { 1 ≤ size }
    ensures whole_lines { IfOk result (λ blocks. AreWholeLines (block_texts blocks.items)) }
    ensures bytes { IfOk result (λ blocks. Consumes (S.left reader.old) (S.left reader.new)
        (joined (block_texts blocks.items))) }
    ensures pieces { IfOk result (λ blocks. IfSome (S.left reader.old)
        (λ text. AreBlocksOf size text (block_texts blocks.items))) }
    ensures at_end { OnOk result (IsAtEnd (S.left reader.new)) }
    ensures taken { OnErr result (IsReadInPart (S.left reader.old) (S.left reader.new)) }
    ensures count { CountsRead (S.failures reader.old) (S.failures reader.new) result }
{
    let Ok(mut blocks) = Blocks::new(alloc, size) else {
        return Err(ReadFault::Memory);
    };
    let mut read = Vec::new(alloc);
    append_blocks(&mut read, &mut blocks, reader)?;
    Ok(read)
}

/// Appends all blocks that a reader has left.
fn append_blocks<S: Source>(
    read: &mut Vec<Vec<u8>>,
    blocks: &mut Blocks,
    reader: &mut S,
) -> Result<(), ReadFault>
    requires none { read.old.items ≡ [] }
    requires some { 1 ≤ blocks.old.size }
    requires reading { blocks.old.state ≡ BlockState.Reading }
    requires unread { blocks.old.kept ≡ [] }
    ensures whole_lines { OnOk result (AreWholeLines (block_texts read.new.items)) }
    ensures bytes { OnOk result (Consumes (S.left reader.old) (S.left reader.new)
        (joined (block_texts read.new.items))) }
    ensures pieces { OnOk result (IfSome (S.left reader.old)
        (λ text. AreBlocksOf blocks.old.size text (block_texts read.new.items))) }
    ensures at_end { OnOk result (IsAtEnd (S.left reader.new)) }
    ensures taken { OnErr result (IsReadInPart (S.left reader.old) (S.left reader.new)) }
    ensures count { CountsRead (S.failures reader.old) (S.failures reader.new) result }
{
    first_piece_then_the_rest();
    'reading: loop {
        let block = match blocks.next(reader) {
            Ok(Some(block)) => block,
            Ok(None) => return Ok(()),
            Err(fault) => return Err(fault),
        };
        let is_whole = ends_with_line_feed(block.as_slice());
        let Ok(()) = read.push(block) else {
            return Err(ReadFault::Memory);
        };
        if !is_whole {
            return Ok(());
        }
    }
}

/// The blocks of a round.
#[derive(Drop)]
pub(crate) struct RoundBlocks {
    pub(crate) blocks: Vec<Vec<u8>>,
    /// Whether the reader is at its end.
    pub(crate) is_last: bool,
}

/// Reads the blocks of the next round.
///
/// # Errors
/// - `Read` if the reader fails. Bytes before that may have been taken from it.
/// - `Memory` if an allocation fails. Bytes may have been taken from the reader.
pub(crate) fn next_round<R, S: Source, L: LoadListener>(
    context: &LoadContext<'_, R>,
    blocks: &mut Blocks,
    reader: &mut S,
    listener: &L,
) -> Result<RoundBlocks, ReadFault>
    requires reading { blocks.old.state ≡ BlockState.Reading }
    ensures round { IfOk result (IsNextRound (S.left reader.old) (S.left reader.new)
        blocks.old.kept blocks.new.kept) }
    ensures reading { IfOk result
        (λ round. round.is_last ≡ false → blocks.new.state ≡ BlockState.Reading) }
    ensures taken { (start : _) (done : _) → IsReadIn start (S.left reader.old) done blocks.old.kept
        → IsReadInPart start (S.left reader.new) }
    ensures count { CountsRead (S.failures reader.old) (S.failures reader.new) result }
    ensures cause { IfErr result (IsReadFailed L.fails) }
{
    let mut round = Vec::new(context.alloc);
    let is_last = fill_round(&mut round, blocks, reader, context.workers, listener)?;
    Ok(RoundBlocks {
        blocks: round,
        is_last,
    })
}

/// Reads the blocks of the round after this one, or returns None if this is the last one.
///
/// # Errors
/// As `next_round`.
pub(crate) fn round_after<R, S: Source, L: LoadListener>(
    context: &LoadContext<'_, R>,
    is_last: bool,
    blocks: &mut Blocks,
    reader: &mut S,
    listener: &L,
) -> Result<Option<RoundBlocks>, ReadFault>
    requires reading { is_last ≡ false → blocks.old.state ≡ BlockState.Reading }
    ensures none { is_last ≡ true → (result ≡ Ok None) × (reader.new ≡ reader.old) }
    ensures round { is_last ≡ false → IfOk result (λ next. IsSomeAnd next
        (IsNextRound (S.left reader.old) (S.left reader.new) blocks.old.kept blocks.new.kept)) }
    ensures reading { IfOk result (λ next. IfSome next
        (λ round. round.is_last ≡ false → blocks.new.state ≡ BlockState.Reading)) }
    ensures taken { is_last ≡ false → (start : _) (done : _)
        → IsReadIn start (S.left reader.old) done blocks.old.kept
        → IsReadInPart start (S.left reader.new) }
    ensures count { CountsRead (S.failures reader.old) (S.failures reader.new) result }
    ensures cause { IfErr result (IsReadFailed L.fails) }
{
    if is_last {
        return Ok(None);
    }
    match next_round(context, blocks, reader, listener) {
        Ok(round) => Ok(Some(round)),
        Err(fault) => Err(fault),
    }
}

/// Reads the blocks of a round, and returns whether the reader is at its end.
///
/// # Errors
/// - `Read` if the reader fails. Bytes before that may have been taken from it.
/// - `Memory` if an allocation fails. Bytes may have been taken from the reader.
fn fill_round<S: Source, L: LoadListener>(
    round: &mut Vec<Vec<u8>>,
    blocks: &mut Blocks,
    reader: &mut S,
    workers: usize,
    listener: &L,
) -> Result<bool, ReadFault>
    requires empty { round.old.items ≡ [] }
    requires workers { (1 ≤ workers) × (workers ≤ most_workers) }
    requires reading { blocks.old.state ≡ BlockState.Reading }
    ensures few { OnOk result (length round.new.items ≤ most_pieces_of_a_round) }
    ensures long { IfOk result (λ is_last. is_last ≡ false
        → least_bytes_of_a_round ≤ length (joined (block_texts round.new.items))) }
    ensures whole_lines { OnOk result (AreWholeLines (block_texts round.new.items)) }
    ensures reading { IfOk result
        (λ is_last. is_last ≡ false → blocks.new.state ≡ BlockState.Reading) }
    ensures more { IfOk result (λ is_last. is_last ≡ false → EachEnds (block_texts round.new.items)
        × TakesRound (S.left reader.old) (S.left reader.new) blocks.old.kept blocks.new.kept
        (joined (block_texts round.new.items))) }
    ensures last { IfOk result (λ is_last. is_last ≡ true → TakesRest (S.left reader.old)
        (S.left reader.new) blocks.old.kept (joined (block_texts round.new.items))
        × IsAtEnd (S.left reader.new)) }
    ensures taken { OnErr result ((start : _) (done : _)
        → IsReadIn start (S.left reader.old) done blocks.old.kept
        → IsReadInPart start (S.left reader.new)) }
    ensures count { CountsRead (S.failures reader.old) (S.failures reader.new) result }
    ensures cause { IfErr result (IsReadFailed L.fails) }
{
    let mut bytes = 0usize;
    for len in 0..PIECES_A_ROUND {
        if is_full(len, bytes, workers) {
            return Ok(false);
        }
        let block = match blocks.next(reader) {
            Ok(Some(block)) => block,
            Ok(None) => return Ok(true),
            Err(fault) => {
                tell_read(listener, fault);
                return Err(fault);
            }
        };
        bytes = bytes.saturating_add(block.len());
        let is_whole = ends_with_line_feed(block.as_slice());
        let Ok(()) = round.push(block) else {
            listener.failed(PoolFault::Memory);
            return Err(ReadFault::Memory);
        };
        if !is_whole {
            return Ok(true);
        }
    }
    Ok(false)
}

fn ends_with_line_feed(bytes: &[u8]) -> bool
    ensures yes { result ≡ true → EndsWithLineFeed bytes.now }
    ensures no { EndsWithLineFeed bytes.now → result ≡ true }
{
    if bytes.is_empty() {
        return false;
    }
    bytes[bytes.len() - 1] == b'\n'
}
