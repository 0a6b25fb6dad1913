//! Rows as JSON in blocks, one for each piece of the rows. Workers print the blocks in parallel.
//!
//! Each worker allocates the blocks that it prints, so the workers share the cost of new memory. It
//! unpacks the rows of a block before it prints them.
ghost use Rattle.std.specs.Prelude.{◌≡◌, IfErr, IfOk};
ghost use Rattle.row_pieces.specs.How.{HasOneWorker, IsRunnable};
ghost use Rattle.row_pieces.specs.declared.fault.EvalFault.TheVariants.{Memory};
ghost use Rattle.result_json.specs.Packed.{ranks_in};
ghost use Rattle.result_json.specs.Results.{joined_blocks, separated};
ghost use Rattle.result_json.specs.Texts.{comma_texts, piece_text, rank_texts, row_texts};

use crate::packed_rows::unpacked;
use crate::ranked_row::RankedRow;
use crate::row_order::split_rows;
use crate::row_texts::put_rows;
use crate::text_pieces::TextPieces;
use piece_pool::{Gate, Job, JobFault, Outcome, run_all};
use row_core::Rows;
use row_pieces::{EvalFault, How, piece_ends, piece_size};
use std::alloc::{AllocError, Global};
use std::sync::Wait;
use std::thread::Threads;

/// The rows of a result in pieces of `size` rows.
#[derive(Drop)]
struct RowBlocks<'a, 't> {
    columns: &'a [(Vec<u8>, usize)],
    texts: &'a TextPieces<'t>,
    rows: &'a Rows,
    size: usize,
}

impl<'a, 't> Job for RowBlocks<'a, 't> {
    ghost use Rattle.std.specs.Prelude.{◌≡◌};
    ghost use Rattle.result_json.specs.Packed.{ranks_in};
    ghost use Rattle.result_json.specs.Texts.{piece_text};

    type Out = Vec<u8>;

    type Fault = ();

    ghost answers = { λ job i out. out.items ≡ piece_text job.texts.now job.columns.now (ranks_in job.rows.now) job.size i };

    ghost faults = { λ _ _ _. ⊥ };

    fn run(&self, alloc: Global, i: u64) -> Result<Vec<u8>, JobFault<()>> {
        match numbered_block(alloc, self.columns, self.texts, self.rows, self.size, i) {
            Ok(text) => Ok(text),
            Err(_) => Err(JobFault::Memory),
        }
    }

    ghost exclusive = { λ job i out fault _ absurd. absurd };
}

/// Returns the largest number of bytes that a row takes, with a comma before the row and after each
/// member.
fn row_room(columns: &[(Vec<u8>, usize)], texts: &TextPieces<'_>, row: &RankedRow<'_>) -> usize {
    let mut room = 3usize;
    for (prefix, place) in columns {
        if let Some(place) = texts.place(row.rank(*place)) {
            let member = prefix.len().saturating_add(texts.printed(place).len());
            room = room.saturating_add(member).saturating_add(1);
        }
    }
    room
}

/// Returns the largest number of bytes that rows take, if their terms are printed. A block of this
/// capacity is never reallocated.
fn room_of(columns: &[(Vec<u8>, usize)], texts: &TextPieces<'_>, rows: &[RankedRow<'_>]) -> usize {
    let mut room = 0usize;
    for row in rows {
        room = room.saturating_add(row_room(columns, texts, row));
    }
    room
}

/// Prints rows into a block, with a comma before each, or before each except the first.
fn block(
    alloc: Global,
    columns: &[(Vec<u8>, usize)],
    texts: &TextPieces<'_>,
    rows: &[RankedRow<'_>],
    later: bool,
) -> Result<Vec<u8>, AllocError>
    ensures text { IfOk result
        (λ block. block.items ≡ comma_texts later (row_texts texts.now columns.now rows.now)) }
{
    let mut out = Vec::with_capacity(alloc, room_of(columns, texts, rows))?;
    put_rows(alloc, &mut out, columns, texts, rows, later)?;
    Ok(out)
}

/// Prints a piece of `size` packed rows into a block, with a comma before each row except the first of
/// all.
fn numbered_block(
    alloc: Global,
    columns: &[(Vec<u8>, usize)],
    texts: &TextPieces<'_>,
    rows: &Rows,
    size: usize,
    number: u64,
) -> Result<Vec<u8>, AllocError>
    ensures text { IfOk result
        (λ block. block.items ≡ piece_text texts.now columns.now (ranks_in rows.now) size number) }
{
    let width = rows.width();
    let (from, to) = piece_ends(rows.len(), size, number);
    let ranks = unpacked(alloc, rows, from, to)?;
    let piece = split_rows(alloc, &ranks, width, to - from)?;
    block(alloc, columns, texts, &piece, number != 0)
}

/// Prints the rows with commas between them, into one block for each piece. The pieces are cut as
/// `how` says, and workers print them. The caller prints a single piece itself, and with one worker
/// it prints all.
///
/// # Requires
/// `how` is within its limits.
///
/// # Errors
/// - `WorkerRefused` if a worker thread could not be started. It cannot occur with one worker.
/// - `Memory` if an allocation fails.
pub(crate) fn row_blocks<R: Threads + Wait, G: Gate + Sync>(
    rt: &R,
    alloc: Global,
    columns: &[(Vec<u8>, usize)],
    texts: &TextPieces<'_>,
    rows: &Rows,
    how: &How,
    gate: &G,
) -> Result<Vec<Vec<u8>>, EvalFault>
    requires how { IsRunnable how.now }
    ensures text { IfOk result (λ blocks. joined_blocks blocks.items
        ≡ separated (rank_texts texts.now columns.now (ranks_in rows.now))) }
    ensures one_worker { HasOneWorker how.now → IfErr result (λ fault. fault ≡ Memory) }
{
    let count = rows.len();
    let size = piece_size(count, how.rows);
    let pieces = count.div_ceil(size) as u64;
    let job = RowBlocks {
        columns,
        texts,
        rows,
        size,
    };
    match run_all(rt, alloc, how.workers, pieces, &job, gate)? {
        Outcome::All(blocks) => Ok(blocks),
        Outcome::First { .. } => unreachable!(),
    }
}
