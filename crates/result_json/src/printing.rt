//! Rows of numbers as JSON.
ghost use Rattle.std.specs.Prelude.{◌≡◌, ◌<◌, length, map, IfErr, IfOk};
ghost use Rattle.algebra_model.specs.Renaming.{Each, EachBound, read_row};
ghost use Rattle.algebra_model.specs.RowOrder.{sorted_rows};
ghost use Rattle.algebra_model.specs.Sorted.{slice};
ghost use Rattle.dict_core.specs.Dict.{term_at};
ghost use Rattle.row_pieces.specs.How.{HasOneWorker, IsRunnable};
ghost use Rattle.row_pieces.specs.declared.fault.EvalFault.TheVariants.{Memory};
ghost use Rattle.result_json.specs.Results.{joined_blocks, json, listed_names};

use crate::coding::listed_codes;
use crate::packed_rows::packed;
use crate::pair_order::order_pairs;
use crate::ranking::rank;
use crate::results::to_json;
use crate::row_order::sorted_rows;
use dict_core::Dict;
use piece_pool::Gate;
use rdf_core::Text;
use row_core::Rows;
use row_pieces::{EvalFault, How};
use std::alloc::Global;
use std::sync::Wait;
use std::thread::Threads;

/// Returns the elements from the offset on, at most as many as the limit (SPARQL 1.1 Query
/// Language, section 18.5, Slice).
fn kept<T>(rows: &[T], offset: u64, limit: Option<u64>) -> &[T]
    ensures value { result.now ≡ slice offset limit rows.now }
{
    let after_offset = &rows[rows.len().min(offset as usize)..];
    match limit {
        Some(limit) => &after_offset[..after_offset.len().min(limit as usize)],
        None => after_offset,
    }
}

/// What the printer makes of rows of numbers: the projected variables, the terms, and the slice to keep.
#[derive(Clone, Copy)]
pub struct Table<'a> {
    /// Each variable's name at its number.
    pub names: &'a [Text],
    /// The numbers of the projected variables, in the order of the results. A variable without a
    /// place in the rows is unbound in all of them.
    pub listed: &'a [usize],
    /// The term of each number in the rows.
    pub dict: &'a Dict,
    /// The number of first rows to leave out (SPARQL 1.1 Query Language, section 15.4).
    pub offset: u64,
    /// The largest number of rows to print (SPARQL 1.1 Query Language, section 15.5).
    pub limit: Option<u64>,
}

/// Prints the result of a query as JSON (SPARQL 1.1 Query Results JSON Format), in blocks to be
/// concatenated. It has the names of the projected variables, and the rows in the order of their
/// terms, cut to what OFFSET and LIMIT keep. It ends with a line feed.
///
/// Each row has the number of a term at the place of each variable that it binds. The rows are freed
/// as soon as their numbers are copied, before anything is printed.
///
/// Workers print the rows in pieces, as `how` says, each piece into its own block. They call the
/// gate before and after each piece. Neither changes the bytes. With one worker the caller does all
/// the work.
///
/// # Requires
/// Each number in the rows is the place of a term in `dict`, and `how` is within its limits.
///
/// # Errors
/// - `WorkerRefused` if a worker thread could not be started. The started workers have been joined.
///   It cannot occur with one worker.
/// - `Memory` if an allocation fails.
pub fn print_rows<R: Threads + Wait, G: Gate + Sync>(
    rt: &R,
    alloc: Global,
    table: &Table<'_>,
    rows: Rows,
    how: &How,
    gate: &G,
) -> Result<Vec<Vec<u8>>, EvalFault>
    requires known { Each (EachBound (λ n. n < length table.now.dict.now)) rows.rows }
    requires how { IsRunnable how.now }
    ensures json { IfOk result (λ blocks. joined_blocks blocks.items
        ≡ json (listed_names table.now.names.now table.now.listed.now)
        (slice table.now.offset table.now.limit
        (sorted_rows table.now.listed.now (map (read_row (term_at table.now.dict.now)) rows.rows)))) }
    ensures one_worker { HasOneWorker how.now → IfErr result (λ fault. fault ≡ Memory) }
{
    let (listed, count) = (table.listed, rows.len());
    let mut ranks = listed_codes(alloc, listed, &rows, table.dict)?;
    drop(rows);
    let terms = rank(rt, alloc, &mut ranks, table.dict, how)?;
    order_pairs(alloc, &mut ranks, listed.len(), count)?;
    let sorted = sorted_rows(alloc, &ranks, listed.len(), count)?;
    let kept = kept(&sorted, table.offset, table.limit);
    let packed = packed(alloc, kept, listed.len())?;
    drop(sorted);
    drop(ranks);
    to_json(rt, alloc, table, &terms, &packed, how, gate)
}
