//! The result of a query as JSON (SPARQL 1.1 Query Results JSON Format), in blocks to be
//! concatenated: the head, the rows piece by piece, and the tail.
ghost use Rattle.std.specs.Prelude.{◌≡◌, ◌++◌, codes, length, map, IfErr, IfOk, OnOk};
ghost use Rattle.row_pieces.specs.How.{HasOneWorker, IsRunnable};
ghost use Rattle.row_pieces.specs.declared.fault.EvalFault.TheVariants.{Memory};
ghost use Rattle.result_json.specs.Packed.{ranks_in};
ghost use Rattle.result_json.specs.Ranks.{ranked_row, terms_of};
ghost use Rattle.result_json.specs.Results.{joined_blocks, json, listed_names, separated, string_text};
ghost use Rattle.result_json.specs.Texts.{head_text};

use crate::columns::{begun_columns, name_of};
use crate::packed_rows::rank_at;
use crate::printing::Table;
use crate::row_blocks::row_blocks;
use crate::text_pieces::{TextPieces, place_of};
use crate::values::put_string;
use piece_pool::Gate;
use rdf_core::{Term, Text};
use row_core::Rows;
use row_pieces::{EvalFault, How};
use std::alloc::{AllocError, Global};
use std::sync::Wait;
use std::thread::Threads;

/// Marks the terms of a packed row, each at its place.
fn mark_cells(
    columns: &[(Vec<u8>, usize)],
    terms: &[(&Term, u64)],
    cells: &[Option<u64>],
    shown: &mut [bool],
)
    requires wide { length shown.old ≡ length (terms_of terms.now) }
{
    for (_prefix, place) in columns {
        if let Some(place) = place_of(terms, rank_at(cells, *place)) {
            shown[place] = true;
        }
    }
}

/// Marks the terms of the packed rows, each at its place.
fn mark_rows(
    alloc: Global,
    columns: &[(Vec<u8>, usize)],
    terms: &[(&Term, u64)],
    rows: &Rows,
    shown: &mut [bool],
) -> Result<(), AllocError>
    requires wide { length shown.old ≡ length (terms_of terms.now) }
{
    let mut cells = Vec::new(alloc);
    for i in 0..rows.len() {
        rows.read(i, &mut cells)?;
        mark_cells(columns, terms, cells.as_slice(), shown);
    }
    Ok(())
}

/// Returns the table of the terms, in which those of the rows are printed.
///
/// # Requires
/// `how` is within its limits.
///
/// # Errors
/// - `WorkerRefused` if a worker thread could not be started. It cannot occur with one worker.
/// - `Memory` if an allocation fails.
fn printed_texts<'a, R: Threads + Wait>(
    rt: &R,
    alloc: Global,
    columns: &[(Vec<u8>, usize)],
    terms: &'a [(&'a Term, u64)],
    rows: &Rows,
    how: &How,
) -> Result<TextPieces<'a>, EvalFault>
    requires how { IsRunnable how.now }
    ensures terms { IfOk result (λ texts. texts ≡ terms_of terms.now) }
    ensures one_worker { HasOneWorker how.now → IfErr result (λ fault. fault ≡ Memory) }
{
    let mut shown = vec![in alloc; false; terms.len()]?;
    mark_rows(alloc, columns, terms, rows, &mut shown)?;
    TextPieces::print(rt, alloc, terms, &shown, how)
}

/// Appends the names of the projected variables, with commas between them.
fn put_names(
    alloc: Global,
    out: &mut Vec<u8>,
    names: &[Text],
    listed: &[usize],
) -> Result<(), AllocError>
    ensures { OnOk result
        (out.new.items ≡ out.old.items
        ++ separated (map string_text (listed_names names.now listed.now))) }
{
    for i in 0..listed.len() {
        if i > 0 {
            out.push(b',')?;
        }
        put_string(alloc, out, name_of(names, listed[i]))?;
    }
    Ok(())
}

/// Prints what precedes the rows: the names of the projected variables.
fn head(alloc: Global, names: &[Text], listed: &[usize]) -> Result<Vec<u8>, AllocError>
    ensures text { IfOk result (λ head. head.items ≡ head_text (listed_names names.now listed.now)) }
{
    let mut out = Vec::from_slice(alloc, b"{\"head\":{\"vars\":[")?;
    put_names(alloc, &mut out, names, listed)?;
    out.extend_from_slice(b"]},\"results\":{\"bindings\":[")?;
    Ok(out)
}

/// Returns the blocks with the head before them and the tail after them.
fn enclosed(
    alloc: Global,
    names: &[Text],
    listed: &[usize],
    blocks: &mut Vec<Vec<u8>>,
) -> Result<Vec<Vec<u8>>, AllocError>
    ensures joined { IfOk result (λ made. joined_blocks made.items
        ≡ head_text (listed_names names.now listed.now) ++ (joined_blocks blocks.old.items ++ codes "]}}\n")) }
{
    let mut made = Vec::with_capacity(alloc, blocks.len().saturating_add(2))?;
    made.push_reserved(head(alloc, names, listed)?);
    made.append(blocks)?;
    made.push_reserved(Vec::from_slice(alloc, b"]}}\n")?);
    Ok(made)
}

/// Prints the result of a query as JSON (SPARQL 1.1 Query Results JSON Format): the names of the
/// projected variables of the table, and the packed rows in order. Each row has one rank for each
/// variable, and a rank is the place of a term plus one. The text ends with a line feed.
///
/// # Requires
/// `how` is within its limits.
///
/// # Errors
/// - `WorkerRefused` if a worker thread could not be started. It cannot occur with one worker.
/// - `Memory` if an allocation fails.
pub(crate) fn to_json<R: Threads + Wait, G: Gate + Sync>(
    rt: &R,
    alloc: Global,
    table: &Table<'_>,
    terms: &[(&Term, u64)],
    rows: &Rows,
    how: &How,
    gate: &G,
) -> Result<Vec<Vec<u8>>, EvalFault>
    requires how { IsRunnable how.now }
    ensures json { IfOk result
        (λ blocks. joined_blocks blocks.items
        ≡ json (listed_names table.now.names.now table.now.listed.now)
        (map (ranked_row (terms_of terms.now)) (ranks_in rows.now))) }
    ensures one_worker { HasOneWorker how.now → IfErr result (λ fault. fault ≡ Memory) }
{
    let columns = begun_columns(alloc, table.names, table.listed)?;
    let texts = printed_texts(rt, alloc, &columns, terms, rows, how)?;
    let mut blocks = row_blocks(rt, alloc, &columns, &texts, rows, how, gate)?;
    Ok(enclosed(alloc, table.names, table.listed, &mut blocks)?)
}
