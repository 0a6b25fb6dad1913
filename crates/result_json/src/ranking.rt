//! Terms by rank: the distinct terms of a result are sorted, and rows are then compared by numbers.
ghost use Rattle.std.specs.Prelude.{◌≡◌, ◌<◌, true, get_or, length, map, slice_get, slice_set, All, IfErr, IfOk, IsPermutation, IsSorted};
ghost use Rattle.rdf_core.specs.Order.{term_cmp};
ghost use Rattle.algebra_model.specs.Renaming.{Each};
ghost use Rattle.row_pieces.specs.How.{HasOneWorker, IsRunnable};
ghost use Rattle.row_pieces.specs.declared.fault.EvalFault.TheVariants.{Memory};
ghost use Rattle.result_json.specs.Ranks.{ranked_cell, terms_of, numbers_of, IsCovered, IsEntry, IsMarked, IsRank, IsRankTable};

use crate::order_check::is_in_order;
use crate::presort::presorted;
use dict_core::Dict;
use rdf_core::Term;
use row_pieces::{EvalFault, How};
use std::alloc::{AllocError, Global};
use std::sync::Wait;
use std::thread::Threads;

/// Marks the place of a code. A code past the end marks nothing.
fn mark(marks: &mut [bool], code: u64)
    ensures marks { marks.new ≡ slice_set marks.old code true }
{
    if code < marks.len() as u64 {
        marks[code as usize] = true;
    }
}

/// Returns, for each number below `count`, whether it is a code.
fn marked(alloc: Global, codes: &[u64], count: usize) -> Result<Vec<bool>, AllocError>
    ensures wide { IfOk result (λ marks. length marks.items ≡ count) }
    ensures marked { IfOk result (λ marks. All (IsMarked marks.items) codes.now) }
{
    let mut marks = vec![in alloc; false; count]?;
    for code in codes {
        mark(&mut marks, *code);
    }
    Ok(marks)
}

/// Returns the terms of the codes, each with its number, in the order of the dictionary. A code
/// past the dictionary has no term.
fn distinct_terms<'a>(
    alloc: Global,
    codes: &[u64],
    dict: &'a Dict,
) -> Result<Vec<(&'a Term, u64)>, AllocError>
    ensures entries { IfOk result (λ made. All (IsEntry dict.now) made.items) }
    ensures covered { IfOk result
        (λ made. All (IsCovered (length dict.now) (numbers_of made.items)) codes.now) }
{
    let marks = marked(alloc, codes, dict.len())?;
    let mut made = Vec::new(alloc);
    for number in 0..dict.len() {
        if marks[number] {
            made.push((dict.term(number as u64), number as u64))?;
        }
    }
    Ok(made)
}

/// Returns, for each number, its last place in the order plus one, or 0 if it has none.
fn rank_table(alloc: Global, order: &[(&Term, u64)], count: usize) -> Result<Vec<u64>, AllocError>
    requires below { All (λ e. e.1 < count) order.now }
    ensures wide { IfOk result (λ table. length table.items ≡ count) }
    ensures ranks { IfOk result (λ table. IsRankTable (numbers_of order.now) table.items) }
{
    let mut table = vec![in alloc; 0u64; count]?;
    for i in 0..order.len() {
        table[order[i].1 as usize] = i as u64 + 1;
    }
    Ok(table)
}

/// Returns the rank of a code, or 0 if the table has none.
fn rank_of(table: &[u64], code: u64) -> u64
    ensures value { result ≡ get_or table.now code 0 }
{
    if code < table.len() as u64 {
        table[code as usize]
    } else {
        0
    }
}

/// Replaces each code by its rank.
fn put_ranks(codes: &mut [u64], table: &[u64])
    ensures ranks { codes.new ≡ map (λ c. get_or table.now c 0) codes.old }
{
    for code in codes.iter_mut() {
        *code = rank_of(table, *code);
    }
}

/// Returns the terms in ascending order, each with its number.
///
/// # Requires
/// `how` is within its limits.
///
/// # Errors
/// - `WorkerRefused` if a worker thread could not be started. It cannot occur with one worker.
/// - `Memory` if an allocation fails.
fn sorted_terms<'a, R: Threads + Wait>(
    rt: &R,
    alloc: Global,
    entries: &[(&'a Term, u64)],
    how: &How,
) -> Result<Vec<(&'a Term, u64)>, EvalFault>
    requires how { IsRunnable how.now }
    ensures permutation { IfOk result (λ order. IsPermutation entries.now order.items) }
    ensures rising { IfOk result (λ order. IsSorted term_cmp (terms_of order.items)) }
    ensures one_worker { HasOneWorker how.now → IfErr result (λ fault. fault ≡ Memory) }
{
    // `presorted` returns the terms in order, but its contract does not say so.
    let mut order = presorted(rt, alloc, entries, how)?;
    if is_in_order(rt, alloc, &order, how)? {
        return Ok(order);
    }
    order.sort()?;
    Ok(order)
}

/// Replaces each code by the rank of its term, or by 0 if it has no term. Returns the terms in
/// ascending order, each with its number. A rank is the place of the term plus one.
///
/// # Requires
/// `how` is within its limits.
///
/// # Errors
/// The codes are unchanged.
///
/// - `WorkerRefused` if a worker thread could not be started. It cannot occur with one worker.
/// - `Memory` if an allocation fails.
pub(crate) fn rank<'a, R: Threads + Wait>(
    rt: &R,
    alloc: Global,
    codes: &mut [u64],
    dict: &'a Dict,
    how: &How,
) -> Result<Vec<(&'a Term, u64)>, EvalFault>
    requires how { IsRunnable how.now }
    ensures cells { IfOk result
        (λ order. map (ranked_cell (terms_of order.items)) codes.new
        ≡ map (slice_get dict.now) codes.old) }
    ensures ranks { IfOk result (λ order. Each (IsRank (terms_of order.items)) codes.new) }
    ensures rising { IfOk result (λ order. IsSorted term_cmp (terms_of order.items)) }
    ensures one_worker { HasOneWorker how.now → IfErr result (λ fault. fault ≡ Memory) }
{
    let terms = distinct_terms(alloc, codes, dict)?;
    let order = sorted_terms(rt, alloc, &terms, how)?;
    let table = rank_table(alloc, &order, dict.len())?;
    put_ranks(codes, &table);
    Ok(order)
}
