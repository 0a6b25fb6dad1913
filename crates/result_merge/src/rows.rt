//! Rows, as `spq select` prints them (SPARQL 1.1 Query Results JSON Format, section 3.2.1).
ghost use Rattle.std.specs.Prelude.{◌≡◌, ◌<◌, ◌||◌, ◌++◌, ℕ, List, codes, is_some, length, set, IfErr, IfNone, IfOk, MatchOption};
ghost use Rattle.result_json.specs.Texts.{begun_member, comma_texts};
ghost use Rattle.algebra_model.specs.Renaming.{Each};
ghost use Rattle.result_merge.specs.Absent.{IsNoRow, IsNoTerm};
ghost use Rattle.result_merge.specs.Reading.{HavePlaces, IsRead, comma, text_of};
ghost use Rattle.result_merge.specs.Tags.{HasTagType};
ghost use Rattle.result_merge.specs.declared.fault.MergeFault.TheVariants.{Damaged};

use crate::fault::MergeFault;
use crate::strings::{after, split_before, stripped};
use crate::terms::read_term;
use rdf_core::Term;
use std::alloc::{AllocError, Global};

/// A row: its cells in the order of the variables, and its text.
pub(crate) type ReadRow<'a> = (Vec<Option<Term>>, &'a [u8]);

/// A column: the beginning of its members, and its place in a row.
pub(crate) type Column = (Vec<u8>, usize);

/// Splits off a comma, unless this is the first element.
pub(crate) fn after_comma(bytes: &[u8], later: bool) -> Option<&[u8]>
    ensures parts { MatchOption result ((rest : List ℕ) → bytes.now ≡ comma later ++ rest → ⊥)
        (λ rest. bytes.now ≡ comma later ++ rest.now) }
{
    if later {
        stripped(bytes, b",")
    } else {
        Some(bytes)
    }
}

/// Splits off the beginning of a member.
fn member_start<'a>(bytes: &'a [u8], later: bool, prefix: &[u8]) -> Option<&'a [u8]>
    ensures parts { MatchOption result ((rest : List ℕ) → bytes.now ≡ comma later ++ (prefix.now ++ rest) → ⊥)
        (λ rest. bytes.now ≡ comma later ++ (prefix.now ++ rest.now)) }
{
    match after_comma(bytes, later) {
        Some(rest) => stripped(rest, prefix),
        None => None,
    }
}

/// Reads the member of a column, if the row has it.
fn read_member<'a>(
    alloc: Global,
    bytes: &'a [u8],
    later: bool,
    prefix: &[u8],
) -> Result<(Option<Term>, &'a [u8]), MergeFault>
    ensures parts { IfOk result
        (λ r. bytes.now ≡ comma_texts later (begun_member prefix.now r.0) ++ r.1.now) }
    ensures tagged { IfOk result (λ r. HasTagType r.0) }
    ensures none { IfOk result (λ r. IfNone r.0
        ((rest : List ℕ) → bytes.now ≡ comma later ++ (prefix.now ++ rest) → ⊥)) }
    ensures damaged { IfErr result (λ fault. fault ≡ Damaged
        → (value : List ℕ) × (bytes.now ≡ comma later ++ (prefix.now ++ value)) × IsNoTerm value) }
{
    match member_start(bytes, later, prefix) {
        Some(value) => {
            let (term, end) = read_term(alloc, value)?;
            Ok((Some(term), end))
        }
        None => Ok((None, bytes)),
    }
}

/// Returns a row in which nothing is bound.
fn unbound(alloc: Global, width: usize) -> Result<Vec<Option<Term>>, AllocError>
    ensures cells { IfOk result (λ cells. length cells.items ≡ width) }
    ensures tagged { IfOk result (λ cells. Each HasTagType cells.items) }
{
    let mut cells = Vec::with_capacity(alloc, width)?;
    for _place in 0..width {
        cells.push(None)?;
    }
    Ok(cells)
}

/// Returns whether a member was read before, or this column has one.
fn or_some(later: bool, cell: &Option<Term>) -> bool
    ensures value { result ≡ (later || is_some cell.now) }
{
    later || cell.is_some()
}

/// Sets a cell.
fn put_cell(cells: &mut Vec<Option<Term>>, place: usize, cell: Option<Term>)
    requires within { place < length cells.old.items }
    ensures set { cells.new.items ≡ set cells.old.items place cell }
{
    cells[place] = cell;
}

/// Reads the cells of a row.
fn read_cells<'a>(
    alloc: Global,
    bytes: &'a [u8],
    columns: &[Column],
    width: usize,
) -> Result<(Vec<Option<Term>>, &'a [u8]), MergeFault>
    requires places { HavePlaces width columns.now }
    ensures width { IfOk result (λ r. length r.0.items ≡ width) }
    ensures tagged { IfOk result (λ r. Each HasTagType r.0.items) }
    ensures parts { IfOk result (λ r. bytes.now ≡ text_of columns.now r.0.items ++ r.1.now) }
    ensures damaged { IfErr result (λ fault. fault ≡ Damaged → IsNoRow columns.now bytes.now) }
{
    let mut cells = unbound(alloc, width)?;
    let mut rest = after(bytes, b"{")?;
    let mut later = false;
    for (k, (prefix, place)) in columns.iter().enumerate() {
        let (cell, next) = read_member(alloc, rest, later, prefix)?;
        rest = next;
        later = or_some(later, &cell);
        put_cell(&mut cells, *place, cell);
    }
    let end = after(rest, b"}")?;
    Ok((cells, end))
}

/// Reads a row.
///
/// # Errors
/// - `Damaged` if the bytes do not begin with a row of these columns.
/// - `Memory` if an allocation fails.
pub(crate) fn read_row<'a>(
    alloc: Global,
    bytes: &'a [u8],
    columns: &[Column],
    width: usize,
) -> Result<(ReadRow<'a>, &'a [u8]), MergeFault>
    requires places { HavePlaces width columns.now }
    ensures row { IfOk result (λ r. IsRead width columns.now r.0) }
    ensures parts { IfOk result (λ r. bytes.now ≡ r.0.1.now ++ r.1.now) }
    ensures damaged { IfErr result (λ fault. fault ≡ Damaged → IsNoRow columns.now bytes.now) }
{
    let (cells, end) = read_cells(alloc, bytes, columns, width)?;
    let (text, rest) = split_before(bytes, end);
    Ok(((cells, text), rest))
}
