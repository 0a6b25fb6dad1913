//! The results of parts, merged.
ghost use Rattle.std.specs.Prelude.{◌≡◌, ◌∷◌, ◌++◌, ℕ, List, flat_map, true, IfErr, IfOk, OnOk};
ghost use Rattle.algebra_model.specs.Renaming.{Each};
ghost use Rattle.algebra_model.specs.RowOrder.{cells_cmp};
ghost use Rattle.algebra_model.specs.Sorted.{slice, sorted_list};
ghost use Rattle.result_json.specs.Results.{separated};
ghost use Rattle.result_json.specs.Texts.{head_text};
ghost use Rattle.row_merge.specs.Merged.{Row, kept};
ghost use Rattle.result_merge.specs.Absent.{AreNoResults};
ghost use Rattle.result_merge.specs.Merging.{AreResults, IsMerged};
ghost use Rattle.result_merge.specs.Reading.{HasText, ReadRow, document_text, rows_of, texts_of};
ghost use Rattle.result_merge.specs.declared.fault.MergeFault.TheVariants.{Damaged};

use crate::columns::begun_columns;
use crate::documents::{read_documents, read_head};
use crate::fault::MergeFault;
use crate::rows::ReadRow;
use crate::strings::split_before;
use rdf_core::Text;
use std::alloc::{AllocError, Global};

/// Sorts rows.
fn sort_rows(rows: &mut Vec<ReadRow<'_>>) -> Result<(), AllocError>
    ensures sorted { OnOk result
        (rows_of rows.new.items ≡ sorted_list cells_cmp (rows_of rows.old.items)) }
    ensures texts { OnOk result ((text : Row → List ℕ)
        → Each (HasText text) rows.old.items → Each (HasText text) rows.new.items) }
{
    rows.sort()?;
    Ok(())
}

/// Leaves one of each of sorted rows.
fn leave_one(rows: &mut Vec<ReadRow<'_>>)
    ensures rows { (text : Row → List ℕ) (all : List ReadRow) → Each (HasText text) rows.old.items
        → rows_of rows.old.items ≡ sorted_list cells_cmp (rows_of all)
        → (rows_of rows.new.items ≡ sorted_list cells_cmp (kept true (rows_of all))) × Each (HasText text) rows.new.items }
{
    rows.dedup();
}

/// Sorts rows, and leaves one of each if they are to be distinct.
fn order_rows(rows: &mut Vec<ReadRow<'_>>, distinct: bool) -> Result<(), AllocError>
    ensures rows { OnOk result ((text : Row → List ℕ) → Each (HasText text) rows.old.items
        → (rows_of rows.new.items ≡ sorted_list cells_cmp (kept distinct (rows_of rows.old.items)))
        × Each (HasText text) rows.new.items) }
{
    sort_rows(rows)?;
    if distinct {
        leave_one(rows);
    }
    Ok(())
}

/// Returns the rows that OFFSET and LIMIT leave.
fn sliced<'a, 'b>(rows: &'b [ReadRow<'a>], offset: u64, limit: Option<u64>) -> &'b [ReadRow<'a>]
    ensures value { result.now ≡ slice offset limit rows.now }
{
    let rest = &rows[rows.len().min(offset as usize)..];
    match limit {
        Some(limit) => &rest[..rest.len().min(limit as usize)],
        None => rest,
    }
}

/// Appends the texts of rows, with a comma before each.
fn put_others(out: &mut Vec<u8>, rows: &[ReadRow<'_>]) -> Result<(), AllocError>
    ensures texts { OnOk result
        (out.new.items ≡ out.old.items ++ flat_map (λ text. 44 ∷ text) (texts_of rows.now)) }
{
    for (k, (_cells, text)) in rows.iter().enumerate() {
        out.push(b',')?;
        out.extend_from_slice(*text)?;
    }
    Ok(())
}

/// Appends the texts of rows, with commas between them.
fn put_rows(out: &mut Vec<u8>, rows: &[ReadRow<'_>]) -> Result<(), AllocError>
    ensures texts { OnOk result (out.new.items ≡ out.old.items ++ separated (texts_of rows.now)) }
{
    match rows.split_first() {
        Some((first, others)) => {
            out.extend_from_slice(first.1)?;
            put_others(out, others)
        }
        None => Ok(()),
    }
}

/// Returns a result with this head and these rows.
fn document(alloc: Global, head: &[u8], rows: &[ReadRow<'_>]) -> Result<Vec<u8>, AllocError>
    ensures text { IfOk result (λ out. out.items ≡ document_text head.now rows.now) }
{
    let mut out = Vec::new(alloc);
    out.extend_from_slice(head)?;
    put_rows(&mut out, rows)?;
    out.extend_from_slice(b"]}}\n")?;
    Ok(out)
}

/// Merges the results of parts that have this head, which is that of these variables.
fn merge_rows(
    alloc: Global,
    input: &[u8],
    head: &[u8],
    names: &[Text],
    distinct: bool,
    offset: u64,
    limit: Option<u64>,
) -> Result<Vec<u8>, MergeFault>
    requires head { head.now ≡ head_text names.now }
    ensures merged { IfOk result (λ out. IsMerged distinct offset limit input.now out.items) }
    ensures damaged { IfErr result (λ fault. fault ≡ Damaged → AreNoResults names.now input.now) }
{
    let columns = begun_columns(alloc, names)?;
    let mut rows = read_documents(alloc, input, head, &columns, names.len())?;
    order_rows(&mut rows, distinct)?;
    let made = document(alloc, head, sliced(&rows, offset, limit))?;
    Ok(made)
}

/// Merges the results of parts, one after the other, into the result of the whole: all rows in order, each once if they
/// are to be distinct, and of these the part that OFFSET and LIMIT leave.
///
/// # Errors
/// - `Damaged` if the input is not one or more results that `spq select` prints for the same variables, one after the other.
/// - `Memory` if an allocation fails.
pub fn merge(
    alloc: Global,
    input: &[u8],
    distinct: bool,
    offset: u64,
    limit: Option<u64>,
) -> Result<Vec<u8>, MergeFault>
    ensures merged { IfOk result (λ out. IsMerged distinct offset limit input.now out.items) }
    ensures damaged { IfErr result (λ fault. fault ≡ Damaged → AreResults input.now → ⊥) }
{
    let (names, rest) = read_head(alloc, input)?;
    let (head, _rows) = split_before(input, rest);
    let made = merge_rows(alloc, input, head, &names, distinct, offset, limit)?;
    Ok(made)
}
