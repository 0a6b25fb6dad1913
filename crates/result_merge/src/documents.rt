//! Results, as `spq select` prints them (SPARQL 1.1 Query Results JSON Format, sections 3.1 and 3.2).
ghost use Rattle.std.specs.Prelude.{◌≡◌, [], ◌∷◌, ◌++◌, ℕ, List, map, flat_map, IfErr, IfOk, MatchResult, OnOk};
ghost use Rattle.result_json.specs.Results.{separated, string_text};
ghost use Rattle.result_json.specs.Texts.{head_text};
ghost use Rattle.algebra_model.specs.Pieces.{joined};
ghost use Rattle.algebra_model.specs.Renaming.{Each};
ghost use Rattle.result_merge.specs.Absent.{AreNoDocuments, AreNoNames, AreNoRows, IsAfterDocument, IsAfterRows, IsNoDocument, IsNoHead};
ghost use Rattle.result_merge.specs.Reading.{HavePlaces, IsRead, ReadRow, comma, document_text, texts_of};
ghost use Rattle.result_merge.specs.declared.fault.MergeFault.TheVariants.{Damaged};

use crate::fault::MergeFault;
use crate::rows::{Column, ReadRow, after_comma, read_row};
use crate::strings::{after, begins_with, read_string};
use rdf_core::Text;
use std::alloc::{AllocError, Global};

/// Splits off a comma, unless this is the first element, or returns `Damaged`.
fn skip_comma(bytes: &[u8], later: bool) -> Result<&[u8], MergeFault>
    ensures parts { MatchResult result (λ rest. bytes.now ≡ comma later ++ rest.now)
        (λ _. (rest : List ℕ) → bytes.now ≡ comma later ++ rest → ⊥) }
{
    match after_comma(bytes, later) {
        Some(rest) => Ok(rest),
        None => Err(MergeFault::Damaged),
    }
}

/// Appends a name.
fn push_name(names: &mut Vec<Text>, name: Text) -> Result<(), AllocError>
    ensures pushed { OnOk result (names.new.items ≡ names.old.items ++ name ∷ []) }
{
    names.push(name)?;
    Ok(())
}

/// Appends a row.
fn push_row<'a>(rows: &mut Vec<ReadRow<'a>>, row: ReadRow<'a>) -> Result<(), AllocError>
    ensures pushed { OnOk result (rows.new.items ≡ rows.old.items ++ row.entry ∷ []) }
{
    rows.push(row)?;
    Ok(())
}

/// Reads the names of the variables.
fn read_names<'a>(alloc: Global, bytes: &'a [u8]) -> Result<(Vec<Text>, &'a [u8]), MergeFault>
    ensures parts { IfOk result (λ r. bytes.now ≡ separated (map string_text r.0.items) ++ r.1.now) }
    ensures closed { IfOk result (λ r. (rest : List ℕ) × (r.1.now ≡ 93 ∷ rest)) }
    ensures damaged { IfErr result (λ fault. fault ≡ Damaged → AreNoNames bytes.now) }
{
    let mut names = Vec::new(alloc);
    let mut rest = bytes;
    let mut later = false;
    'reading: while !begins_with(rest, b"]") {
        let next = skip_comma(rest, later)?;
        let (name, end) = read_string(alloc, next)?;
        push_name(&mut names, name)?;
        rest = end;
        later = true;
    }
    Ok((names, rest))
}

/// Reads what precedes the rows.
///
/// # Errors
/// - `Damaged` if the bytes do not begin with a result.
/// - `Memory` if an allocation fails.
pub(crate) fn read_head<'a>(
    alloc: Global,
    bytes: &'a [u8],
) -> Result<(Vec<Text>, &'a [u8]), MergeFault>
    ensures parts { IfOk result (λ r. bytes.now ≡ head_text r.0.items ++ r.1.now) }
    ensures damaged { IfErr result (λ fault. fault ≡ Damaged → IsNoHead bytes.now) }
{
    let list = after(bytes, b"{\"head\":{\"vars\":[")?;
    let (names, closing) = read_names(alloc, list)?;
    let rows = after(closing, b"]},\"results\":{\"bindings\":[")?;
    Ok((names, rows))
}

/// Reads the rows of a result, and appends them.
fn read_rows<'a>(
    alloc: Global,
    bytes: &'a [u8],
    columns: &[Column],
    width: usize,
    read: &mut Vec<ReadRow<'a>>,
) -> Result<&'a [u8], MergeFault>
    requires places { HavePlaces width columns.now }
    ensures rows { IfOk result (λ rest. (table : List ReadRow) × (read.new.items ≡ read.old.items ++ table)
        × Each (IsRead width columns.now) table × (bytes.now ≡ separated (texts_of table) ++ rest.now)) }
    ensures after { IfOk result (λ rest. IsAfterRows columns.now bytes.now rest.now) }
    ensures damaged { IfErr result (λ fault. fault ≡ Damaged → AreNoRows columns.now bytes.now) }
{
    let mut rest = bytes;
    let mut later = false;
    'reading: while !begins_with(rest, b"]") {
        let next = skip_comma(rest, later)?;
        let (row, end) = read_row(alloc, next, columns, width)?;
        push_row(read, row)?;
        rest = end;
        later = true;
    }
    Ok(rest)
}

/// Reads a result with this head, and appends its rows.
fn read_document<'a>(
    alloc: Global,
    bytes: &'a [u8],
    head: &[u8],
    columns: &[Column],
    width: usize,
    read: &mut Vec<ReadRow<'a>>,
) -> Result<&'a [u8], MergeFault>
    requires places { HavePlaces width columns.now }
    ensures rows { IfOk result (λ rest. (table : List ReadRow) × (read.new.items ≡ read.old.items ++ table)
        × Each (IsRead width columns.now) table × (bytes.now ≡ document_text head.now table ++ rest.now)) }
    ensures after { IfOk result (λ rest. IsAfterDocument head.now columns.now bytes.now rest.now) }
    ensures damaged { IfErr result (λ fault. fault ≡ Damaged → IsNoDocument head.now columns.now bytes.now) }
{
    let rows = after(bytes, head)?;
    let closing = read_rows(alloc, rows, columns, width, read)?;
    let end = after(closing, b"]}}\n")?;
    Ok(end)
}

/// Reads results with this head, one after the other, and appends their rows.
///
/// # Errors
/// - `Damaged` if the bytes are not such results.
/// - `Memory` if an allocation fails.
pub(crate) fn read_documents<'a>(
    alloc: Global,
    bytes: &'a [u8],
    head: &[u8],
    columns: &[Column],
    width: usize,
) -> Result<Vec<ReadRow<'a>>, MergeFault>
    requires places { HavePlaces width columns.now }
    ensures rows { IfOk result (λ read. (tables : List (List ReadRow)) × (read.items ≡ joined tables)
        × Each (Each (IsRead width columns.now)) tables × (bytes.now ≡ flat_map (document_text head.now) tables)) }
    ensures damaged { IfErr result (λ fault. fault ≡ Damaged → AreNoDocuments head.now columns.now bytes.now) }
{
    let mut read = Vec::new(alloc);
    let mut rest = bytes;
    while !rest.is_empty() {
        let end = read_document(alloc, rest, head, columns, width, &mut read)?;
        rest = end;
    }
    Ok(read)
}
