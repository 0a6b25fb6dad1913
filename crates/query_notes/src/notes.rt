//! All notes on a query that was evaluated.

ghost use Rattle.std.specs.Prelude.{◌≡◌, ◌≤◌, ◌<◌, ◌++◌, All, AllPairs, IfOk, OnOk, flat_map, length, string_bytes, true};
ghost use Rattle.query_notes.specs.Notes.{AreNotes, IsNoteOf, IsRowNote, most_notes};
ghost use Rattle.query_notes.specs.Speaking.{speaks};

use crate::causes::{note_of, speaks};
use crate::features::{push_graphs, push_tags, push_variables};
use crate::outline::Outline;
use expression_errors::{ErrorCounts, Tally};
use std::alloc::{AllocError, Global};

/// The largest number of notes on rows.
const MOST_NOTES: usize = 10;

/// A note on rows, and what decides its place among them.
#[derive(Drop, PartialEq, Eq, PartialOrd, Ord)]
pub struct RowNote {
    /// The number of the first expression.
    pub first: Option<usize>,
    /// The FILTER of its group.
    pub filter: usize,
    /// The note, with its line feed.
    pub text: String,
    /// The number of rows.
    pub rows: u64,
}

/// Returns the notes on the query with this outline, each on its own line: on the query alone, then on
/// the rows that `counts` has, at most ten, most rows first. `is_named_only` says whether all quads are
/// in named graphs, and some are.
///
/// # Errors
/// `AllocError` if an allocation fails.
pub fn notes_on(
    alloc: Global,
    outline: &Outline,
    counts: Option<&ErrorCounts>,
    is_named_only: bool,
) -> Result<String, AllocError>
    ensures notes { IfOk result (λ text. AreNotes (string_bytes text)) }
{
    let mut notes = Vec::new(alloc);
    push_variables(&mut notes, alloc, outline)?;
    push_tags(&mut notes, alloc, outline)?;
    push_graphs(&mut notes, alloc, outline, is_named_only)?;
    let on_rows = notes_on_rows(alloc, outline, counts)?;
    joined(alloc, &notes, &on_rows)
}

/// Returns the texts of notes, one after the other.
fn joined(alloc: Global, notes: &[String], on_rows: &[RowNote]) -> Result<String, AllocError>
    ensures joined { IfOk result (λ text. string_bytes text
        ≡ flat_map string_bytes notes.now ++ flat_map (λ note. string_bytes note.text) on_rows.now) }
{
    let mut out = String::new(alloc);
    for note in notes {
        out.push_str(note.as_str())?;
    }
    for row in on_rows {
        out.push_str(row.text.as_str())?;
    }
    Ok(out)
}

/// Returns the first notes on rows, if rows were counted.
fn notes_on_rows(
    alloc: Global,
    outline: &Outline,
    counts: Option<&ErrorCounts>,
) -> Result<Vec<RowNote>, AllocError>
    ensures counted { IfOk result (λ notes. All IsRowNote notes.items) }
    ensures most_first { IfOk result (λ notes. AllPairs (λ one later. later.rows ≤ one.rows) notes.items) }
    ensures few { IfOk result (λ notes. length notes.items ≤ most_notes) }
{
    match counts {
        Some(counts) => first_notes(alloc, outline, counts),
        None => Ok(Vec::new(alloc)),
    }
}

/// Returns the first notes on rows, most rows first, those with equal numbers in the order of the text.
fn first_notes(
    alloc: Global,
    outline: &Outline,
    counts: &ErrorCounts,
) -> Result<Vec<RowNote>, AllocError>
    ensures counted { IfOk result (λ notes. All IsRowNote notes.items) }
    ensures most_first { IfOk result (λ notes. AllPairs (λ one later. later.rows ≤ one.rows) notes.items) }
    ensures few { IfOk result (λ notes. length notes.items ≤ most_notes) }
{
    let mut notes = row_notes(alloc, outline, counts)?;
    notes.sort()?;
    notes.sort_by_key(|note| u64::MAX - note.rows)?;
    notes.truncate(MOST_NOTES);
    Ok(notes)
}

/// Returns the notes on the counts that are worth one.
fn row_notes(
    alloc: Global,
    outline: &Outline,
    counts: &ErrorCounts,
) -> Result<Vec<RowNote>, AllocError>
    ensures counted { IfOk result (λ notes. All IsRowNote notes.items) }
{
    let tallies = counts.tallies(alloc)?;
    let mut notes = Vec::new(alloc);
    for tally in &tallies {
        push_note(&mut notes, alloc, outline, tally)?;
    }
    Ok(notes)
}

/// Appends the note on a count if it is worth one.
fn push_note(
    notes: &mut Vec<RowNote>,
    alloc: Global,
    outline: &Outline,
    tally: &Tally,
) -> Result<(), AllocError>
    requires some { 0 < tally.now.rows }
    requires counted { All IsRowNote notes.old.items }
    ensures counted { OnOk result (All IsRowNote notes.new.items) }
{
    if !speaks(tally) {
        return Ok(());
    }
    match note_of(alloc, outline, tally)? {
        Some(text) => push_text(notes, tally, tally.rows, text),
        None => Ok(()),
    }
}

/// Appends the note on a count with this number of rows.
fn push_text(
    notes: &mut Vec<RowNote>,
    tally: &Tally,
    rows: u64,
    text: String,
) -> Result<(), AllocError>
    requires rows { rows ≡ tally.now.rows }
    requires some { 0 < tally.now.rows }
    requires speaks { speaks tally.now ≡ true }
    requires text { IsNoteOf tally.now (string_bytes text) }
    requires counted { All IsRowNote notes.old.items }
    ensures counted { OnOk result (All IsRowNote notes.new.items) }
{
    notes.push(RowNote {
        first: tally.expressions.first().copied(),
        filter: tally.filter,
        text,
        rows,
    })?;
    Ok(())
}
