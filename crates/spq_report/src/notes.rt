//! The notes on the query of a run without a failure.

use crate::account::Account;
use query_notes::notes_on;
use std::alloc::Global;

/// Returns the notes after a run without a failure, each on its own line. Returns None if the run evaluated no
/// query, or if an allocation fails.
pub(crate) fn notes_after(alloc: Global, account: &Account<'_>) -> Option<String> {
    let notes = account.notes;
    let outline = notes.outline.as_ref()?;
    notes_on(alloc, outline, notes.counts.as_ref(), notes.is_named_only).ok()
}
