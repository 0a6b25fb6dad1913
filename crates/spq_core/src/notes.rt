//! How a run takes its notes. No clause and no output depends on them.

use dataset_load::LoadNotes;
use expression_errors::ErrorCounts;
use query_notes::{Outline, keys_of, outline_of};
use sparql_algebra::Plan;
use spq_run::{Notes, Progress, Stage};
use std::alloc::{AllocError, Global};

/// The notes of a run, and the progress that it calls.
pub(crate) struct Log<'p, P> {
    notes: Notes,
    progress: &'p P,
}

impl<'p, P> Drop for Log<'p, P> {
    /// Drops the notes. Written by hand (docs/PROOF.md).
    fn drop(self) {
        let Log {
            notes: _,
            progress: _,
        } = self;
    }
}

impl<'p, P: Progress> Log<'p, P> {
    /// Creates a log without notes.
    pub(crate) fn new(progress: &'p P) -> Log<'p, P> {
        Log {
            notes: Notes::new(),
            progress,
        }
    }

    /// Returns what was noted.
    pub(crate) fn into_notes(self) -> Notes {
        let Log { notes, progress: _ } = self;
        notes
    }

    /// Returns the progress that the log calls.
    pub(crate) fn progress(&self) -> &'p P {
        self.progress
    }

    /// Notes that a stage begins.
    pub(crate) fn begin(&mut self, stage: Stage) {
        self.notes.stage = stage;
        self.progress.begin(stage);
    }

    /// Adds the notes of loading the document.
    pub(crate) fn loaded(&mut self, loading: LoadNotes) {
        let LoadNotes {
            malformed,
            is_read,
            has_default,
            has_named,
        } = loading;
        if is_read {
            self.notes.stage = Stage::Indexing;
        }
        self.notes.malformed = malformed;
        self.notes.is_named_only = has_named && !has_default;
    }

    /// Notes the query that is evaluated.
    pub(crate) fn queried(&mut self, alloc: Global, text: &str) {
        self.notes.outline = outline_of(alloc, text).ok();
    }

    /// Notes the plan that is evaluated. Without memory, or without the text of its query, the errors
    /// of its expressions are not counted.
    pub(crate) fn planned(&mut self, alloc: Global, plan: &Plan) {
        if let Some(outline) = &self.notes.outline {
            self.notes.counts = counts_of(alloc, outline, plan).ok();
        }
    }

    /// Returns the counts of the errors of the plan's expressions.
    pub(crate) fn counts(&self) -> Option<&ErrorCounts> {
        self.notes.counts.as_ref()
    }
}

/// Returns the counts for an evaluation of a plan, which is that of the query with this outline.
fn counts_of(alloc: Global, outline: &Outline, plan: &Plan) -> Result<ErrorCounts, AllocError> {
    ErrorCounts::new(alloc, keys_of(alloc, outline, plan)?)
}
