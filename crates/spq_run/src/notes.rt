//! Notes that a run takes for messages to the user. No clause and no output depends on them.

use dataset_load::{Listing, LoadListener};
use expression_errors::ErrorCounts;
use malformed_lines::MalformedLine;
use piece_pool::PoolFault;
use query_notes::Outline;

/// What a run is doing.
#[derive(Clone, Copy)]
pub enum Stage {
    /// Checking the command line and the query, and planning the query.
    Checking,
    /// Reading the document and its lines.
    Reading,
    /// Numbering the terms and sorting the quads.
    Indexing,
    /// Evaluating the query.
    Evaluating,
    /// Composing the output, and writing it.
    Printing,
}

/// Callbacks of a run at the beginning of its stages, when the first malformed line is known, and when a call has failed.
pub trait Progress: LoadListener {
    /// Runs when this stage begins. A run does not call this for `Indexing`, which begins at the end of the reader.
    fn begin(&self, stage: Stage);
}

/// A `Progress` that does nothing.
#[derive(Clone, Copy)]
pub struct NoProgress;

impl LoadListener for NoProgress {
    fn found(&self, _line: &MalformedLine, _is_after_utf8: bool) {}

    fn failed(&self, _cause: PoolFault) {}
}

impl Progress for NoProgress {
    fn begin(&self, _stage: Stage) {}
}

/// The notes of a run.
#[derive(Drop)]
pub struct Notes {
    /// The last stage that began.
    pub stage: Stage,
    /// The malformed lines of the document, if the number of the first one was returned and there was memory for them.
    pub malformed: Option<Listing>,
    /// The outline of the query that was evaluated, if there was memory for it.
    pub outline: Option<Outline>,
    /// The rows over which expressions of its query were errors, if there was memory to count them.
    pub counts: Option<ErrorCounts>,
    /// Whether all quads of the document are in named graphs, and some are.
    pub is_named_only: bool,
}

impl Notes {
    /// Returns the notes of a run that has not begun.
    pub fn new() -> Notes {
        Notes {
            stage: Stage::Checking,
            malformed: None,
            outline: None,
            counts: None,
            is_named_only: false,
        }
    }
}
