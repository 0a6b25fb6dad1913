//! Notes that loading takes for messages, and who is told of the first malformed line and of failures.
ghost use Rattle.piece_pool.specs.declared.pool.PoolFault.{PoolFault};

use malformed_lines::{MalformedLine, MalformedLines};
use piece_pool::PoolFault;

/// The malformed lines of what was read.
#[derive(Drop)]
pub struct Listing {
    /// The malformed lines.
    pub list: MalformedLines,
    /// Whether these are all of them. If not, an allocation failed before the end, a worker could not be started, or the
    /// document has more than 2^40 rounds.
    pub is_complete: bool,
    /// Whether a line before the first malformed one is known to have a character beyond ASCII. The lines before it
    /// are UTF-8.
    pub is_after_utf8: bool,
}

/// Notes that loading takes for messages: about a failure, and about the graphs of the document.
#[derive(Drop)]
pub struct LoadNotes {
    /// The malformed lines, if the result is the number of the first.
    pub malformed: Option<Listing>,
    /// Whether all lines were read, so that only sorting was left.
    pub is_read: bool,
    /// Whether the document has a quad in the default graph. Known once all lines were read. The filter plays no part.
    pub has_default: bool,
    /// Whether the document has a quad in a named graph, likewise.
    pub has_named: bool,
}

impl LoadNotes {
    /// Creates empty notes.
    pub fn new() -> LoadNotes {
        LoadNotes {
            malformed: None,
            is_read: false,
            has_default: false,
            has_named: false,
        }
    }
}

/// Callbacks of loading: for the message about the first malformed line, and for failures.
///
/// Any code can make the error of an allocation, so no contract can say that an allocation failed. What a contract can say is
/// that the listener was told of it: only a call of [`failed`](LoadListener::failed) makes `fails` known. The clauses of
/// loading hold for every listener, so `Memory` and `WorkerRefused` are returned only after such a call.
pub trait LoadListener {
    /// What is known of a failure once the listener was told of it. Not exposed: nothing.
    ghost fails: { PoolFault → Type 0 } = { λ _. Unit {0} };

    /// Runs at most once, on the thread of the caller: with the first malformed line of the document, before the rest
    /// of the reader is listed. `is_after_utf8` is as in [`Listing`].
    fn found(&self, line: &MalformedLine, is_after_utf8: bool);

    /// Runs on the thread of the caller when a call that loading made has failed: an allocation failed, the document has
    /// more than 2^34 - 2 distinct terms, or the runtime provided no random numbers (`Memory`); or a worker thread could
    /// not be started (`WorkerRefused`).
    fn failed(&self, cause: PoolFault)
        ensures known { fails cause };
}

/// The listener that does nothing.
#[derive(Clone, Copy)]
pub struct NoListener;

impl LoadListener for NoListener {
    fn found(&self, _line: &MalformedLine, _is_after_utf8: bool) {}

    fn failed(&self, _cause: PoolFault) {}
}
