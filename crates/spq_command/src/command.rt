//! Commands of the program.
ghost use Rattle.std.specs.Prelude.{◌≤◌};
ghost use Rattle.spq_command.specs.Limits.{piece_limit, workers_limit};

use rdf_core::Text;

/// How a document is read. No output depends on it.
#[derive(Clone, Copy, Debug, Drop)]
pub struct ReadOptions {
    /// The number of workers: 1 to 64.
    pub workers: usize,
    /// The smallest size of a block, in bytes: 1 to 1,073,741,824.
    pub piece: usize,
    ghost workers_some: { 1 ≤ workers },
    ghost workers_most: { workers ≤ workers_limit },
    ghost piece_some: { 1 ≤ piece },
    ghost piece_most: { piece ≤ piece_limit },
}

/// What the program does.
#[derive(Debug, Drop)]
pub enum Command {
    /// Print the result of a query.
    Select {
        /// The text of the query.
        query: Text,
        /// How the document is read.
        reading: ReadOptions,
        /// The largest number of rows of a task of the evaluation.
        rows: usize,
    },
    /// Print the numbers of quads, terms and graphs of the document.
    Check {
        /// How the document is read.
        reading: ReadOptions,
    },
    /// Print the terms of the document.
    Terms {
        /// How the document is read.
        reading: ReadOptions,
    },
}
