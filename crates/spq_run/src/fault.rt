//! Why a command was not done.

use sparql_read::QueryFault;
use thiserror::Error;

/// Why a command was not done.
#[derive(Clone, Copy, Debug, Drop, Error, PartialEq, Eq)]
pub enum RunFault {
    /// The first rule that rejects the query. A run never returns its `Memory`.
    #[error("the query is rejected")]
    Query(QueryFault),
    /// The line of the document, counted from 1, is the first malformed line.
    #[error("line {0} is malformed")]
    BadLine(u128),
    /// A worker thread could not be started. Those that were started have been joined.
    #[error("a worker thread could not be started")]
    WorkerRefused,
    /// Out of memory.
    #[error("out of memory")]
    Memory,
    /// The reader failed.
    #[error("the reader failed")]
    Read,
    /// The writer failed, or took no byte of a text that was not empty.
    #[error("the writer failed")]
    Write,
    /// The words are not a valid command line. A run of a command never returns this.
    #[error("the command line is not valid")]
    Line,
}
