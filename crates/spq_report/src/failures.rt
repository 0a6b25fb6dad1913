//! The message for each fault.

use crate::account::Account;
use nquads_core::Device;
use spq_command::{Command, message};
use spq_run::{RunFault, Stage, write_fault};
use std::alloc::{AllocError, Global};
use std::io;
use std::io::{Error, Write};

/// Writes the line of standard output again.
pub(crate) fn repeat<W: Write>(out: &mut W, fault: &RunFault) {
    let mut device = Device { inner: out };
    let _tried = write_fault(fault, &mut device);
}

/// Returns the message about the query of a command, if the command has a query.
fn text_of_query(alloc: Global, command: &Command) -> Option<String> {
    match command {
        Command::Select { query, .. } => {
            query_diagnosis::report(alloc, query.as_str())
                .ok()
                .flatten()
        }
        Command::Check { .. } | Command::Terms { .. } => None,
    }
}

/// Returns the message about a rejected query, if the command is known.
fn query_text(alloc: Global, account: &Account<'_>) -> Option<String> {
    let command = account.command(alloc)?;
    text_of_query(alloc, &command)
}

/// Writes the message about a rejected query.
pub(crate) fn rejected<W: Write>(
    out: &mut W,
    alloc: Global,
    account: &Account<'_>,
) -> io::Result<()> {
    match query_text(alloc, account) {
        Some(text) => out.write_all(text.as_bytes()),
        None => out.write_all(b"spq: query: this is not a query of SPARQL as spq reads it\n"),
    }
}

/// Writes the message about words that are not a valid command line, or the help that they request.
pub(crate) fn no_command<W: Write>(
    out: &mut W,
    alloc: Global,
    words: Option<&[String]>,
) -> io::Result<()> {
    let Some(words) = words else {
        return out.write_all(b"spq: command line: a word is not UTF-8\n");
    };
    match message(alloc, words).ok().flatten() {
        Some(text) => out.write_all(text.as_bytes()),
        None => out.write_all(b"spq: command line: the words are no command\n"),
    }
}

/// Writes what a run was doing when an allocation failed. Allocates nothing.
pub(crate) fn no_memory<W: Write>(out: &mut W, stage: Stage) -> io::Result<()> {
    let doing = match stage {
        Stage::Checking => "preparing to read the document",
        Stage::Reading => "reading the document",
        Stage::Indexing => "indexing the document",
        Stage::Evaluating => "evaluating the query",
        Stage::Printing => "printing the result",
    };
    writeln!(out, "spq: out of memory while {doing}")?;
    out.write_all(b"hint: docs/COST.md says how much memory a document and a query take\n")
}

/// Returns the number of workers of a command.
fn workers_of(command: &Command) -> usize {
    match command {
        Command::Select { reading, .. } | Command::Check { reading } | Command::Terms { reading } =>
            reading.workers,
    }
}

/// Returns the number of workers of a run, if it is known.
fn workers(alloc: Global, account: &Account<'_>) -> Option<usize> {
    let command = account.command(alloc)?;
    Some(workers_of(&command))
}

/// Writes which thread could not be started.
pub(crate) fn no_worker<W: Write>(
    out: &mut W,
    alloc: Global,
    account: &Account<'_>,
) -> io::Result<()> {
    match workers(alloc, account) {
        None => out.write_all(b"spq: a thread could not be started\nhint: use --workers 1\n"),
        Some(1) => out.write_all(
            b"spq: the thread of the query could not be started\nhint: see the limits of the system on threads and memory: ulimit -u, ulimit -v\n",
        ),
        Some(workers) => writeln!(
            out,
            "spq: a thread could not be started: {workers} workers were asked for\nhint: use --workers 1"
        ),
    }
}

/// Returns the text of an error, without the error number of the system.
fn error_text(alloc: Global, error: &Error) -> Result<String, AllocError> {
    let mut text = format!(in alloc; "{error}")?;
    if let Some(at) = text.as_str().find(" (os error ") {
        text.truncate(at);
    }
    Ok(text)
}

/// Returns the text of an error, if the error is known.
fn known_error_text(alloc: Global, error: Option<Error>) -> Option<String> {
    error_text(alloc, &error?).ok()
}

/// Writes why a device failed.
pub(crate) fn no_device<W: Write>(
    out: &mut W,
    alloc: Global,
    what: &str,
    error: Option<Error>,
    otherwise: &str,
) -> io::Result<()> {
    match known_error_text(alloc, error) {
        Some(text) => writeln!(out, "spq: cannot {what}: {text}"),
        None => writeln!(out, "spq: cannot {what}: {otherwise}"),
    }
}
