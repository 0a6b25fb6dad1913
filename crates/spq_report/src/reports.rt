//! The message about a run.

use crate::account::Account;
use crate::failures::{no_command, no_device, no_memory, no_worker, rejected, repeat};
use crate::malformed::write_malformed;
use crate::notes::notes_after;
use spq_run::RunFault;
use std::alloc::Global;
use std::io;
use std::io::Write;

/// Writes the messages about malformed lines, of which the first one has this number.
fn bad_lines<W: Write>(
    out: &mut W,
    alloc: Global,
    number: u128,
    account: &Account<'_>,
) -> io::Result<()> {
    let listing = account.notes.malformed.as_ref();
    write_malformed(out, alloc, number, listing, account.is_first_told)
}

/// Returns whether the line of a fault is repeated now. It is before the message about the first malformed line.
fn is_repeated(fault: &RunFault, account: &Account<'_>) -> bool {
    let is_told = account.is_first_told && matches!(fault, RunFault::BadLine(_));
    account.is_repeated && !is_told
}

/// Writes the message for a fault.
fn failure<W: Write>(
    out: &mut W,
    alloc: Global,
    fault: &RunFault,
    account: &Account<'_>,
) -> io::Result<()> {
    if is_repeated(fault, account) {
        repeat(out, fault);
    }
    match fault {
        RunFault::BadLine(number) => bad_lines(out, alloc, *number, account),
        RunFault::Query(_) => rejected(out, alloc, account),
        RunFault::Line => no_command(out, alloc, account.words),
        RunFault::Memory => no_memory(out, account.notes.stage),
        RunFault::WorkerRefused => no_worker(out, alloc, account),
        RunFault::Read => no_device(
            out,
            alloc,
            "read standard input",
            account.read_error,
            "the device failed",
        ),
        RunFault::Write => no_device(
            out,
            alloc,
            "write standard output",
            account.write_error,
            "it takes no more bytes",
        ),
    }
}

/// Writes the message about a run with this result: the message for its fault, or its notes.
///
/// # Errors
/// The error of the writer. A part of the message may have been written.
pub fn report<W: Write>(
    out: &mut W,
    alloc: Global,
    done: &Result<(), RunFault>,
    account: &Account<'_>,
) -> io::Result<()> {
    match done {
        Err(fault) => failure(out, alloc, fault, account),
        Ok(()) => match notes_after(alloc, account) {
            Some(text) => out.write_all(text.as_bytes()),
            None => Ok(()),
        },
    }
}
