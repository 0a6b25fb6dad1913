//! The messages about the malformed lines of a document.
//!
//! Each of the first twenty lines has a whole message, in the order of the document. A hint is shown once for each
//! reason. If there are more lines than one, a summary follows: how many there are, and for each reason how many and the
//! first of them, the most frequent first.

use crate::failures::repeat;
use crate::grouped::grouped;
use dataset_load::Listing;
use line_diagnosis::{Counted, LineContext, Summary, report, report_without_hint};
use malformed_lines::{MalformedLine, ReasonCount};
use spq_run::RunFault;
use std::alloc::{AllocError, Global};
use std::cmp::Reverse;
use std::io;
use std::io::Write;

/// What follows a list that lacks lines.
const INCOMPLETE: &[u8] =
    b"spq: there may be more malformed lines: memory or threads ran out before all were listed\n";

/// What the message about a line depends on, apart from the line.
#[derive(Drop)]
struct Before {
    /// The reasons of the lines before it.
    reasons: Vec<Summary>,
    /// Whether a line before it is known to have a character beyond ASCII.
    is_after_utf8: bool,
}

/// Returns whether a line has a character beyond ASCII, and is UTF-8.
fn is_beyond_ascii(line: &[u8]) -> bool {
    !line.is_ascii() && str::from_utf8(line).is_ok()
}

impl Before {
    /// Creates what the message about the first malformed line of a document depends on.
    fn new(alloc: Global, is_after_utf8: bool) -> Before {
        Before {
            reasons: Vec::new(alloc),
            is_after_utf8,
        }
    }

    /// Returns the message about the next line. Returns None if the place in it is not known.
    fn message(
        &mut self,
        alloc: Global,
        line: &MalformedLine,
    ) -> Result<Option<String>, AllocError> {
        let Some(diagnosis) = line.diagnosis() else {
            return Ok(None);
        };
        let reason = diagnosis.reason.summary();
        let context = LineContext {
            number: line.number,
            is_cut: line.is_cut,
            is_after_utf8: self.is_after_utf8,
        };
        self.is_after_utf8 |= is_beyond_ascii(&line.bytes);
        if self.reasons.contains(&reason) {
            return report_without_hint(alloc, &line.bytes, line.number);
        }
        self.reasons.push(reason)?;
        report(alloc, &line.bytes, &context)
    }
}

/// Writes that a line is malformed, without its place.
fn write_number<W: Write>(out: &mut W, number: u128) -> io::Result<()> {
    writeln!(out, "spq: line {number}: this is not a line of N-Quads")
}

/// Writes the message about the next line.
fn write_line<W: Write>(
    out: &mut W,
    alloc: Global,
    before: &mut Before,
    line: &MalformedLine,
) -> io::Result<()> {
    match before.message(alloc, line).ok().flatten() {
        Some(text) => out.write_all(text.as_bytes()),
        None => write_number(out, line.number),
    }
}

/// Returns the message about the first malformed line, after the line of standard output if that is repeated.
pub(crate) fn first_message(
    alloc: Global,
    line: &MalformedLine,
    is_after_utf8: bool,
    is_repeated: bool,
) -> io::Result<Vec<u8>> {
    let mut text = Vec::new(alloc);
    if is_repeated {
        repeat(&mut text, &RunFault::BadLine(line.number));
    }
    let mut before = Before::new(alloc, is_after_utf8);
    match before.message(alloc, line)? {
        Some(message) => text.extend_from_slice(message.as_bytes())?,
        None => write_number(&mut text, line.number)?,
    }
    Ok(text)
}

/// The number of malformed lines with a reason, and the reason, in words.
#[derive(Drop)]
struct Row {
    count: String,
    reason: ReasonCount,
}

/// Returns the reasons, the most frequent first. Reasons of one frequency have the order of their first lines.
fn sorted(alloc: Global, reasons: &[ReasonCount]) -> Result<Vec<ReasonCount>, AllocError> {
    let mut sorted = Vec::from_slice(alloc, reasons)?;
    sorted.sort_by_key(|reason| Reverse(reason.count))?;
    Ok(sorted)
}

/// Returns the rows of the reasons, the most frequent first.
fn rows(alloc: Global, reasons: &[ReasonCount]) -> Result<Vec<Row>, AllocError> {
    let mut rows = Vec::new(alloc);
    for reason in &sorted(alloc, reasons)? {
        rows.push(Row {
            count: grouped(alloc, reason.count)?,
            reason: *reason,
        })?;
    }
    Ok(rows)
}

/// Writes a row, with its count in this number of columns.
fn write_row<W: Write>(out: &mut W, row: &Row, width: usize) -> io::Result<()> {
    let unit = match row.reason.counted {
        Counted::Characters => "column",
        Counted::Bytes => "byte",
    };
    let ReasonCount {
        reason,
        first,
        column,
        ..
    } = &row.reason;
    for _ in row.count.len()..width {
        out.write_all(b" ")?;
    }
    writeln!(
        out,
        "  {}  {reason} (first: line {first}, {unit} {column})",
        row.count
    )
}

/// Writes how many lines are malformed, and for each reason how many and the first of them.
fn write_summary<W: Write>(out: &mut W, alloc: Global, listing: &Listing) -> io::Result<()> {
    let total = grouped(alloc, listing.list.total)?;
    writeln!(out, "spq: {total} malformed lines")?;
    let rows = rows(alloc, &listing.list.reasons.counts)?;
    let width = rows.first().map_or(0, |row| row.count.len());
    for row in &rows {
        write_row(out, row, width)?;
    }
    Ok(())
}

/// Writes the messages about the lines that are kept. That about the first one is left out if it is told already.
fn write_lines<W: Write>(
    out: &mut W,
    alloc: Global,
    listing: &Listing,
    is_first_told: bool,
) -> io::Result<()> {
    let mut before = Before::new(alloc, listing.is_after_utf8);
    for (i, line) in listing.list.shown.iter().enumerate() {
        if i == 0 && is_first_told {
            let _told = before.message(alloc, line);
        } else {
            write_line(out, alloc, &mut before, line)?;
        }
    }
    Ok(())
}

/// Writes the messages about the malformed lines of a document, of which the first one has this number. The message
/// about the first one is left out if it is told already. If an allocation fails, messages are shorter.
pub(crate) fn write_malformed<W: Write>(
    out: &mut W,
    alloc: Global,
    number: u128,
    listing: Option<&Listing>,
    is_first_told: bool,
) -> io::Result<()> {
    let Some(listing) = listing else {
        return if is_first_told {
            Ok(())
        } else {
            write_number(out, number)
        };
    };
    if listing.list.shown.is_empty() {
        write_number(out, number)?;
    }
    write_lines(out, alloc, listing, is_first_told)?;
    if listing.list.total > 1 {
        write_summary(out, alloc, listing)?;
    }
    if !listing.is_complete {
        out.write_all(INCOMPLETE)?;
    }
    Ok(())
}
