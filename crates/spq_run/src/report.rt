//! The line of a fault, and the status with which the program ends.
ghost use Rattle.std.specs.Prelude.{◌≡◌, ◌++◌, codes, decimal, IfErr, OnErr, OnOk};
ghost use Rattle.std.specs.Io.KnownBytes.{Appends};
ghost use Rattle.nquads_core.specs.Device.{Stays};
ghost use Rattle.nquads_core.specs.Transfer.{WroteBeginning};
ghost use Rattle.spq_run.specs.Report.{WroteOrFailed, exit_status, fault_line, query_line, status_of};
ghost use Rattle.spq_run.specs.Writing.{WriterFailed};

use crate::fault::RunFault;
use crate::writing::write_text;
use itoa::Buffer;
use nquads_core::{DeviceFailed, Sink};
use sparql_read::QueryFault;

/// Returns the status with which the program ends after a fault: 1 for a malformed line, 2 for a query, 3 for the
/// command line, 4 for memory or a worker, 5 for a reader or a writer. (0 is for no fault.)
pub fn status(fault: &RunFault) -> u8
    ensures status { result ≡ status_of fault.now }
{
    match fault {
        RunFault::BadLine(_) => 1,
        RunFault::Query(QueryFault::Memory) => 4,
        RunFault::Query(
            QueryFault::Syntax
            | QueryFault::UndefinedPrefix
            | QueryFault::RelativeIri
            | QueryFault::BindScope
            | QueryFault::BlankReuse
            | QueryFault::TooDeep,
        ) => 2,
        RunFault::Line => 3,
        RunFault::WorkerRefused => 4,
        RunFault::Memory => 4,
        RunFault::Read | RunFault::Write => 5,
    }
}

/// Returns the line of a rejected query.
fn line_of(fault: &QueryFault) -> &'static [u8]
    ensures line { result.now ≡ query_line fault.now }
{
    match fault {
        QueryFault::Syntax => b"error: query syntax\n",
        QueryFault::UndefinedPrefix => b"error: query prefix\n",
        QueryFault::RelativeIri => b"error: query relative iri\n",
        QueryFault::BindScope => b"error: query bind\n",
        QueryFault::BlankReuse => b"error: query blank label\n",
        QueryFault::TooDeep => b"error: query depth\n",
        QueryFault::Memory => b"error: memory\n",
    }
}

/// Writes two texts, one after the other.
fn write_both<K: Sink>(writer: &mut K, front: &[u8], back: &[u8]) -> Result<(), DeviceFailed>
    ensures written { OnOk result
        (Appends (K.held writer.old) (K.held writer.new) (front.now ++ back.now)) }
    ensures written_count { OnOk result (Stays (K.failures writer.old) (K.failures writer.new)) }
    ensures failed { OnErr result
        (WroteBeginning (K.held writer.old) (K.held writer.new) (front.now ++ back.now)) }
    ensures failed_count { OnErr result
        (WriterFailed K.write_gives (K.failures writer.old) (K.failures writer.new)
        (K.held writer.old) (K.held writer.new) (front.now ++ back.now) writer.new) }
{
    write_text(writer, front)?;
    write_text(writer, back)
}

/// Writes the number of a line, and a line feed.
fn write_number<K: Sink>(writer: &mut K, line: u128) -> Result<(), DeviceFailed>
    ensures written { OnOk result
        (Appends (K.held writer.old) (K.held writer.new) (decimal line ++ codes "\n")) }
    ensures written_count { OnOk result (Stays (K.failures writer.old) (K.failures writer.new)) }
    ensures failed { OnErr result
        (WroteBeginning (K.held writer.old) (K.held writer.new) (decimal line ++ codes "\n")) }
    ensures failed_count { OnErr result
        (WriterFailed K.write_gives (K.failures writer.old) (K.failures writer.new)
        (K.held writer.old) (K.held writer.new) (decimal line ++ codes "\n") writer.new) }
{
    let mut buffer = Buffer::new();
    write_both(writer, buffer.format(line).as_bytes(), b"\n")
}

/// Writes the line for a malformed line.
fn write_bad_line<K: Sink>(writer: &mut K, line: u128) -> Result<(), DeviceFailed>
    ensures written { OnOk result
        (Appends (K.held writer.old) (K.held writer.new)
        (codes "error: line " ++ (decimal line ++ codes "\n"))) }
    ensures written_count { OnOk result (Stays (K.failures writer.old) (K.failures writer.new)) }
    ensures failed { OnErr result
        (WroteBeginning (K.held writer.old) (K.held writer.new)
        (codes "error: line " ++ (decimal line ++ codes "\n"))) }
    ensures failed_count { OnErr result
        (WriterFailed K.write_gives (K.failures writer.old) (K.failures writer.new)
        (K.held writer.old) (K.held writer.new)
        (codes "error: line " ++ (decimal line ++ codes "\n")) writer.new) }
{
    match write_text(writer, b"error: line ") {
        Ok(()) => write_number(writer, line),
        Err(failed) => Err(failed),
    }
}

/// Writes the line of a rejected query.
fn write_query_fault<K: Sink>(writer: &mut K, fault: &QueryFault) -> Result<(), DeviceFailed>
    ensures written { OnOk result
        (Appends (K.held writer.old) (K.held writer.new) (query_line fault.now)) }
    ensures written_count { OnOk result (Stays (K.failures writer.old) (K.failures writer.new)) }
    ensures failed { OnErr result
        (WroteBeginning (K.held writer.old) (K.held writer.new) (query_line fault.now)) }
    ensures failed_count { OnErr result
        (WriterFailed K.write_gives (K.failures writer.old) (K.failures writer.new)
        (K.held writer.old) (K.held writer.new) (query_line fault.now) writer.new) }
{
    let line = line_of(fault);
    write_text(writer, line)
}

/// Writes the line of a fault, with a line feed. Allocates nothing.
///
/// # Errors
/// `DeviceFailed` if the writer fails, or if a write takes none of the next bytes of the line. A
/// beginning of the line was written, and not all of it. A writer that took none is as that write left
/// it, and none of its calls failed.
pub fn write_fault<K: Sink>(fault: &RunFault, writer: &mut K) -> Result<(), DeviceFailed>
    ensures written { OnOk result
        (Appends (K.held writer.old) (K.held writer.new) (fault_line fault.now)) }
    ensures written_count { OnOk result (Stays (K.failures writer.old) (K.failures writer.new)) }
    ensures failed { OnErr result
        (WroteBeginning (K.held writer.old) (K.held writer.new) (fault_line fault.now)) }
    ensures failed_count { OnErr result
        (WriterFailed K.write_gives (K.failures writer.old) (K.failures writer.new)
        (K.held writer.old) (K.held writer.new) (fault_line fault.now) writer.new) }
{
    match fault {
        RunFault::BadLine(line) => write_bad_line(writer, *line),
        RunFault::Query(fault) => write_query_fault(writer, fault),
        RunFault::Line => write_text(writer, b"error: command line\n"),
        RunFault::WorkerRefused => write_text(writer, b"error: worker\n"),
        RunFault::Memory => write_text(writer, b"error: memory\n"),
        RunFault::Read => write_text(writer, b"error: input\n"),
        RunFault::Write => write_text(writer, b"error: output\n"),
    }
}

/// Returns the status with which the program ends, 0 without a fault and otherwise that of the fault, and tries
/// once to write the fault's line.
///
/// This cannot fail. Without a fault, the writer is unchanged. If the writer fails, a prefix of the line was
/// written, and the status is still that of the fault.
pub fn finish<K: Sink>(done: &Result<(), RunFault>, writer: &mut K) -> u8
    ensures status { result ≡ exit_status done.now }
    ensures silent { OnOk done.now (writer.new ≡ writer.old) }
    ensures fault_written { IfErr done.now (λ fault. WroteOrFailed K.write_gives
        (K.failures writer.old) (K.failures writer.new) writer.new
        (K.held writer.old) (K.held writer.new) (fault_line fault)) }
{
    match done {
        Ok(()) => 0,
        Err(fault) => {
            let _tried = write_fault(fault, writer);
            status(fault)
        }
    }
}
