//! The line of a fault, and the status with which the program ends.
ghost use Rattle.std.specs.Prelude.{◌≡◌, ◌+◌, ◌++◌, codes, decimal, IfOk};
ghost use Rattle.part_core.specs.Report.{fault_line, status_of};

use crate::fault::PartFault;
use itoa::Buffer;
use std::alloc::{AllocError, Global};

/// Returns the status with which the program ends after a fault.
pub fn status(fault: &PartFault) -> u8
    ensures status { result ≡ status_of fault.now }
{
    match fault {
        PartFault::BadLine(_) => 1,
        PartFault::Query => 2,
        PartFault::Line | PartFault::Split | PartFault::Sum | PartFault::Offset => 3,
        PartFault::Memory => 4,
        PartFault::Read | PartFault::Write | PartFault::Version | PartFault::Damaged => 5,
    }
}

/// Returns the line of a malformed line, which is counted from 0.
fn bad_line(alloc: Global, line: u64) -> Result<Vec<u8>, AllocError>
    ensures line { IfOk result
        (λ text. text.items ≡ codes "error: line " ++ (decimal (line + 1) ++ codes "\n")) }
{
    let mut buffer = Buffer::new();
    let mut text = Vec::new(alloc);
    text.extend_from_slice(b"error: line ")?;
    text.extend_from_slice(buffer.format(line as u128 + 1).as_bytes())?;
    text.extend_from_slice(b"\n")?;
    Ok(text)
}

/// Returns the line of a fault, with a line feed.
///
/// # Errors
/// `AllocError` if an allocation fails.
pub fn line_of(alloc: Global, fault: &PartFault) -> Result<Vec<u8>, AllocError>
    ensures line { IfOk result (λ text. text.items ≡ fault_line fault.now) }
{
    let text: &[u8] = match fault {
        PartFault::BadLine(line) => return bad_line(alloc, *line),
        PartFault::Version => b"error: version\n",
        PartFault::Damaged => b"error: damaged\n",
        PartFault::Memory => b"error: memory\n",
        PartFault::Read => b"error: input\n",
        PartFault::Write => b"error: output\n",
        PartFault::Line => b"error: command line\n",
        PartFault::Query => b"error: query\n",
        PartFault::Split | PartFault::Sum | PartFault::Offset => b"error: split\n",
    };
    Vec::from_slice(alloc, text)
}
