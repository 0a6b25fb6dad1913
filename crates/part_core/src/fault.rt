//! Why a command was not done.
ghost use Rattle.std.specs.Prelude.{◌≡◌};
ghost use Rattle.part_core.specs.Faults.{of_merge, of_piece, of_read, of_seal};
ghost use Rattle.part_core.specs.Refused.{fault_of};

use cluster_parts::SealFault;
use nquads_core::{PieceFault, ReadFault};
use query_plan::PlanFault;
use result_merge::MergeFault;

/// Why a command was not done.
#[derive(Clone, Copy)]
pub enum PartFault {
    /// The line of the block, counted from 0, is the first malformed line.
    BadLine(u64),
    /// The input was written by another version of the program, or by another program.
    Version,
    /// The input was damaged on its way.
    Damaged,
    /// Out of memory.
    Memory,
    /// The reader failed.
    Read,
    /// The writer failed, or took no byte of a text that was not empty.
    Write,
    /// The words are not a valid command line.
    Line,
    /// A rule rejects the query.
    Query,
    /// The query cannot be evaluated on the parts of this split.
    Split,
    /// The sum of OFFSET and LIMIT is above the largest number.
    Sum,
    /// The text of the query could not be rewritten for the parts.
    Offset,
}

impl PartFault {
    /// Returns the fault of a block or a document, under the same name.
    pub(crate) fn of_piece(fault: PieceFault) -> PartFault
        ensures value { result ≡ of_piece fault }
    {
        match fault {
            PieceFault::BadLine(line) => PartFault::BadLine(line),
            PieceFault::Memory => PartFault::Memory,
        }
    }

    /// Returns the fault of a sealed text, under the same name.
    pub(crate) fn of_seal(fault: SealFault) -> PartFault
        ensures value { result ≡ of_seal fault }
    {
        match fault {
            SealFault::Version => PartFault::Version,
            SealFault::Damaged => PartFault::Damaged,
            SealFault::Memory => PartFault::Memory,
        }
    }

    /// Returns the fault of a plan. That of a condition is `Split`.
    pub(crate) fn of_plan(fault: PlanFault) -> PartFault
        ensures value { result ≡ fault_of fault }
    {
        match fault {
            PlanFault::Query => PartFault::Query,
            PlanFault::Condition => PartFault::Split,
            PlanFault::Sum => PartFault::Sum,
            PlanFault::Offset => PartFault::Offset,
            PlanFault::Memory => PartFault::Memory,
        }
    }

    /// Returns the fault of results that cannot be merged, under the same name.
    pub(crate) fn of_merge(fault: MergeFault) -> PartFault
        ensures value { result ≡ of_merge fault }
    {
        match fault {
            MergeFault::Damaged => PartFault::Damaged,
            MergeFault::Memory => PartFault::Memory,
        }
    }

    /// Returns the fault of an input that was not read to its end, under the same name.
    pub(crate) fn of_read(fault: ReadFault) -> PartFault
        ensures value { result ≡ of_read fault }
    {
        match fault {
            ReadFault::Read => PartFault::Read,
            ReadFault::Memory => PartFault::Memory,
        }
    }
}
