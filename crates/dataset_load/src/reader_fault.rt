//! Why the rest of a reader is not loaded.
use crate::fault::LoadFault;
use nquads_core::ReadFault;
use std::alloc::AllocError;

/// Why the rest of a reader is not loaded.
#[derive(Clone, Copy, Debug, PartialEq, Eq)]
pub enum ReaderFault {
    /// The line, counted from 1, is the first that is malformed.
    BadLine(u128),
    /// A worker thread could not be started. Those that were started have been joined.
    WorkerRefused,
    /// Out of memory.
    Memory,
    /// The reader failed.
    Read,
}

impl From<AllocError> for ReaderFault {
    ghost use Rattle.std.specs.Prelude.{◌≡◌};
    ghost use Rattle.dataset_load.specs.declared.reader_fault.ReaderFault.TheVariants.{Memory};

    ghost from_gives = { λ _ fault. fault ≡ Memory };

    fn from(_failed: AllocError) -> ReaderFault {
        ReaderFault::Memory
    }
}

impl From<LoadFault> for ReaderFault {
    ghost use Rattle.std.specs.Prelude.{◌≡◌};
    ghost use Rattle.dataset_load.specs.FaultNames.{fault_of_load};

    ghost from_gives = { λ failed fault. fault ≡ fault_of_load failed };

    fn from(failed: LoadFault) -> ReaderFault {
        match failed {
            LoadFault::BadLine(line) => ReaderFault::BadLine(line),
            LoadFault::WorkerRefused => ReaderFault::WorkerRefused,
            LoadFault::Memory => ReaderFault::Memory,
        }
    }
}

impl From<ReadFault> for ReaderFault {
    ghost use Rattle.std.specs.Prelude.{◌≡◌};
    ghost use Rattle.dataset_load.specs.FaultNames.{fault_of_read};

    ghost from_gives = { λ failed fault. fault ≡ fault_of_read failed };

    fn from(failed: ReadFault) -> ReaderFault {
        match failed {
            ReadFault::Read => ReaderFault::Read,
            ReadFault::Memory => ReaderFault::Memory,
        }
    }
}
