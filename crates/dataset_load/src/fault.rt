//! Why a document is not loaded.
use piece_pool::PoolFault;
use std::alloc::{AllocError, AllocFailed};

/// Why a document is not loaded.
#[derive(Clone, Copy, Debug)]
pub enum LoadFault {
    /// The line, counted from 1, is the first that is malformed.
    BadLine(u128),
    /// A worker thread could not be started. Those that were started have been joined.
    WorkerRefused,
    /// Out of memory.
    Memory,
}

impl From<AllocError> for LoadFault {
    ghost use Rattle.std.specs.Prelude.{◌≡◌};
    ghost use Rattle.dataset_load.specs.declared.fault.LoadFault.TheVariants.{Memory};

    ghost from_gives = { λ _ fault. fault ≡ Memory };

    fn from(_failed: AllocError) -> LoadFault {
        LoadFault::Memory
    }
}

impl<T: Drop> From<AllocFailed<T>> for LoadFault {
    ghost use Rattle.std.specs.Prelude.{◌≡◌};
    ghost use Rattle.dataset_load.specs.declared.fault.LoadFault.TheVariants.{Memory};

    ghost from_gives = { λ _ fault. fault ≡ Memory };

    fn from(_failed: AllocFailed<T>) -> LoadFault {
        LoadFault::Memory
    }
}

impl From<PoolFault> for LoadFault {
    ghost use Rattle.std.specs.Prelude.{◌≡◌};
    ghost use Rattle.dataset_load.specs.Fault.{load_fault_of};

    ghost from_gives = { λ failed fault. fault ≡ load_fault_of failed };

    fn from(failed: PoolFault) -> LoadFault {
        match failed {
            PoolFault::WorkerRefused => LoadFault::WorkerRefused,
            PoolFault::Memory => LoadFault::Memory,
        }
    }
}
