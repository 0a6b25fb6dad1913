//! Why there is no result.

use dataset_load::LoadFault;
use row_pieces::EvalFault;
use sparql_read::QueryFault;
use std::alloc::AllocError;

/// Why there is no result.
#[derive(Clone, Copy, Debug, PartialEq, Eq)]
pub enum Fault {
    /// The first rule that rejects the query. It is never `QueryFault::Memory`.
    Query(QueryFault),
    /// The line, counted from 1, is the first malformed line.
    BadLine(u128),
    /// A worker thread could not be started. Those that were started have been joined. The text is a query.
    /// The document may be malformed.
    WorkerRefused,
    /// Out of memory, or the runtime provides no random numbers.
    Memory,
}

impl From<AllocError> for Fault {
    ghost use Rattle.std.specs.Prelude.{◌≡◌};
    ghost use Rattle.spq_core.specs.declared.fault.Fault.TheVariants.{Memory};

    ghost from_gives = { λ _ e. e ≡ Memory };

    fn from(_failed: AllocError) -> Fault {
        Fault::Memory
    }
}

impl From<LoadFault> for Fault {
    ghost use Rattle.std.specs.Prelude.{◌≡◌};
    ghost use Rattle.spq_core.specs.Composing.{fault_of_loading};

    ghost from_gives = { λ failed e. e ≡ fault_of_loading failed };

    fn from(failed: LoadFault) -> Fault {
        match failed {
            LoadFault::BadLine(line) => Fault::BadLine(line),
            LoadFault::WorkerRefused => Fault::WorkerRefused,
            LoadFault::Memory => Fault::Memory,
        }
    }
}

impl From<EvalFault> for Fault {
    ghost use Rattle.std.specs.Prelude.{◌≡◌};
    ghost use Rattle.spq_core.specs.Composing.{fault_of_evaluation};

    ghost from_gives = { λ failed e. e ≡ fault_of_evaluation failed };

    fn from(failed: EvalFault) -> Fault {
        match failed {
            EvalFault::WorkerRefused => Fault::WorkerRefused,
            EvalFault::Memory => Fault::Memory,
        }
    }
}
