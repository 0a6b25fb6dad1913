//! Why an evaluation has no result.
use piece_pool::PoolFault;
use std::alloc::AllocError;

/// Why an evaluation has no result.
#[derive(Clone, Copy, Debug, PartialEq, Eq)]
pub enum EvalFault {
    /// A worker thread could not be started. All started threads have been joined.
    WorkerRefused,
    /// Out of memory.
    Memory,
}

impl From<AllocError> for EvalFault {
    ghost use Rattle.std.specs.Prelude.{◌≡◌};
    ghost use Rattle.row_pieces.specs.declared.fault.EvalFault.TheVariants.{Memory};

    ghost from_gives = { λ _ fault. fault ≡ Memory };

    fn from(_failed: AllocError) -> EvalFault {
        EvalFault::Memory
    }
}

impl From<PoolFault> for EvalFault {
    ghost use Rattle.row_pieces.specs.Fault.{IsEvalFaultOf};

    ghost from_gives = { λ failed fault. IsEvalFaultOf failed fault };

    fn from(failed: PoolFault) -> EvalFault {
        match failed {
            PoolFault::WorkerRefused => EvalFault::WorkerRefused,
            PoolFault::Memory => EvalFault::Memory,
        }
    }
}
