//! Why results cannot be merged.
use std::alloc::AllocError;

/// Why results cannot be merged.
#[derive(Clone, Copy)]
pub enum MergeFault {
    /// The input is not a list of results that `spq select` prints for the same variables.
    Damaged,
    /// Out of memory.
    Memory,
}

impl From<AllocError> for MergeFault {
    ghost use Rattle.std.specs.Prelude.{◌≡◌};
    ghost use Rattle.result_merge.specs.declared.fault.MergeFault.TheVariants.{Memory};

    ghost from_gives = { λ _ e. e ≡ Memory };

    fn from(_failed: AllocError) -> MergeFault {
        MergeFault::Memory
    }
}
