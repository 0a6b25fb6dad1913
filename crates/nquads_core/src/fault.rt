//! Why a line or a piece could not be read.

ghost use Rattle.std.specs.Prelude.{◌≡◌};
ghost use Rattle.nquads_core.specs.declared.fault.LineFault.TheVariants as line_fault;
ghost use Rattle.nquads_core.specs.declared.fault.PieceFault.TheVariants as piece_fault;

use std::alloc::{AllocError, AllocFailed};

/// Why [`read_line`](crate::read_line) returns nothing.
#[derive(Clone, Copy, Debug)]
pub enum LineFault {
    /// The line is malformed.
    Bad,
    /// Out of memory.
    Memory,
}

/// Why [`read_piece`](crate::read_piece) returns nothing.
#[derive(Clone, Copy, Debug)]
pub enum PieceFault {
    /// The first malformed line, counted from 0 in the piece.
    BadLine(u64),
    /// Out of memory.
    Memory,
}

impl From<AllocError> for LineFault {
    ghost from_gives = { λ _ e. e ≡ line_fault.Memory };

    fn from(_e: AllocError) -> LineFault {
        LineFault::Memory
    }
}

impl<T: Drop> From<AllocFailed<T>> for LineFault {
    ghost from_gives = { λ _ e. e ≡ line_fault.Memory };

    fn from(_e: AllocFailed<T>) -> LineFault {
        LineFault::Memory
    }
}

impl<T: Drop> From<AllocFailed<T>> for PieceFault {
    ghost from_gives = { λ _ e. e ≡ piece_fault.Memory };

    fn from(_e: AllocFailed<T>) -> PieceFault {
        PieceFault::Memory
    }
}
