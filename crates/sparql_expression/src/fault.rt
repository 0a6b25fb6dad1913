//! The errors of the readers.

ghost use Rattle.std.specs.Prelude.{◌≡◌};
ghost use Rattle.sparql_expression.specs.declared.fault.ParseFault.TheVariants.{Memory};

use std::alloc::{AllocError, AllocFailed};

/// The reason why a reader returns no value.
#[derive(Clone, Copy, Debug)]
pub enum ParseFault {
    /// The terminals do not begin with a text of the production.
    Syntax,
    /// Out of memory.
    Memory,
}

impl From<AllocError> for ParseFault {
    ghost from_gives = { λ _ e. e ≡ Memory };

    fn from(_error: AllocError) -> ParseFault {
        ParseFault::Memory
    }
}

impl<T: Drop> From<AllocFailed<T>> for ParseFault {
    ghost from_gives = { λ _ e. e ≡ Memory };

    fn from(_error: AllocFailed<T>) -> ParseFault {
        ParseFault::Memory
    }
}
