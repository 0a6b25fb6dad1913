//! The reasons for which a query is rejected.

ghost use Rattle.std.specs.Prelude.{◌≡◌};
ghost use Rattle.sparql_read.specs.declared.fault.QueryFault.TheVariants as query_fault;

use std::alloc::AllocError;

/// The rule that rejects a query. If several rules reject it, `read_query` returns the first of
/// them: `TooDeep` is before all others, which are in the order of the variants.
#[derive(Clone, Copy, Debug, PartialEq, Eq)]
pub enum QueryFault {
    /// The grammar derives no query from the text.
    Syntax,
    /// A prefixed name has no declaration.
    UndefinedPrefix,
    /// An [139] IRIREF, in a declaration or elsewhere, has no scheme.
    RelativeIri,
    /// The variable of a BIND is already in scope from the elements before it in its group.
    BindScope,
    /// A blank node label occurs in two basic graph patterns.
    BlankReuse,
    /// More than 100 brackets are open at some place.
    TooDeep,
    /// Out of memory.
    Memory,
}

impl From<AllocError> for QueryFault {
    ghost from_gives = { λ _ e. e ≡ query_fault.Memory };

    fn from(_e: AllocError) -> QueryFault {
        QueryFault::Memory
    }
}
