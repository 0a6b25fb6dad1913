//! The part of a group that one element adds.
ghost use Rattle.std.specs.Prelude.{◌≡◌, IfOk};
ghost use Rattle.sparql_algebra.specs.Added.{added};
ghost use Rattle.sparql_algebra.specs.PartOf.{part_of};

use crate::names::Names;
use crate::operation::Operation;
use crate::part::Part;
use expression_values::Expr;
use sparql_tree::Triple;
use std::alloc::{AllocError, Global};

/// What an element adds to its group. Triples and filters leave the current basic graph pattern
/// open; every other element ends it.
#[derive(Drop)]
pub enum Addition<'a> {
    Triples(&'a [Triple]),
    Filter(Box<Expr>),
    Operation(Operation),
}

/// Adds what an element adds to the part of the group before it.
///
/// # Errors
/// `AllocError` if an allocation fails.
pub fn with_addition<'a>(
    alloc: Global,
    names: &Names,
    part: Part<'a>,
    addition: Addition<'a>,
) -> Result<Part<'a>, AllocError>
    ensures part { IfOk result
        (λ made. part_of made ≡ added names.now (part_of part.entry) addition.entry) }
{
    match addition {
        Addition::Triples(triples) => part.with_triples(triples),
        Addition::Filter(filter) => part.with_filter(alloc, filter),
        Addition::Operation(operation) => part.with_operation(alloc, names, operation),
    }
}
