//! A term together with its value.
ghost use Rattle.std.specs.Prelude.{◌≡◌};
ghost use Rattle.algebra_model.specs.Comparison.{value_of};
ghost use Rattle.term_values.specs.ValueShown.{value_shown};

use crate::literal::{LiteralValue, value_of};
use rdf_core::Term;

/// A borrowed term together with its value in comparisons.
///
/// [`compare_valued`](crate::compare_valued) compares two of them. A term that is compared with many
/// others is thus read once.
#[derive(Clone, Copy)]
pub struct Valued<'a> {
    /// The term.
    pub term: &'a Term,
    /// Its value.
    pub(crate) value: LiteralValue<'a>,
    pub ghost is: { value_shown value ≡ value_of term.now },
}

impl<'a> Valued<'a> {
    /// Finds the value of a term. Allocates nothing.
    pub fn new(term: &'a Term) -> Valued<'a>
        ensures term { result.term.now ≡ term.entry.now }
    {
        Valued {
            term,
            value: value_of(term),
        }
    }
}
