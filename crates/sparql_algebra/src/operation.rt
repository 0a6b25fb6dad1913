//! Operators that lack their first input.
ghost use Rattle.std.specs.Prelude.{◌≡◌, IfOk};
ghost use Rattle.sparql_algebra.specs.Added.{applied};
ghost use Rattle.sparql_algebra.specs.AlgebraOf.{algebra_of};

use crate::constructors::boxed;
use crate::operator::Operator;
use expression_values::Expr;
use std::alloc::{AllocError, Global};

/// An operator without its first input, which is the part of a group before an element.
pub enum Operation {
    /// The right side of an OPTIONAL ([57] `OptionalGraphPattern`), and its condition.
    Optional(Box<Operator>, Box<Expr>),
    /// The right side of a MINUS ([66] `MinusGraphPattern`).
    Minus(Box<Operator>),
    /// The number of the variable of a BIND ([60] `Bind`), and its expression.
    Extend(usize, Box<Expr>),
    /// The operator that is joined, for every other element.
    Join(Box<Operator>),
}

impl Drop for Operation {
    /// Written by hand (docs/PROOF.md).
    fn drop(self) {
        match self {
            Operation::Optional(_, _)
            | Operation::Minus(_)
            | Operation::Extend(_, _)
            | Operation::Join(_) => {}
        }
    }
}

impl Operation {
    /// Creates the operator with its first input.
    ///
    /// # Errors
    /// `AllocError` if an allocation fails.
    pub fn applied(self, alloc: Global, left: Box<Operator>) -> Result<Box<Operator>, AllocError>
        ensures operator { IfOk result
            (λ made. algebra_of made.value ≡ applied (algebra_of left.value) self) }
    {
        match self {
            Operation::Optional(right, condition) => {
                let joined = Operator::LeftJoin {
                    left,
                    right,
                    condition: Box::into_inner(condition),
                };
                boxed(alloc, joined)
            }
            Operation::Minus(right) => boxed(alloc, Operator::Minus { left, right }),
            Operation::Extend(variable, value) => {
                let extended = Operator::Extend {
                    variable,
                    expression: Box::into_inner(value),
                    inner: left,
                };
                boxed(alloc, extended)
            }
            Operation::Join(right) => boxed(alloc, Operator::Join { left, right }),
        }
    }
}
