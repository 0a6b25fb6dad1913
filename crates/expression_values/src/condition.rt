//! The effective boolean value of an expression, with an error apart from false.
ghost use Rattle.std.specs.Prelude.{◌≡◌, IfOk, IsOk, true};
ghost use Rattle.algebra_model.specs.Expression.{truth_of, val};
ghost use Rattle.expression_values.specs.ExpressionOf.{expression_of};
ghost use Rattle.expression_values.specs.NoAllocation.{takes_none};

use crate::evaluation::evaluate_truth;
use crate::expression::Expr;
use crate::lookup::Lookup;
use std::alloc::{AllocError, Global};

/// Returns the effective boolean value of an expression over a row (SPARQL 1.1 Query Language,
/// section 17.2). Returns None if the value or its effective boolean value is an error.
///
/// `test` returns false for an error. This function is for callers that treat the two differently. It
/// allocates as `test` does.
///
/// # Errors
/// `AllocError` if an allocation fails.
pub fn truth_value<R: Lookup>(
    alloc: Global,
    expr: &Expr,
    row: &R,
) -> Result<Option<bool>, AllocError>
    ensures truth { IfOk result (λ truth. truth ≡ truth_of (val (expression_of expr.now) (R.solution row.now))) }
    ensures takes_none { takes_none expr.now ≡ true → IsOk result }
{
    evaluate_truth(alloc, expr, row)
}
