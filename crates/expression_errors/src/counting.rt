//! Evaluation that counts errors.
ghost use Rattle.std.specs.Prelude.{◌≡◌, IfOk, IsOk, None, true};
ghost use Rattle.algebra_model.specs.Expression.{holds, val};
ghost use Rattle.expression_values.specs.ExpressionOf.{expression_of};
ghost use Rattle.expression_values.specs.NoAllocation.{takes_none};

use crate::cause::Cause;
use crate::counts::{Counter, Place};
use crate::search::{condition_cause, value_cause};
use expression_values::{Expr, ExprFault, Lookup, truth_value, value};
use rdf_core::Term;
use std::alloc::{AllocError, Global};

impl<'a> Place<'a> {
    /// Notes that a condition is true or false over a row.
    fn note_truth<R: Lookup>(self, alloc: Global, condition: &Expr, row: &R) {
        if let Some(counter) = self.counter {
            if !counter.is_valued() {
                note_filters(alloc, counter, condition, row);
            }
        }
    }

    /// Notes that an expression has a value over a row.
    fn note_value(self) {
        if let Some(counter) = self.counter {
            if !counter.is_valued() {
                counter.note_values();
            }
        }
    }

    /// Counts rows like this one, over which a condition is an error. Without memory for a second look at
    /// it, they are not counted.
    fn count_condition<R: Lookup>(self, alloc: Global, condition: &Expr, row: &R, rows: u64) {
        if let Some(counter) = self.counter {
            if counter.parts.len() > 1 && !counter.is_valued() {
                note_filters(alloc, counter, condition, row);
            }
            let found = wrong_filter(alloc, condition, counter.parts.len(), row);
            if let Ok(Some((filter, cause))) = found {
                if let Some(part) = counter.parts.get(filter) {
                    part.add(alloc, &cause, rows);
                }
            }
        }
    }

    /// Counts a row over which an expression has no value.
    fn count_value<R: Lookup>(self, alloc: Global, expression: &Expr, row: &R) {
        if let Some(counter) = self.counter {
            if let Ok(Some(cause)) = value_cause(alloc, expression, row) {
                if let Some(part) = counter.parts.first() {
                    part.add(alloc, &cause, 1);
                }
            }
        }
    }
}

/// Notes which FILTERs of a condition are true or false over a row. Once each of them was over some
/// row, this is not called again.
fn note_filters<R: Lookup>(alloc: Global, counter: &Counter, condition: &Expr, row: &R) {
    let mut rest = condition;
    for filter in (1..counter.parts.len()).rev() {
        if let Expr::And { left, right } = rest {
            note_filter(alloc, counter, filter, right, row);
            rest = left;
        }
    }
    note_filter(alloc, counter, 0, rest, row);
    counter.note_if_all();
}

/// Notes a FILTER if it is true or false over a row.
fn note_filter<R: Lookup>(
    alloc: Global,
    counter: &Counter,
    filter: usize,
    condition: &Expr,
    row: &R,
) {
    if let Some(part) = counter.parts.get(filter) {
        if !part.is_valued() {
            if let Ok(Some(_)) = truth_value(alloc, condition, row) {
                part.note_value();
            }
        }
    }
}

/// Returns the FILTER that leaves a row out by an error, with the cause: the first one with a common
/// cause, or else the first one. Returns None if one of them is expected not to be true. The
/// condition is the FILTERs of a group, joined with `&&` from left to right.
fn wrong_filter<R: Lookup>(
    alloc: Global,
    condition: &Expr,
    filters: usize,
    row: &R,
) -> Result<Option<(usize, Cause)>, AllocError> {
    let mut found = None;
    let mut rest = condition;
    for number in (0..filters.max(1)).rev() {
        let (filter, operand, left) = last_filter(rest, number);
        if truth_value(alloc, operand, row)?.is_none() {
            let Some(cause) = condition_cause(alloc, operand, row)? else {
                return Ok(None);
            };
            found = Some(lighter(filter, cause, found));
        }
        let Some(left) = left else {
            break;
        };
        rest = left;
    }
    Ok(found)
}

/// Returns the last FILTER of a condition, whose number is `number` if it is not the only one, and the FILTERs before it.
fn last_filter(condition: &Expr, number: usize) -> (usize, &Expr, Option<&Expr>) {
    match condition {
        Expr::And { left, right } if number > 0 => (number, right, Some(left)),
        _ => (0, condition, None),
    }
}

/// Returns the FILTER with a common cause if there is one, or else the first.
fn lighter(filter: usize, cause: Cause, later: Option<(usize, Cause)>) -> (usize, Cause) {
    match later {
        Some((number, other)) => {
            if other.is_common() && !cause.is_common() {
                (number, other)
            } else {
                (filter, cause)
            }
        }
        None => (filter, cause),
    }
}

/// Returns whether a row passes a filter, as `test` of the crate expression_values does. If the
/// condition is an error, the row is counted.
///
/// # Errors
/// `AllocError` if an allocation of the evaluation fails. Without memory to find the cause of an
/// error, the row is not counted, and the result is the same.
pub fn test_counted<R: Lookup>(
    alloc: Global,
    condition: &Expr,
    row: &R,
    place: Place<'_>,
) -> Result<bool, AllocError>
    ensures holds { IfOk result (λ passes. passes ≡ holds (expression_of condition.now) (R.solution row.now)) }
    ensures takes_none { takes_none condition.now ≡ true → IsOk result }
{
    match truth_value(alloc, condition, row)? {
        Some(passes) => {
            place.note_truth(alloc, condition, row);
            Ok(passes)
        }
        None => {
            place.count_condition(alloc, condition, row, 1);
            Ok(false)
        }
    }
}

/// Counts rows that no filter tests, if the condition is an error over them. It is so, with the same
/// cause, over all of them or over none; `row` is one of them.
///
/// # Errors
/// `AllocError` if an allocation of the evaluation fails. Then the rows are not counted.
pub fn count_rows<R: Lookup>(
    alloc: Global,
    condition: &Expr,
    row: &R,
    rows: u64,
    place: Place<'_>,
) -> Result<(), AllocError>
    ensures takes_none { takes_none condition.now ≡ true → IsOk result }
{
    match truth_value(alloc, condition, row)? {
        Some(_) => place.note_truth(alloc, condition, row),
        None => place.count_condition(alloc, condition, row, rows),
    }
    Ok(())
}

/// Evaluates an expression over a row, as `value` of the crate expression_values does. If the
/// expression is an error, the row is counted.
///
/// # Errors
/// - `Error` if the expression is an error over this row.
/// - `Memory` if an allocation of the evaluation fails.
pub fn value_counted<R: Lookup>(
    alloc: Global,
    expression: &Expr,
    row: &R,
    place: Place<'_>,
) -> Result<Term, ExprFault>
    ensures value { IfOk result (λ term. val (expression_of expression.now) (R.solution row.now) ≡ Some term) }
    ensures error { (result ≡ Err ExprFault.Error) → val (expression_of expression.now) (R.solution row.now) ≡ None }
    ensures takes_none { takes_none expression.now ≡ true
        → val (expression_of expression.now) (R.solution row.now) ≡ None → result ≡ Err ExprFault.Error }
{
    match value(alloc, expression, row) {
        Ok(term) => {
            place.note_value();
            Ok(term)
        }
        Err(ExprFault::Error) => {
            place.count_value(alloc, expression, row);
            Err(ExprFault::Error)
        }
        Err(ExprFault::Memory) => Err(ExprFault::Memory),
    }
}
