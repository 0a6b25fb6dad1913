//! The values of expressions over a row (SPARQL 1.1 Query Language, section 17).
ghost use Rattle.std.specs.Prelude.{◌≡◌, ℕ, IfOk, IfSome, IsOk, IsOkAnd, None, Some, get_or, map, option_map, true};
ghost use Rattle.rdf_core.specs.Equality.{term_eq};
ghost use Rattle.algebra_model.specs.BooleanValue.{logical_and, logical_not, logical_or};
ghost use Rattle.algebra_model.specs.Call.{call_value};
ghost use Rattle.algebra_model.specs.Comparison.{compares, equal};
ghost use Rattle.algebra_model.specs.Expression.{boolean_result, holds, truth_of, val, with_value, with_values};
ghost use Rattle.expression_values.specs.ExpressionOf.{comparison_of, expression_of, function_of};
ghost use Rattle.expression_values.specs.MemberTruth.{member_truth};
ghost use Rattle.expression_values.specs.HeldTerm.{held_term, is_held, value_term, valued_term};
ghost use Rattle.expression_values.specs.NoAllocation.{are_borrowed, is_borrowed, is_test, takes_none};

use crate::expression::Expr;
use crate::held::{Held, Value, boolean_value, call};
use crate::lookup::Lookup;
use rdf_core::Term;
use sparql_tree::{Comparison, Function};
use std::alloc::{AllocError, Global};
use term_values::{Valued, compare, compare_valued};

/// Why an expression has no value.
#[derive(Clone, Copy, Debug, PartialEq, Eq)]
pub enum ExprFault {
    /// The expression is an error over this row.
    Error,
    /// Out of memory. The expression may have a value or not.
    Memory,
}

/// Evaluates an expression over a row (SPARQL 1.1 Query Language, section 17).
///
/// An unbound variable is an error. `||` and `&&` may have a value although one side is an error.
///
/// # Errors
/// - `Error` if the expression is an error over this row. An unbound variable always returns it,
///   even if memory is short. So does each error of an expression for which [`test`] allocates
///   nothing.
/// - `Memory` if an allocation fails.
pub fn value<R: Lookup>(alloc: Global, expr: &Expr, row: &R) -> Result<Term, ExprFault>
    ensures value { IfOk result (λ term. val (expression_of expr.now) (R.solution row.now) ≡ Some term) }
    ensures error { (result ≡ Err ExprFault.Error) → val (expression_of expr.now) (R.solution row.now) ≡ None }
    ensures unbound { (v : ℕ) → expr.now ≡ Expr.Variable v → get_or (R.solution row.now) v None ≡ None
        → result ≡ Err ExprFault.Error }
    ensures takes_none { takes_none expr.now ≡ true
        → val (expression_of expr.now) (R.solution row.now) ≡ None → result ≡ Err ExprFault.Error }
{
    match evaluate(alloc, expr, row) {
        Ok(Some(value)) => match owned(alloc, value) {
            Ok(term) => Ok(term),
            Err(_) => Err(ExprFault::Memory),
        },
        Ok(None) => Err(ExprFault::Error),
        Err(_) => Err(ExprFault::Memory),
    }
}

/// Returns whether a row passes a filter: the expression has a value, and its effective boolean
/// value is true (SPARQL 1.1 Query Language, section 18.5, Filter).
///
/// The terms of variables and constants are borrowed, and the result is not made into a literal.
/// The following expressions allocate nothing:
///
/// - a variable, a constant, and BOUND;
/// - a comparison, sameTerm, and IN, if their operands are variables and constants;
/// - isIRI, isBlank and isLiteral of a variable or a constant;
/// - `||`, `&&` and `!` of all these.
///
/// # Errors
/// `AllocError` if an allocation fails.
pub fn test<R: Lookup>(alloc: Global, expr: &Expr, row: &R) -> Result<bool, AllocError>
    ensures holds { IfOk result (λ passes. passes ≡ holds (expression_of expr.now) (R.solution row.now)) }
    ensures bound { (v : ℕ) → expr.now ≡ Expr.Bound v → IsOk result }
    ensures takes_none { takes_none expr.now ≡ true → IsOk result }
{
    match evaluate_truth(alloc, expr, row)? {
        Some(value) => Ok(value),
        None => Ok(false),
    }
}

fn owned(alloc: Global, value: Value) -> Result<Term, AllocError>
    ensures term { IfOk result (λ term. term ≡ value_term value.entry) }
{
    value.into_held(alloc)?.into_term(alloc)
}

/// Returns the value of an expression, or None if it is an error. The terms of variables and
/// constants are borrowed.
#[cycle(evaluate)]
fn evaluate<'a, R: Lookup>(
    alloc: Global,
    expr: &'a Expr,
    row: &'a R,
) -> Result<Option<Value<'a>>, AllocError>
    ensures value { IfOk result (λ value.
        option_map value_term value ≡ val (expression_of expr.entry.now) (R.solution row.entry.now)) }
    ensures takes_none { takes_none expr.entry.now ≡ true → IsOk result }
    ensures held { is_borrowed expr.entry.now ≡ true → IsOkAnd result (λ value. IfSome value (λ v. is_held v ≡ true)) }
{
    match expr {
        Expr::Variable(variable) => Ok(borrowed(row.get(*variable))),
        Expr::Constant(term) => Ok(Some(Value::Held(Held::Borrowed(term)))),
        Expr::Or { left, right } => {
            let right = evaluate_truth(alloc, right, row)?;
            evaluate_either(alloc, left, right, row)
        }
        Expr::And { left, right } => {
            let right = evaluate_truth(alloc, right, row)?;
            evaluate_both(alloc, left, right, row)
        }
        Expr::Not(inner) => evaluate_not(alloc, inner, row),
        Expr::Compare {
            operator,
            left,
            right,
        } => {
            let left = evaluate_held(alloc, left, row)?;
            evaluate_comparison(alloc, *operator, left, right, row)
        }
        Expr::In { item, list } => {
            let item = evaluate_held(alloc, item, row)?;
            evaluate_in(alloc, item, list, row)
        }
        Expr::Call { function, argument } => evaluate_call(alloc, *function, argument, row),
        Expr::Bound(variable) => Ok(Some(Value::Truth(row.get(*variable).is_some()))),
        Expr::SameTerm { left, right } => {
            let left = evaluate_held(alloc, left, row)?;
            evaluate_same_term(alloc, left, right, row)
        }
    }
}

/// Evaluates `left || right` ([111] `ConditionalOrExpression`) as a value, from the result of the
/// right side.
#[cycle(evaluate)]
fn evaluate_either<'a, R: Lookup>(
    alloc: Global,
    left: &Expr,
    right: Option<bool>,
    row: &R,
) -> Result<Option<Value<'a>>, AllocError>
    ensures value { IfOk result (λ value. option_map value_term value ≡ boolean_result
        (logical_or (truth_of (val (expression_of left.now) (R.solution row.now))) right)) }
    ensures takes_none { takes_none left.now ≡ true → IsOk result }
{
    Ok(boolean_value(evaluate_or(alloc, left, right, row)?))
}

/// Evaluates `left && right` ([112] `ConditionalAndExpression`) as a value, from the result of the
/// right side.
#[cycle(evaluate)]
fn evaluate_both<'a, R: Lookup>(
    alloc: Global,
    left: &Expr,
    right: Option<bool>,
    row: &R,
) -> Result<Option<Value<'a>>, AllocError>
    ensures value { IfOk result (λ value. option_map value_term value ≡ boolean_result
        (logical_and (truth_of (val (expression_of left.now) (R.solution row.now))) right)) }
    ensures takes_none { takes_none left.now ≡ true → IsOk result }
{
    Ok(boolean_value(evaluate_and(alloc, left, right, row)?))
}

/// Evaluates `!inner` ([118] `UnaryExpression`) as a value.
#[cycle(evaluate)]
fn evaluate_not<'a, R: Lookup>(
    alloc: Global,
    inner: &Expr,
    row: &R,
) -> Result<Option<Value<'a>>, AllocError>
    ensures value { IfOk result (λ value. option_map value_term value ≡ boolean_result
        (logical_not (truth_of (val (expression_of inner.now) (R.solution row.now))))) }
    ensures takes_none { takes_none inner.now ≡ true → IsOk result }
{
    Ok(boolean_value(negated(evaluate_truth(alloc, inner, row)?)))
}

/// Evaluates `item IN (list)` ([114] `RelationalExpression`) as a value.
#[cycle(evaluate)]
fn evaluate_in<'a, R: Lookup>(
    alloc: Global,
    item: Option<Held>,
    list: &[Expr],
    row: &R,
) -> Result<Option<Value<'a>>, AllocError>
    ensures value { IfOk result (λ value. option_map value_term value ≡ boolean_result
        (member_truth (option_map held_term item.entry) (map expression_of list.now) (R.solution row.now))) }
    ensures are_borrowed { are_borrowed list.now ≡ true → IsOk result }
{
    let item_value = valued(&item);
    Ok(boolean_value(evaluate_member(alloc, &item_value, list, row)?))
}

fn borrowed(term: Option<&Term>) -> Option<Value<'_>>
    ensures value { option_map value_term result ≡ option_map (λ t. t.now) term.entry }
    ensures held { IfSome result (λ v. is_held v ≡ true) }
{
    match term {
        Some(term) => Some(Value::Held(Held::Borrowed(term))),
        None => None,
    }
}

fn negated(truth: Option<bool>) -> Option<bool>
    ensures value { result ≡ logical_not truth }
{
    match truth {
        Some(value) => Some(!value),
        None => None,
    }
}

/// Returns the value of an expression as a term, or None if it is an error. The terms of variables
/// and constants are borrowed, without a call of [`evaluate`].
#[cycle(evaluate)]
fn evaluate_held<'a, R: Lookup>(
    alloc: Global,
    expr: &'a Expr,
    row: &'a R,
) -> Result<Option<Held<'a>>, AllocError>
    ensures value { IfOk result (λ value.
        option_map held_term value ≡ val (expression_of expr.entry.now) (R.solution row.entry.now)) }
    ensures is_borrowed { is_borrowed expr.entry.now ≡ true → IsOk result }
{
    match expr {
        Expr::Variable(variable) => match row.get(*variable) {
            Some(term) => Ok(Some(Held::Borrowed(term))),
            None => Ok(None),
        },
        Expr::Constant(term) => Ok(Some(Held::Borrowed(term))),
        _ => match evaluate(alloc, expr, row)? {
            Some(value) => Ok(Some(value.into_held(alloc)?)),
            None => Ok(None),
        },
    }
}

/// Returns the effective boolean value of an expression. Returns None if the value or its effective
/// boolean value is an error.
#[cycle(evaluate)]
pub(crate) fn evaluate_truth<R: Lookup>(
    alloc: Global,
    expr: &Expr,
    row: &R,
) -> Result<Option<bool>, AllocError>
    ensures truth { IfOk result (λ truth. truth ≡ truth_of (val (expression_of expr.now) (R.solution row.now))) }
    ensures takes_none { takes_none expr.now ≡ true → IsOk result }
{
    match evaluate(alloc, expr, row)? {
        Some(value) => Ok(value.truth()),
        None => Ok(None),
    }
}

/// Evaluates `left || right` from the result of the right side. The operands of the left side are
/// evaluated in a loop, from the last to the first, until one is true. A long chain thus needs no
/// more stack than a short one.
#[cycle(evaluate)]
fn evaluate_or<R: Lookup>(
    alloc: Global,
    left: &Expr,
    right: Option<bool>,
    row: &R,
) -> Result<Option<bool>, AllocError>
    ensures truth { IfOk result (λ truth.
        truth ≡ logical_or (truth_of (val (expression_of left.now) (R.solution row.now))) right) }
    ensures takes_none { takes_none left.now ≡ true → IsOk result }
{
    let mut rest = left;
    let mut found = right;
    'operands: while found != Some(true) {
        let Expr::Or { left, right } = rest else {
            return Ok(either(evaluate_truth(alloc, rest, row)?, found));
        };
        found = either(evaluate_truth(alloc, right, row)?, found);
        rest = left;
    }
    Ok(found)
}

/// Evaluates `left && right` from the result of the right side. The operands of the left side are
/// evaluated in a loop, from the last to the first, until one is false. A long chain thus needs no
/// more stack than a short one.
#[cycle(evaluate)]
fn evaluate_and<R: Lookup>(
    alloc: Global,
    left: &Expr,
    right: Option<bool>,
    row: &R,
) -> Result<Option<bool>, AllocError>
    ensures truth { IfOk result (λ truth.
        truth ≡ logical_and (truth_of (val (expression_of left.now) (R.solution row.now))) right) }
    ensures takes_none { takes_none left.now ≡ true → IsOk result }
{
    let mut rest = left;
    let mut found = right;
    'operands: while found != Some(false) {
        let Expr::And { left, right } = rest else {
            return Ok(both(evaluate_truth(alloc, rest, row)?, found));
        };
        found = both(evaluate_truth(alloc, right, row)?, found);
        rest = left;
    }
    Ok(found)
}

/// Compares the value of the left side with that of the right side.
#[cycle(evaluate)]
fn evaluate_comparison<'a, R: Lookup>(
    alloc: Global,
    operator: Comparison,
    left: Option<Held>,
    right: &Expr,
    row: &R,
) -> Result<Option<Value<'a>>, AllocError>
    ensures value { IfOk result (λ value. option_map value_term value ≡ boolean_result
        (with_values (option_map held_term left.entry) (val (expression_of right.now) (R.solution row.now))
        (compares (comparison_of operator)))) }
    ensures is_borrowed { is_borrowed right.now ≡ true → IsOk result }
{
    let right = evaluate_held(alloc, right, row)?;
    Ok(boolean_value(compare_values(operator, &left, &right)))
}

/// Returns whether the left side's value and that of the right side are the same term.
#[cycle(evaluate)]
fn evaluate_same_term<'a, R: Lookup>(
    alloc: Global,
    left: Option<Held>,
    right: &Expr,
    row: &R,
) -> Result<Option<Value<'a>>, AllocError>
    ensures value { IfOk result (λ value. option_map value_term value ≡ boolean_result
        (with_values (option_map held_term left.entry) (val (expression_of right.now) (R.solution row.now))
        (λ s t. Some (term_eq s t)))) }
    ensures is_borrowed { is_borrowed right.now ≡ true → IsOk result }
{
    let right = evaluate_held(alloc, right, row)?;
    Ok(boolean_value(same_values(&left, &right)))
}

/// Calls a function on the value of its argument.
#[cycle(evaluate)]
fn evaluate_call<'a, R: Lookup>(
    alloc: Global,
    function: Function,
    argument: &Expr,
    row: &R,
) -> Result<Option<Value<'a>>, AllocError>
    ensures value { IfOk result (λ value. option_map value_term value
        ≡ with_value (val (expression_of argument.now) (R.solution row.now)) (call_value (function_of function))) }
    ensures takes_none { is_borrowed argument.now ≡ true → is_test (function_of function) ≡ true → IsOk result }
{
    match evaluate_held(alloc, argument, row)? {
        Some(term) => call(alloc, function, term.as_term()),
        None => Ok(None),
    }
}

/// Evaluates `item IN (list)`: returns whether the item is equal to a member, or None for an error.
/// It is an error if no comparison is true and at least one is an error. The loop ends at the first
/// member that is equal. The item's value is known, so it is not computed again for each member.
#[cycle(evaluate)]
fn evaluate_member<R: Lookup>(
    alloc: Global,
    item: &Option<Valued>,
    list: &[Expr],
    row: &R,
) -> Result<Option<bool>, AllocError>
    ensures truth { IfOk result (λ truth. truth ≡ member_truth (option_map valued_term item.now)
        (map expression_of list.now) (R.solution row.now)) }
    ensures are_borrowed { are_borrowed list.now ≡ true → IsOk result }
{
    let mut found = Some(false);
    for member in list {
        let value = evaluate_held(alloc, member, row)?;
        let equal = equal_member(item, &value);
        if equal == Some(true) {
            return Ok(equal);
        }
        found = either(found, equal);
    }
    Ok(found)
}

/// Returns the value of `||` by its truth table. None is an error.
fn either(left: Option<bool>, right: Option<bool>) -> Option<bool>
    ensures value { result ≡ logical_or left right }
{
    match left {
        Some(true) => Some(true),
        Some(false) => right,
        None => match right {
            Some(true) => Some(true),
            Some(false) | None => None,
        },
    }
}

/// Returns the value of `&&` by its truth table. None is an error.
fn both(left: Option<bool>, right: Option<bool>) -> Option<bool>
    ensures value { result ≡ logical_and left right }
{
    match left {
        Some(false) => Some(false),
        Some(true) => right,
        None => match right {
            Some(false) => Some(false),
            Some(true) | None => None,
        },
    }
}

fn compare_values(operator: Comparison, left: &Option<Held>, right: &Option<Held>) -> Option<bool>
    ensures compared { result ≡ with_values (option_map held_term left.now) (option_map held_term right.now)
        (compares (comparison_of operator)) }
{
    let Some(left) = left else {
        return None;
    };
    let Some(right) = right else {
        return None;
    };
    compare(operator, left.as_term(), right.as_term())
}

/// Finds the value of an operand that is compared several times.
fn valued<'a>(operand: &'a Option<Held>) -> Option<Valued<'a>>
    ensures value { option_map valued_term result ≡ option_map held_term operand.entry.now }
{
    match operand {
        Some(held) => Some(Valued::new(held.as_term())),
        None => None,
    }
}

/// Returns whether an item is equal to a member, or None for an error.
fn equal_member(item: &Option<Valued>, member: &Option<Held>) -> Option<bool>
    ensures compared { result ≡ with_values (option_map valued_term item.now) (option_map held_term member.now)
        (compares equal) }
{
    let Some(item) = item else {
        return None;
    };
    let Some(member) = member else {
        return None;
    };
    compare_valued(Comparison::Equal, item, &Valued::new(member.as_term()))
}

fn same_values(left: &Option<Held>, right: &Option<Held>) -> Option<bool>
    ensures same { result ≡ with_values (option_map held_term left.now) (option_map held_term right.now)
        (λ s t. Some (term_eq s t)) }
{
    let Some(left) = left else {
        return None;
    };
    let Some(right) = right else {
        return None;
    };
    Some(left.as_term() == right.as_term())
}
