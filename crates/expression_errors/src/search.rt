//! Which part of an expression is wrong over a row.
ghost use Rattle.std.specs.Prelude.{◌≡◌, IfOk, IfSome, None};
ghost use Rattle.algebra_model.specs.Expression.{truth_of, val};
ghost use Rattle.expression_values.specs.ExpressionOf.{expression_of};

use crate::cause::{Cause, are_expected_to_differ, comparison_cause, truth_cause};
use expression_values::{Expr, ExprFault, Lookup, compare, truth_value, value};
use rdf_core::Term;
use sparql_tree::Comparison;
use std::alloc::{AllocError, Global};

/// Returns why a condition is an error over a row: its value is an error, or has no effective
/// boolean value. Returns None if the condition is true or false, or if its writer expects it not to
/// be true. The latter is so for `=` of two literals that look different: `?x = "a"` is an error
/// where `?x` is `"b"@en`, and no query means to find that row.
///
/// An operand of `&&` that is meant to leave the row out does so whatever the others are. So the
/// cause is that of the first operand with a common cause, or else of the first one.
///
/// # Errors
/// `AllocError` if an allocation fails.
pub fn condition_cause<R: Lookup>(
    alloc: Global,
    condition: &Expr,
    row: &R,
) -> Result<Option<Cause>, AllocError>
    ensures error { IfOk result (λ cause. IfSome cause
        (λ _. truth_of (val (expression_of condition.now) (R.solution row.now)) ≡ None)) }
{
    match truth_value(alloc, condition, row)? {
        Some(_) => Ok(None),
        None => cause_of_chain(alloc, condition, row),
    }
}

/// Returns why a chain of `&&` is an error.
fn cause_of_chain<R: Lookup>(
    alloc: Global,
    chain: &Expr,
    row: &R,
) -> Result<Option<Cause>, AllocError> {
    let mut found = None;
    let mut rest = chain;
    for _ in 0..u64::MAX {
        let (operand, left) = last_operand(rest, false);
        if truth_value(alloc, operand, row)?.is_none() {
            let Some(cause) = search(alloc, operand, row, Sense::Positive)? else {
                return Ok(None);
            };
            found = Some(lighter(cause, found));
        }
        let Some(left) = left else {
            break;
        };
        rest = left;
    }
    Ok(found)
}

/// Returns the last operand of a chain of `||`, or of `&&`, and the chain before it if there is one.
fn last_operand(chain: &Expr, is_or: bool) -> (&Expr, Option<&Expr>) {
    match chain {
        Expr::Or { left, right } if is_or => (right, Some(left)),
        Expr::And { left, right } if !is_or => (right, Some(left)),
        _ => (chain, None),
    }
}

/// Returns the cause of two operands of `&&`: a common one if there is one, or else the first.
fn lighter(first: Cause, second: Option<Cause>) -> Cause {
    match second {
        Some(cause) => {
            if cause.is_common() && !first.is_common() {
                cause
            } else {
                first
            }
        }
        None => first,
    }
}

/// Returns why an expression has no value over a row, or None if it has one.
///
/// # Errors
/// `AllocError` if an allocation fails.
pub fn value_cause<R: Lookup>(
    alloc: Global,
    expression: &Expr,
    row: &R,
) -> Result<Option<Cause>, AllocError>
    ensures error { IfOk result (λ cause. IfSome cause
        (λ _. val (expression_of expression.now) (R.solution row.now) ≡ None)) }
{
    match value(alloc, expression, row) {
        Ok(_) => Ok(None),
        Err(ExprFault::Error) => search(alloc, expression, row, Sense::Unknown),
        Err(ExprFault::Memory) => Err(AllocError),
    }
}

/// Whether a condition gets truer with a part of it.
#[derive(Clone, Copy, PartialEq, Eq)]
enum Sense {
    Positive,
    /// The part is below an odd number of `!`.
    Negative,
    /// The part is an operand of a comparison or a function.
    Unknown,
}

/// A part of an expression that is an error, or whose value has no effective boolean value.
type Wrong<'a> = (&'a Expr, Sense);

/// Goes down an expression that is an error, to a part that causes it: the first one whose cause is
/// not common, or else the first one. An error of `=` whose writer expects it has no cause.
fn search<R: Lookup>(
    alloc: Global,
    expr: &Expr,
    row: &R,
    sense: Sense,
) -> Result<Option<Cause>, AllocError> {
    let mut common = None;
    let mut rest = Vec::new(alloc);
    rest.push((expr, sense))?;
    for _ in 0..u64::MAX {
        let Some((part, sense)) = rest.pop() else {
            break;
        };
        if let Some(cause) = cause_of_part(alloc, part, row, sense, &mut rest)? {
            if !cause.is_common() {
                return Ok(Some(cause));
            }
            common = Some(common.unwrap_or(cause));
        }
    }
    Ok(common)
}

/// Returns the cause that is in a part itself, or adds the operands that are wrong.
fn cause_of_part<'a, R: Lookup>(
    alloc: Global,
    part: &'a Expr,
    row: &R,
    sense: Sense,
    rest: &mut Vec<Wrong<'a>>,
) -> Result<Option<Cause>, AllocError> {
    match operand(alloc, part, row)? {
        Some(term) => Ok(Some(truth_cause(alloc, &term)?)),
        None => cause_of_error(alloc, part, row, sense, rest),
    }
}

/// Returns the cause that is in a part without a value, or adds the operands that are wrong.
fn cause_of_error<'a, R: Lookup>(
    alloc: Global,
    part: &'a Expr,
    row: &R,
    sense: Sense,
    rest: &mut Vec<Wrong<'a>>,
) -> Result<Option<Cause>, AllocError> {
    match part {
        Expr::Variable(variable) => Ok(Some(Cause::Unbound(*variable))),
        Expr::Or { .. } => add_sides(alloc, part, true, row, sense, rest),
        Expr::And { .. } => add_sides(alloc, part, false, row, sense, rest),
        Expr::Not(inner) => add(rest, inner, opposite(sense)),
        Expr::Compare {
            operator,
            left,
            right,
        } => cause_of_comparison(alloc, *operator, left, right, row, sense, rest),
        Expr::In { item, list } => cause_of_member(alloc, item, list, row, sense, rest),
        Expr::Call { argument, .. } => cause_of_call(alloc, argument, row, rest),
        Expr::SameTerm { left, right } => add_wrong_side(alloc, left, right, row, rest),
        Expr::Constant(_) | Expr::Bound(_) => Ok(Some(Cause::Call)),
    }
}

/// Adds a part. Returns None: the cause is in the part.
fn add<'a>(
    rest: &mut Vec<Wrong<'a>>,
    part: &'a Expr,
    sense: Sense,
) -> Result<Option<Cause>, AllocError> {
    rest.push((part, sense))?;
    Ok(None)
}

/// Returns the cause of a comparison's error, or adds the first operand that is an error.
fn cause_of_comparison<'a, R: Lookup>(
    alloc: Global,
    operator: Comparison,
    left: &'a Expr,
    right: &'a Expr,
    row: &R,
    sense: Sense,
    rest: &mut Vec<Wrong<'a>>,
) -> Result<Option<Cause>, AllocError> {
    match operand(alloc, left, row)? {
        Some(one) => cause_of_right(alloc, operator, &one, right, row, sense, rest),
        None => add(rest, left, Sense::Unknown),
    }
}

/// Returns the cause of a comparison's error, given the value of its left side, or adds the right side if it is an
/// error.
fn cause_of_right<'a, R: Lookup>(
    alloc: Global,
    operator: Comparison,
    left: &Term,
    right: &'a Expr,
    row: &R,
    sense: Sense,
    rest: &mut Vec<Wrong<'a>>,
) -> Result<Option<Cause>, AllocError> {
    match operand(alloc, right, row)? {
        Some(other) => unexpected_cause(alloc, operator, left, &other, sense),
        None => add(rest, right, Sense::Unknown),
    }
}

/// Returns the cause of a comparison's error, or None if the writer expects the row to be left out.
fn unexpected_cause(
    alloc: Global,
    operator: Comparison,
    left: &Term,
    right: &Term,
    sense: Sense,
) -> Result<Option<Cause>, AllocError> {
    let is_equality = match operator {
        Comparison::Equal => sense == Sense::Positive,
        Comparison::NotEqual => sense == Sense::Negative,
        Comparison::Less
        | Comparison::Greater
        | Comparison::LessOrEqual
        | Comparison::GreaterOrEqual => false,
    };
    if is_equality && are_expected_to_differ(left, right) {
        Ok(None)
    } else {
        Ok(Some(comparison_cause(alloc, left, right)?))
    }
}

/// Returns the value of a part, or None for an error.
fn operand<R: Lookup>(alloc: Global, part: &Expr, row: &R) -> Result<Option<Term>, AllocError> {
    match value(alloc, part, row) {
        Ok(term) => Ok(Some(term)),
        Err(ExprFault::Error) => Ok(None),
        Err(ExprFault::Memory) => Err(AllocError),
    }
}

/// Adds the first of two operands that is an error. One of them is.
fn add_wrong_side<'a, R: Lookup>(
    alloc: Global,
    left: &'a Expr,
    right: &'a Expr,
    row: &R,
    rest: &mut Vec<Wrong<'a>>,
) -> Result<Option<Cause>, AllocError> {
    let wrong = if operand(alloc, left, row)?.is_some() {
        right
    } else {
        left
    };
    add(rest, wrong, Sense::Unknown)
}

fn opposite(sense: Sense) -> Sense {
    match sense {
        Sense::Positive => Sense::Negative,
        Sense::Negative => Sense::Positive,
        Sense::Unknown => Sense::Unknown,
    }
}

/// Adds the operands of a chain of `||`, or of `&&`, that are errors, the last one first. Each operand
/// is evaluated once, however long the chain is. Returns None: the cause is in an operand.
fn add_sides<'a, R: Lookup>(
    alloc: Global,
    chain: &'a Expr,
    is_or: bool,
    row: &R,
    sense: Sense,
    rest: &mut Vec<Wrong<'a>>,
) -> Result<Option<Cause>, AllocError> {
    let mut part = chain;
    for _ in 0..u64::MAX {
        let (operand, left) = last_operand(part, is_or);
        if truth_value(alloc, operand, row)?.is_none() {
            rest.push((operand, sense))?;
        }
        let Some(left) = left else {
            break;
        };
        part = left;
    }
    Ok(None)
}

fn cause_of_call<'a, R: Lookup>(
    alloc: Global,
    argument: &'a Expr,
    row: &R,
    rest: &mut Vec<Wrong<'a>>,
) -> Result<Option<Cause>, AllocError> {
    match operand(alloc, argument, row)? {
        Some(_) => Ok(Some(Cause::Call)),
        None => add(rest, argument, Sense::Unknown),
    }
}

/// Returns the cause of the first member of IN whose comparison with the item has one, or adds the item
/// or the members that are errors.
fn cause_of_member<'a, R: Lookup>(
    alloc: Global,
    item: &'a Expr,
    list: &'a [Expr],
    row: &R,
    sense: Sense,
    rest: &mut Vec<Wrong<'a>>,
) -> Result<Option<Cause>, AllocError> {
    match operand(alloc, item, row)? {
        Some(one) => cause_in_list(alloc, &one, list, row, sense, rest),
        None => add(rest, item, Sense::Unknown),
    }
}

/// Returns the cause of the first member of IN whose comparison with the item has one, or adds the members that are
/// errors.
fn cause_in_list<'a, R: Lookup>(
    alloc: Global,
    item: &Term,
    list: &'a [Expr],
    row: &R,
    sense: Sense,
    rest: &mut Vec<Wrong<'a>>,
) -> Result<Option<Cause>, AllocError> {
    for member in list {
        let found = cause_with_member(alloc, item, member, row, sense, rest)?;
        if found.is_some() {
            return Ok(found);
        }
    }
    Ok(None)
}

/// Returns the cause of the comparison of the item with one member, or adds the member if it is an error.
fn cause_with_member<'a, R: Lookup>(
    alloc: Global,
    item: &Term,
    member: &'a Expr,
    row: &R,
    sense: Sense,
    rest: &mut Vec<Wrong<'a>>,
) -> Result<Option<Cause>, AllocError> {
    match operand(alloc, member, row)? {
        Some(other) => {
            if compare(Comparison::Equal, item, &other).is_some() {
                Ok(None)
            } else {
                unexpected_cause(alloc, Comparison::Equal, item, &other, sense)
            }
        }
        None => add(rest, member, Sense::Unknown),
    }
}
