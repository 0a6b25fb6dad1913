//! Extend (SPARQL 1.1 Query Language, section 18.5).
ghost use Rattle.std.specs.Prelude.{◌≡◌, ◌<◌, ◌≤◌, length, get_or, is_some, not, None, IfErr, IfOk, OnOk};
ghost use Rattle.algebra_model.specs.Expression.{val};
ghost use Rattle.algebra_model.specs.Operators.{bind, extend};
ghost use Rattle.row_pieces.specs.How.{IsRunnable, HasOneWorker};
ghost use Rattle.row_pieces.specs.declared.fault.EvalFault.TheVariants.{Memory};
ghost use Rattle.expression_values.specs.ExpressionOf.{expression_of};
ghost use Rattle.sparql_eval.specs.Computed.{IsValue, TakesOnly};
ghost use Rattle.sparql_eval.specs.Evaluated.{AreKnown, IsEvaluated, solutions_of};
ghost use Rattle.sparql_eval.specs.Values.{bind_each};

use crate::operator_result::with_dict;
use crate::piece_values::number_values;
use crate::values::values_of;
use dict_core::Dict;
use expression_errors::Place;
use piece_pool::Gate;
use row_core::Rows;
use row_pieces::{Context, EvalFault, How};
use sparql_algebra::Expr;
use std::alloc::{AllocError, Global};
use std::hash::RandomState;
use std::sync::Wait;
use std::thread::Threads;

/// Evaluates Extend: returns every row, with the variable bound to the value of the expression. A
/// row is unchanged if the expression is an error, or if the row binds the variable already.
///
/// The values are computed in parallel over pieces of the rows. Each piece numbers the terms that
/// the dictionary lacks with a dictionary of its own, hashed with the given state. These terms are
/// then added to the dictionary, piece by piece in order. A value that is a term of the dictionary
/// gets the number of that term. Only values of the rows are added to the dictionary.
///
/// # Requires
/// - Each number in the rows is below the length of the dictionary.
/// - The variable is below the width of the rows.
/// - `how` keeps its limits.
///
/// # Errors
/// - `WorkerRefused` if a worker thread could not be started. It cannot occur with one worker, or
///   if one piece holds all rows.
/// - `Memory` if an allocation fails.
///
/// On error, the dictionary is dropped.
pub fn extend<R: Threads + Wait, G: Gate + Sync>(
    rt: &R,
    alloc: Global,
    state: RandomState,
    dict: Dict,
    rows: &Rows,
    variable: usize,
    expression: &Expr,
    how: &How,
    gate: &G,
) -> Result<(Rows, Dict), EvalFault>
    requires known { AreKnown dict rows.now }
    requires variable { variable < rows.now.width }
    requires how { IsRunnable how.now }
    ensures evaluated { IfOk result (λ r. IsEvaluated dict rows.now.width
        (extend variable (val (expression_of expression.now)) (solutions_of dict rows.now)) r.0 r.1) }
    ensures needed { IfOk result (λ r. TakesOnly
        (IsValue (val (expression_of expression.now)) (solutions_of dict rows.now)) dict r.1) }
    ensures alone { length rows.now.rows ≤ how.now.rows → IfErr result (λ fault. fault ≡ Memory) }
    ensures one_worker { HasOneWorker how.now → IfErr result (λ fault. fault ≡ Memory) }
{
    let context = Context {
        rt,
        alloc,
        how,
        gate,
    };
    extend_with(
        &context,
        state,
        dict,
        rows,
        variable,
        expression,
        Place::none(),
    )
}

/// Evaluates Extend, as [`extend`] does, with a context. Rows over which the expression is an error are
/// counted.
pub(crate) fn extend_with<R: Threads + Wait, G: Gate + Sync>(
    context: &Context<R, G>,
    state: RandomState,
    dict: Dict,
    rows: &Rows,
    variable: usize,
    expression: &Expr,
    place: Place<'_>,
) -> Result<(Rows, Dict), EvalFault>
    requires known { AreKnown dict rows.now }
    requires variable { variable < rows.now.width }
    ensures evaluated { IfOk result (λ r. IsEvaluated dict rows.now.width
        (extend variable (val (expression_of expression.now)) (solutions_of dict rows.now)) r.0 r.1) }
    ensures needed { IfOk result (λ r. TakesOnly
        (IsValue (val (expression_of expression.now)) (solutions_of dict rows.now)) dict r.1) }
    ensures alone { length rows.now.rows ≤ context.now.how.now.rows → IfErr result (λ fault. fault ≡ Memory) }
    ensures one_worker { HasOneWorker context.now.how.now → IfErr result (λ fault. fault ≡ Memory) }
{
    let mut dict = dict;
    let made = extended(context, state, &mut dict, rows, variable, expression, place);
    with_dict(made, dict)
}

/// Returns the rows of an Extend.
fn extended<R: Threads + Wait, G: Gate + Sync>(
    context: &Context<R, G>,
    state: RandomState,
    dict: &mut Dict,
    rows: &Rows,
    variable: usize,
    expression: &Expr,
    place: Place<'_>,
) -> Result<Rows, EvalFault>
    requires known { AreKnown dict.old rows.now }
    requires variable { variable < rows.now.width }
    ensures evaluated { IfOk result (λ made. IsEvaluated dict.old rows.now.width
        (extend variable (val (expression_of expression.now)) (solutions_of dict.old rows.now)) made dict.new) }
    ensures needed { OnOk result (TakesOnly
        (IsValue (val (expression_of expression.now)) (solutions_of dict.old rows.now)) dict.old dict.new) }
    ensures alone { length rows.now.rows ≤ context.now.how.now.rows → IfErr result (λ fault. fault ≡ Memory) }
    ensures one_worker { HasOneWorker context.now.how.now → IfErr result (λ fault. fault ≡ Memory) }
{
    let pieces = values_of(context, state, dict, rows, expression, place)?;
    let numbers = number_values(context.alloc, dict, pieces)?;
    let made = extend_rows(context.alloc, rows, variable, numbers.as_slice())?;
    Ok(made)
}

/// Binds the variable in each row to its number.
fn extend_rows(
    alloc: Global,
    rows: &Rows,
    variable: usize,
    numbers: &[Option<u64>],
) -> Result<Rows, AllocError>
    requires variable { variable < rows.now.width }
    requires each { length numbers.now ≡ length rows.now.rows }
    ensures width { IfOk result (λ made. made.width ≡ rows.now.width) }
    ensures rows { IfOk result (λ made. made.rows ≡ bind_each variable numbers.now rows.now.rows) }
{
    let mut made = Rows::new(alloc, rows.width());
    let mut buffer = Vec::new(alloc);
    let mut extended = Vec::with_capacity(alloc, rows.width())?;
    for i in 0..rows.len() {
        rows.read(i, &mut buffer)?;
        let row = buffer.as_slice();
        extend_row(&mut extended, row, variable, numbers[i])?;
        made.push(extended.as_slice())?;
    }
    Ok(made)
}

/// Replaces the contents of `extended` with a row that has the variable bound to the number.
fn extend_row(
    extended: &mut Vec<Option<u64>>,
    row: &[Option<u64>],
    variable: usize,
    number: Option<u64>,
) -> Result<(), AllocError>
    requires variable { variable < length row.now }
    ensures bound { OnOk result (extended.new.items ≡ bind variable number row.now) }
{
    extended.clear();
    extended.extend_from_slice(row)?;
    if is_open(row, variable) {
        extended[variable] = number;
    }
    Ok(())
}

/// Returns whether the row leaves the variable unbound.
fn is_open(row: &[Option<u64>], variable: usize) -> bool
    requires variable { variable < length row.now }
    ensures value { result ≡ not (is_some (get_or row.now variable None)) }
{
    row[variable].is_none()
}
