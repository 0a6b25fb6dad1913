//! Join and LeftJoin by the equalities that a condition requires.
ghost use Rattle.std.specs.Prelude.{◌≡◌, ◌≤◌, length, map, IfErr, IfOk};
ghost use Rattle.rdf_core.specs.Equality.{term_eq};
ghost use Rattle.algebra_model.specs.Expression.{holds};
ghost use Rattle.algebra_model.specs.Operators.{join, left_join};
ghost use Rattle.row_pieces.specs.How.{HasOneWorker};
ghost use Rattle.row_pieces.specs.declared.fault.EvalFault.TheVariants.{Memory};
ghost use Rattle.expression_values.specs.ExpressionOf.{expression_of};
ghost use Rattle.sparql_eval.specs.Evaluated.{AreKnown, IsEvaluated, solutions_of};
ghost use Rattle.sparql_eval.specs.Fitting.{IsEvaluatedWhere, Requires, fits};
ghost use Rattle.sparql_eval.specs.KeyedRows.{with_keys};

use crate::equalities::Equality;
use crate::keyed_rows::{first_cells, keyed_rows};
use crate::read_row::ReadRow;
use crate::separated::Tested;
use dict_core::Dict;
use expression_errors::{Place, test_counted};
use piece_pool::Gate;
use row_core::Rows;
use row_join::RowTest;
use row_pieces::{Context, EvalFault};
use sparql_algebra::Expr;
use std::alloc::{AllocError, Global};
use std::hash::RandomState;
use std::sync::Wait;
use std::thread::Threads;

/// Returns the rows of a LeftJoin whose condition requires these equalities. Each row gets further
/// cells with the key numbers of their terms, and is joined by them too. The condition is still
/// tested on each pair.
pub(crate) fn left_joined_by_keys<R: Threads + Wait, G: Gate + Sync>(
    context: &Context<R, G>,
    state: RandomState,
    dict: &Dict,
    left: &Rows,
    right: &Rows,
    keys: &[Equality],
    tested: &Tested<'_>,
) -> Result<Rows, EvalFault>
    requires same_width { left.now.width ≡ right.now.width }
    requires known_left { AreKnown dict.now left.now }
    requires known_right { AreKnown dict.now right.now }
    requires required { Requires (holds (expression_of tested.now.condition.now)) keys.now }
    ensures evaluated { IfOk result (λ made. IsEvaluated dict.now left.now.width
        (left_join term_eq (holds (expression_of tested.now.condition.now))
        (solutions_of dict.now left.now) (solutions_of dict.now right.now)) made dict.now) }
    ensures alone { length left.now.rows ≤ context.now.how.now.rows → IfErr result (λ fault. fault ≡ Memory) }
    ensures one_worker { HasOneWorker context.now.how.now → IfErr result (λ fault. fault ≡ Memory) }
{
    let _distinct = dict.len();
    let width = left.width();
    let _same_width = right.width();
    let (left, right) = keyed_sides(context.alloc, dict, left, right, keys)?;
    let test = FirstCondition {
        dict,
        condition: tested.condition,
        width,
        place: tested.place,
    };
    let rows = row_join::left_join(
        context.rt,
        context.alloc,
        state,
        &left,
        &right,
        &test,
        context.how,
        context.gate,
    )?;
    let made = first_cells(context.alloc, &rows, width)?;
    Ok(made)
}

/// Returns the rows of a Join without the pairs whose terms have different keys. Each row gets
/// further cells with the key numbers of these terms, and is joined by them too.
pub(crate) fn joined_by_keys<R: Threads + Wait, G: Gate + Sync>(
    context: &Context<R, G>,
    state: RandomState,
    dict: &Dict,
    left: &Rows,
    right: &Rows,
    keys: &[Equality],
) -> Result<Rows, EvalFault>
    requires same_width { left.now.width ≡ right.now.width }
    requires known_left { AreKnown dict.now left.now }
    requires known_right { AreKnown dict.now right.now }
    ensures evaluated { IfOk result (λ made. IsEvaluatedWhere dict.now left.now.width (fits keys.now)
        (join term_eq (solutions_of dict.now left.now) (solutions_of dict.now right.now)) made dict.now) }
    ensures one_worker { HasOneWorker context.now.how.now → IfErr result (λ fault. fault ≡ Memory) }
{
    let _distinct = dict.len();
    let width = left.width();
    let _same_width = right.width();
    let (left, right) = keyed_sides(context.alloc, dict, left, right, keys)?;
    let joined = row_join::join(
        context.rt,
        context.alloc,
        state,
        &left,
        &right,
        context.how,
        context.gate,
    )?;
    let made = first_cells(context.alloc, &joined, width)?;
    Ok(made)
}

/// Returns the rows of both sides, each followed by the key numbers of the terms of its side's variables.
fn keyed_sides(
    alloc: Global,
    dict: &Dict,
    left: &Rows,
    right: &Rows,
    keys: &[Equality],
) -> Result<(Rows, Rows), AllocError>
    requires same_width { left.now.width ≡ right.now.width }
    requires known_left { AreKnown dict.now left.now }
    requires known_right { AreKnown dict.now right.now }
    ensures same_width { IfOk result (λ made. made.0.width ≡ made.1.width) }
    ensures wide { IfOk result (λ made. left.now.width ≤ made.0.width) }
    ensures left { IfOk result (λ made. made.0.rows
        ≡ map (with_keys dict.now (map (λ key. key.left.variable) keys.now)) left.now.rows) }
    ensures right { IfOk result (λ made. made.1.rows
        ≡ map (with_keys dict.now (map (λ key. key.right.variable) keys.now)) right.now.rows) }
{
    let (left_variables, right_variables) = key_variables(alloc, keys)?;
    let left = keyed_rows(alloc, dict, left, left_variables.as_slice())?;
    let right = keyed_rows(alloc, dict, right, right_variables.as_slice())?;
    Ok((left, right))
}

/// Returns the variables of the left side and those of the right side.
fn key_variables(alloc: Global, keys: &[Equality]) -> Result<(Vec<usize>, Vec<usize>), AllocError>
    ensures left { IfOk result (λ made. made.0.items ≡ map (λ key. key.left.variable) keys.now) }
    ensures right { IfOk result (λ made. made.1.items ≡ map (λ key. key.right.variable) keys.now) }
{
    let mut lefts = Vec::new(alloc);
    let mut rights = Vec::new(alloc);
    for i in 0..keys.len() {
        lefts.push(keys[i].left.variable)?;
        rights.push(keys[i].right.variable)?;
    }
    Ok((lefts, rights))
}

/// The condition of a left join, which is tested on the first cells of a row.
#[derive(Drop)]
struct FirstCondition<'a> {
    dict: &'a Dict,
    condition: &'a Expr,
    width: usize,
    place: Place<'a>,
}

impl<'a> RowTest for FirstCondition<'a> {
    ghost use Rattle.std.specs.Prelude.{length, nat_lt, take};
    ghost use Rattle.algebra_model.specs.Expression.{holds};
    ghost use Rattle.algebra_model.specs.Renaming.{read_row};
    ghost use Rattle.dict_core.specs.Dict.{term_at};
    ghost use Rattle.expression_values.specs.ExpressionOf.{expression_of};

    ghost knows = { λ t n. nat_lt n (length t.dict.now) };

    ghost keeps = { λ t μ. holds (expression_of t.condition.now) (read_row (term_at t.dict.now) (take t.width μ)) };

    fn keeps(&self, alloc: Global, row: &[Option<u64>]) -> Result<bool, AllocError> {
        let width = self.width.min(row.len());
        let row = ReadRow {
            dict: self.dict,
            row: &row[..width],
        };
        test_counted(alloc, self.condition, &row, self.place)
    }

    fn is_certain(&self) -> bool {
        false
    }
}
