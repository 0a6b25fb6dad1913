//! Join, LeftJoin and Minus (SPARQL 1.1 Query Language, section 18.5).
ghost use Rattle.std.specs.Bool.{OnTrue};
ghost use Rattle.std.specs.List.{list_all};
ghost use Rattle.std.specs.Prelude.{◌≡◌, ◌<◌, ◌≤◌, ◌∷◌, [], get_or, is_some, length, not, replicate, true, None, IfErr, IfOk};
ghost use Rattle.rdf_core.specs.Equality.{term_eq};
ghost use Rattle.rdf_core.specs.declared.term.Term.{Term};
ghost use Rattle.algebra_model.specs.Expression.{holds};
ghost use Rattle.algebra_model.specs.Operators.{join, left_join, minus};
ghost use Rattle.algebra_model.specs.Solution.{Solution};
ghost use Rattle.row_pieces.specs.How.{IsRunnable, HasOneWorker};
ghost use Rattle.row_pieces.specs.declared.fault.EvalFault.TheVariants.{Memory};
ghost use Rattle.expression_values.specs.ExpressionOf.{expression_of};
ghost use Rattle.sparql_eval.specs.Evaluated.{AreKnown, IsEvaluated, solutions_of};

use crate::equalities::equalities;
use crate::keyed_joins::left_joined_by_keys;
use crate::keyed_rows::join_keys;
use crate::operator_result::with_dict;
use crate::read_row::ReadRow;
use crate::separated::{Tested, count_separated, is_joined_whole};
use dict_core::Dict;
use expression_errors::{Place, test_counted};
use piece_pool::Gate;
use row_core::Rows;
use row_join::RowTest;
use row_pieces::{Context, EvalFault, How};
use sparql_algebra::Expr;
use std::alloc::{AllocError, Global};
use std::hash::RandomState;
use std::sync::Wait;
use std::thread::Threads;
use term_values::truth;

/// Evaluates Join: returns the merge of each compatible pair of rows, once for each pair. The right
/// side is hashed with the given state, and the pieces of the left side borrow it. The dictionary
/// is returned unchanged.
///
/// # Requires
/// - Both sides have the same width.
/// - Each number in them is below the length of the dictionary.
/// - `how` keeps its limits.
///
/// # Errors
/// - `WorkerRefused` if a worker thread could not be started. It cannot occur with one worker, or
///   if one piece holds all left rows.
/// - `Memory` if an allocation fails.
///
/// On error, the dictionary is dropped.
pub fn join<R: Threads + Wait, G: Gate + Sync>(
    rt: &R,
    alloc: Global,
    state: RandomState,
    dict: Dict,
    left: &Rows,
    right: &Rows,
    how: &How,
    gate: &G,
) -> Result<(Rows, Dict), EvalFault>
    requires same_width { left.now.width ≡ right.now.width }
    requires known_left { AreKnown dict left.now }
    requires known_right { AreKnown dict right.now }
    requires how { IsRunnable how.now }
    ensures evaluated { IfOk result (λ r. IsEvaluated dict left.now.width
        (join term_eq (solutions_of dict left.now) (solutions_of dict right.now)) r.0 r.1) }
    ensures same_dict { IfOk result (λ r. r.1 ≡ dict) }
    ensures alone { length left.now.rows ≤ how.now.rows → IfErr result (λ fault. fault ≡ Memory) }
    ensures one_worker { HasOneWorker how.now → IfErr result (λ fault. fault ≡ Memory) }
{
    let context = Context {
        rt,
        alloc,
        how,
        gate,
    };
    join_with(&context, state, dict, left, right)
}

/// Evaluates Join, as [`join`] does, with a context.
pub(crate) fn join_with<R: Threads + Wait, G: Gate + Sync>(
    context: &Context<R, G>,
    state: RandomState,
    dict: Dict,
    left: &Rows,
    right: &Rows,
) -> Result<(Rows, Dict), EvalFault>
    requires same_width { left.now.width ≡ right.now.width }
    requires known_left { AreKnown dict left.now }
    requires known_right { AreKnown dict right.now }
    ensures evaluated { IfOk result (λ r. IsEvaluated dict left.now.width
        (join term_eq (solutions_of dict left.now) (solutions_of dict right.now)) r.0 r.1) }
    ensures same_dict { IfOk result (λ r. r.1 ≡ dict) }
    ensures alone { length left.now.rows ≤ context.now.how.now.rows → IfErr result (λ fault. fault ≡ Memory) }
    ensures one_worker { HasOneWorker context.now.how.now → IfErr result (λ fault. fault ≡ Memory) }
{
    let _distinct = dict.len();
    let made = row_join::join(
        context.rt,
        context.alloc,
        state,
        left,
        right,
        context.how,
        context.gate,
    );
    with_dict(made, dict)
}

/// Joins rows that the evaluator no longer needs. If the left side is the one row that binds
/// nothing, with which each group graph pattern begins, the result is the right side. The
/// dictionary is returned unchanged. If one piece holds all left rows, no thread is started.
pub(crate) fn join_of<R: Threads + Wait, G: Gate + Sync>(
    context: &Context<R, G>,
    state: RandomState,
    dict: Dict,
    left: Rows,
    right: Rows,
) -> Result<(Rows, Dict), EvalFault>
    requires same_width { left.width ≡ right.width }
    requires known_left { AreKnown dict left }
    requires known_right { AreKnown dict right }
    ensures evaluated { IfOk result (λ r. IsEvaluated dict left.width
        (join term_eq (solutions_of dict left) (solutions_of dict right)) r.0 r.1) }
    ensures same_dict { IfOk result (λ r. r.1 ≡ dict) }
    ensures alone { length left.rows ≤ context.now.how.now.rows → IfErr result (λ fault. fault ≡ Memory) }
    ensures one_worker { HasOneWorker context.now.how.now → IfErr result (λ fault. fault ≡ Memory) }
{
    if binds_nothing(&left, right.width()) {
        return Ok((right, dict));
    }
    join_with(context, state, dict, &left, &right)
}

/// Returns whether there is exactly one row, of this width, and it binds no variable.
fn binds_nothing(rows: &Rows, width: usize) -> bool
    requires width { rows.now.width ≡ width }
    ensures unit { OnTrue result (rows.now.rows ≡ replicate width None ∷ []) }
    ensures seen { rows.now.rows ≡ replicate width None ∷ [] → result ≡ true }
{
    rows.len() == 1 && first_is_open(rows)
}

/// Returns whether the first row binds no variable.
fn first_is_open(rows: &Rows) -> bool
    requires some { 0 < length rows.now.rows }
    ensures value { result ≡ list_all (λ cell. not (is_some cell)) (get_or rows.now.rows 0 []) }
    ensures wide { length (get_or rows.now.rows 0 []) ≡ rows.now.width }
{
    for variable in 0..rows.width() {
        if rows.get(0, variable).is_some() {
            return false;
        }
    }
    true
}

/// Evaluates LeftJoin: returns the merges of the compatible pairs for which the condition is true,
/// and each left row that has no such pair. The dictionary is returned unchanged.
///
/// # Requires
/// - Both sides have the same width.
/// - Each number in them is below the length of the dictionary.
/// - `how` keeps its limits.
///
/// # Errors
/// - `WorkerRefused` if a worker thread could not be started. It cannot occur with one worker, or
///   if one piece holds all left rows.
/// - `Memory` if an allocation fails.
///
/// On error, the dictionary is dropped.
pub fn left_join<R: Threads + Wait, G: Gate + Sync>(
    rt: &R,
    alloc: Global,
    state: RandomState,
    dict: Dict,
    left: &Rows,
    right: &Rows,
    condition: &Expr,
    how: &How,
    gate: &G,
) -> Result<(Rows, Dict), EvalFault>
    requires same_width { left.now.width ≡ right.now.width }
    requires known_left { AreKnown dict left.now }
    requires known_right { AreKnown dict right.now }
    requires how { IsRunnable how.now }
    ensures evaluated { IfOk result (λ r. IsEvaluated dict left.now.width
        (left_join term_eq (holds (expression_of condition.now))
        (solutions_of dict left.now) (solutions_of dict right.now)) r.0 r.1) }
    ensures same_dict { IfOk result (λ r. r.1 ≡ dict) }
    ensures alone { length left.now.rows ≤ how.now.rows → IfErr result (λ fault. fault ≡ Memory) }
    ensures one_worker { HasOneWorker how.now → IfErr result (λ fault. fault ≡ Memory) }
{
    let context = Context {
        rt,
        alloc,
        how,
        gate,
    };
    left_join_with(&context, state, dict, left, right, condition, Place::none())
}

/// Evaluates LeftJoin, as [`left_join`] does, with a context. Pairs of rows over which the condition is
/// an error are counted.
pub(crate) fn left_join_with<R: Threads + Wait, G: Gate + Sync>(
    context: &Context<R, G>,
    state: RandomState,
    dict: Dict,
    left: &Rows,
    right: &Rows,
    condition: &Expr,
    place: Place<'_>,
) -> Result<(Rows, Dict), EvalFault>
    requires same_width { left.now.width ≡ right.now.width }
    requires known_left { AreKnown dict left.now }
    requires known_right { AreKnown dict right.now }
    ensures evaluated { IfOk result (λ r. IsEvaluated dict left.now.width
        (left_join term_eq (holds (expression_of condition.now))
        (solutions_of dict left.now) (solutions_of dict right.now)) r.0 r.1) }
    ensures same_dict { IfOk result (λ r. r.1 ≡ dict) }
    ensures alone { length left.now.rows ≤ context.now.how.now.rows → IfErr result (λ fault. fault ≡ Memory) }
    ensures one_worker { HasOneWorker context.now.how.now → IfErr result (λ fault. fault ≡ Memory) }
{
    let made = left_joined(context, state, &dict, left, right, condition, place);
    with_dict(made, dict)
}

/// Returns the rows of a LeftJoin.
fn left_joined<R: Threads + Wait, G: Gate + Sync>(
    context: &Context<R, G>,
    state: RandomState,
    dict: &Dict,
    left: &Rows,
    right: &Rows,
    condition: &Expr,
    place: Place<'_>,
) -> Result<Rows, EvalFault>
    requires same_width { left.now.width ≡ right.now.width }
    requires known_left { AreKnown dict.now left.now }
    requires known_right { AreKnown dict.now right.now }
    ensures evaluated { IfOk result (λ made. IsEvaluated dict.now left.now.width
        (left_join term_eq (holds (expression_of condition.now))
        (solutions_of dict.now left.now) (solutions_of dict.now right.now)) made dict.now) }
    ensures alone { length left.now.rows ≤ context.now.how.now.rows → IfErr result (λ fault. fault ≡ Memory) }
    ensures one_worker { HasOneWorker context.now.how.now → IfErr result (λ fault. fault ≡ Memory) }
{
    let pairs = equalities(context.alloc, condition)?;
    let keys = join_keys(context.alloc, left, right, pairs.as_slice())?;
    let keys = keys.as_slice();
    let tested = Tested {
        condition,
        place,
        further: None,
        around: &[],
    };
    if is_joined_whole(context.alloc, dict, left, right, keys, &tested) {
        return left_joined_by_rows(context, state, dict, left, right, condition, place);
    }
    count_separated(context.alloc, dict, left, right, keys, &tested);
    left_joined_by_keys(context, state, dict, left, right, keys, &tested)
}

/// Returns the rows of a LeftJoin, joined by the variables that both sides bind.
fn left_joined_by_rows<R: Threads + Wait, G: Gate + Sync>(
    context: &Context<R, G>,
    state: RandomState,
    dict: &Dict,
    left: &Rows,
    right: &Rows,
    condition: &Expr,
    place: Place<'_>,
) -> Result<Rows, EvalFault>
    requires same_width { left.now.width ≡ right.now.width }
    requires known_left { AreKnown dict.now left.now }
    requires known_right { AreKnown dict.now right.now }
    ensures evaluated { IfOk result (λ made. IsEvaluated dict.now left.now.width
        (left_join term_eq (holds (expression_of condition.now))
        (solutions_of dict.now left.now) (solutions_of dict.now right.now)) made dict.now) }
    ensures alone { length left.now.rows ≤ context.now.how.now.rows → IfErr result (λ fault. fault ≡ Memory) }
    ensures one_worker { HasOneWorker context.now.how.now → IfErr result (λ fault. fault ≡ Memory) }
{
    let _distinct = dict.len();
    let test = Condition {
        dict,
        condition,
        place,
        is_certain: is_certain(condition),
    };
    row_join::left_join(
        context.rt,
        context.alloc,
        state,
        left,
        right,
        &test,
        context.how,
        context.gate,
    )
}

/// Evaluates Minus: returns each left row for which every right row is incompatible with it or
/// shares no bound variable with it. The dictionary is returned unchanged.
///
/// # Requires
/// - Both sides have the same width.
/// - Each number in them is below the length of the dictionary.
/// - `how` keeps its limits.
///
/// # Errors
/// - `WorkerRefused` if a worker thread could not be started. It cannot occur with one worker, or
///   if one piece holds all left rows.
/// - `Memory` if an allocation fails.
///
/// On error, the dictionary is dropped.
pub fn minus<R: Threads + Wait, G: Gate + Sync>(
    rt: &R,
    alloc: Global,
    state: RandomState,
    dict: Dict,
    left: &Rows,
    right: &Rows,
    how: &How,
    gate: &G,
) -> Result<(Rows, Dict), EvalFault>
    requires same_width { left.now.width ≡ right.now.width }
    requires known_left { AreKnown dict left.now }
    requires known_right { AreKnown dict right.now }
    requires how { IsRunnable how.now }
    ensures evaluated { IfOk result (λ r. IsEvaluated dict left.now.width
        (minus term_eq (solutions_of dict left.now) (solutions_of dict right.now)) r.0 r.1) }
    ensures same_dict { IfOk result (λ r. r.1 ≡ dict) }
    ensures alone { length left.now.rows ≤ how.now.rows → IfErr result (λ fault. fault ≡ Memory) }
    ensures one_worker { HasOneWorker how.now → IfErr result (λ fault. fault ≡ Memory) }
{
    let context = Context {
        rt,
        alloc,
        how,
        gate,
    };
    minus_with(&context, state, dict, left, right)
}

/// Evaluates Minus, as [`minus`] does, with a context.
pub(crate) fn minus_with<R: Threads + Wait, G: Gate + Sync>(
    context: &Context<R, G>,
    state: RandomState,
    dict: Dict,
    left: &Rows,
    right: &Rows,
) -> Result<(Rows, Dict), EvalFault>
    requires same_width { left.now.width ≡ right.now.width }
    requires known_left { AreKnown dict left.now }
    requires known_right { AreKnown dict right.now }
    ensures evaluated { IfOk result (λ r. IsEvaluated dict left.now.width
        (minus term_eq (solutions_of dict left.now) (solutions_of dict right.now)) r.0 r.1) }
    ensures same_dict { IfOk result (λ r. r.1 ≡ dict) }
    ensures alone { length left.now.rows ≤ context.now.how.now.rows → IfErr result (λ fault. fault ≡ Memory) }
    ensures one_worker { HasOneWorker context.now.how.now → IfErr result (λ fault. fault ≡ Memory) }
{
    let _distinct = dict.len();
    let made = row_join::minus(
        context.rt,
        context.alloc,
        state,
        left,
        right,
        context.how,
        context.gate,
    );
    with_dict(made, dict)
}

/// The condition of a left join, with the dictionary of the numbers in the rows.
#[derive(Drop)]
struct Condition<'a> {
    dict: &'a Dict,
    condition: &'a Expr,
    place: Place<'a>,
    /// Whether the condition is true of all rows, so that it need not be evaluated.
    is_certain: bool,
    ghost certain: { is_certain ≡ true → (μ : Solution Term) → holds (expression_of condition.now) μ ≡ true },
}

impl<'a> RowTest for Condition<'a> {
    ghost use Rattle.std.specs.Prelude.{length, nat_lt};
    ghost use Rattle.algebra_model.specs.Expression.{holds};
    ghost use Rattle.algebra_model.specs.Renaming.{read_row};
    ghost use Rattle.dict_core.specs.Dict.{term_at};
    ghost use Rattle.expression_values.specs.ExpressionOf.{expression_of};

    ghost knows = { λ t n. nat_lt n (length t.dict.now) };

    ghost keeps = { λ t μ. holds (expression_of t.condition.now) (read_row (term_at t.dict.now) μ) };

    fn keeps(&self, alloc: Global, row: &[Option<u64>]) -> Result<bool, AllocError> {
        let row = ReadRow {
            dict: self.dict,
            row,
        };
        test_counted(alloc, self.condition, &row, self.place)
    }

    fn is_certain(&self) -> bool {
        self.is_certain
    }
}

/// Returns whether a condition is a constant whose effective boolean value is true, as that of an
/// OPTIONAL without FILTER is. It is true of all rows.
fn is_certain(condition: &Expr) -> bool
    ensures certain { result ≡ true → (μ : Solution Term) → holds (expression_of condition.now) μ ≡ true }
{
    match condition {
        Expr::Constant(term) => truth(term) == Some(true),
        _ => false,
    }
}
