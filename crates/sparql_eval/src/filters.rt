//! Filter (SPARQL 1.1 Query Language, section 18.5).
ghost use Rattle.std.specs.Prelude.{◌≡◌, ◌≤◌, filter, length, IfErr, IfOk};
ghost use Rattle.algebra_model.specs.Expression.{holds};
ghost use Rattle.row_pieces.specs.How.{IsRunnable, HasOneWorker};
ghost use Rattle.row_pieces.specs.declared.fault.EvalFault.TheVariants.{Memory};
ghost use Rattle.expression_values.specs.ExpressionOf.{expression_of};
ghost use Rattle.sparql_eval.specs.Evaluated.{AreKnown, IsEvaluated, solutions_of};
ghost use Rattle.sparql_eval.specs.Numbered.{AreKnownAt};

use crate::operator_result::with_dict;
use crate::read_row::ReadRow;
use dict_core::Dict;
use expression_errors::{Place, test_counted};
use piece_pool::Gate;
use row_core::Rows;
use row_pieces::{Context, EvalFault, How, RowWork, over_pieces};
use sparql_algebra::Expr;
use std::alloc::{AllocError, Global};
use std::sync::Wait;
use std::thread::Threads;

/// Evaluates Filter: returns the rows for which the effective boolean value of the condition is
/// true. Pieces of the rows are tested in parallel. The dictionary is returned unchanged.
///
/// # Requires
/// - Each number in the rows is below the length of the dictionary.
/// - `how` keeps its limits.
///
/// # Errors
/// - `WorkerRefused` if a worker thread could not be started. It cannot occur with one worker, or
///   if one piece holds all rows.
/// - `Memory` if an allocation fails.
///
/// On error, the dictionary is dropped.
pub fn filter<R: Threads + Wait, G: Gate + Sync>(
    rt: &R,
    alloc: Global,
    dict: Dict,
    rows: &Rows,
    condition: &Expr,
    how: &How,
    gate: &G,
) -> Result<(Rows, Dict), EvalFault>
    requires known { AreKnown dict rows.now }
    requires how { IsRunnable how.now }
    ensures evaluated { IfOk result (λ r. IsEvaluated dict rows.now.width
        (filter (holds (expression_of condition.now)) (solutions_of dict rows.now)) r.0 r.1) }
    ensures same_dict { IfOk result (λ r. r.1 ≡ dict) }
    ensures alone { length rows.now.rows ≤ how.now.rows → IfErr result (λ fault. fault ≡ Memory) }
    ensures one_worker { HasOneWorker how.now → IfErr result (λ fault. fault ≡ Memory) }
{
    let context = Context {
        rt,
        alloc,
        how,
        gate,
    };
    filter_with(&context, dict, rows, condition, Place::none())
}

/// Evaluates Filter, as [`filter`] does, with a context. Rows over which the condition is an error are
/// counted.
pub(crate) fn filter_with<R: Threads + Wait, G: Gate + Sync>(
    context: &Context<R, G>,
    dict: Dict,
    rows: &Rows,
    condition: &Expr,
    place: Place<'_>,
) -> Result<(Rows, Dict), EvalFault>
    requires known { AreKnown dict rows.now }
    ensures evaluated { IfOk result (λ r. IsEvaluated dict rows.now.width
        (filter (holds (expression_of condition.now)) (solutions_of dict rows.now)) r.0 r.1) }
    ensures same_dict { IfOk result (λ r. r.1 ≡ dict) }
    ensures alone { length rows.now.rows ≤ context.now.how.now.rows → IfErr result (λ fault. fault ≡ Memory) }
    ensures one_worker { HasOneWorker context.now.how.now → IfErr result (λ fault. fault ≡ Memory) }
{
    let made = filtered(context, &dict, rows, condition, place);
    with_dict(made, dict)
}

/// Returns the rows that pass the condition.
fn filtered<R: Threads + Wait, G: Gate + Sync>(
    context: &Context<R, G>,
    dict: &Dict,
    rows: &Rows,
    condition: &Expr,
    place: Place<'_>,
) -> Result<Rows, EvalFault>
    requires known { AreKnown dict.now rows.now }
    ensures evaluated { IfOk result (λ made. IsEvaluated dict.now rows.now.width
        (filter (holds (expression_of condition.now)) (solutions_of dict.now rows.now)) made dict.now) }
    ensures alone { length rows.now.rows ≤ context.now.how.now.rows → IfErr result (λ fault. fault ≡ Memory) }
    ensures one_worker { HasOneWorker context.now.how.now → IfErr result (λ fault. fault ≡ Memory) }
{
    let work = FilterWork {
        dict,
        rows,
        condition,
        place,
    };
    over_pieces(context.rt, context.alloc, &work, context.how, context.gate)
}

/// The rows to filter and the condition, as a job for the workers.
#[derive(Drop)]
struct FilterWork<'a> {
    dict: &'a Dict,
    rows: &'a Rows,
    condition: &'a Expr,
    place: Place<'a>,
    ghost known: { AreKnownAt dict.now rows.now.rows },
}

impl<'a> RowWork for FilterWork<'a> {
    ghost use Rattle.expression_values.specs.ExpressionOf.{expression_of};
    ghost use Rattle.sparql_eval.specs.FilterParts.{filter_parts};

    ghost width = { λ work. work.rows.now.width };

    ghost parts = { λ work. filter_parts work.dict.now (expression_of work.condition.now) work.rows.now.rows };

    fn row_width(&self) -> usize {
        self.rows.width()
    }

    fn count(&self) -> usize {
        self.rows.len()
    }

    fn run(&self, alloc: Global, from: usize, to: usize) -> Result<Rows, AllocError> {
        let mut made = Rows::new(alloc, self.rows.width());
        let mut buffer = Vec::new(alloc);
        for i in from..to {
            self.rows.read(i, &mut buffer)?;
            let row = buffer.as_slice();
            let row = ReadRow {
                dict: self.dict,
                row,
            };
            if test_counted(alloc, self.condition, &row, self.place)? {
                made.push_row(self.rows, i)?;
            }
        }
        Ok(made)
    }
}
