//! The values of an expression, computed in parallel over pieces of rows.
ghost use Rattle.std.specs.Prelude.{◌≡◌, ◌≤◌, ◌-◌, [], Some, length, take, drop, IfErr, IfOk, OnOk};
ghost use Rattle.algebra_model.specs.Expression.{val};
ghost use Rattle.algebra_model.specs.Renaming.{read_row};
ghost use Rattle.dict_core.specs.Dict.{IsGrown, term_at};
ghost use Rattle.row_pieces.specs.How.{HasOneWorker};
ghost use Rattle.row_pieces.specs.declared.fault.EvalFault.TheVariants.{Memory};
ghost use Rattle.expression_values.specs.ExpressionOf.{expression_of};
ghost use Rattle.sparql_eval.specs.Computed.{TakesOnly};
ghost use Rattle.sparql_eval.specs.Evaluated.{AreKnown};
ghost use Rattle.sparql_eval.specs.Numbered.{AreKnownAt};
ghost use Rattle.sparql_eval.specs.Values.{AreAllValues, ArePieceValues, AreValues, IsValueOf};

use crate::numbering::number_new;
use crate::piece_values::{PieceValue, PieceValues};
use crate::read_row::ReadRow;
use dict_core::Dict;
use expression_errors::{Place, value_counted};
use piece_pool::{Gate, Job, JobFault, Outcome, run_all};
use rdf_core::Term;
use row_core::Rows;
use row_pieces::{Context, EvalFault, piece_ends, piece_size};
use sparql_algebra::{Expr, ExprFault};
use std::alloc::{AllocError, Global};
use std::hash::RandomState;
use std::sync::Wait;
use std::thread::Threads;

/// Returns the values of the expression for the rows, piece by piece in order. Rows without a value
/// are counted. If one piece holds all rows, no thread is started.
pub(crate) fn values_of<R: Threads + Wait, G: Gate + Sync>(
    context: &Context<R, G>,
    state: RandomState,
    dict: &Dict,
    rows: &Rows,
    expression: &Expr,
    place: Place<'_>,
) -> Result<Vec<PieceValues>, EvalFault>
    requires known { AreKnown dict.now rows.now }
    ensures values { IfOk result (λ pieces. AreAllValues dict.now
        (expression_of expression.now) rows.now.rows pieces.items) }
    ensures alone { length rows.now.rows ≤ context.now.how.now.rows → IfErr result (λ fault. fault ≡ Memory) }
    ensures one_worker { HasOneWorker context.now.how.now → IfErr result (λ fault. fault ≡ Memory) }
{
    let count = rows.len();
    let size = piece_size(count, context.how.rows);
    let pieces = count.div_ceil(size) as u64;
    let job = ValueJob {
        state,
        dict,
        rows,
        expression,
        place,
        size,
    };
    match run_all(
        context.rt,
        context.alloc,
        context.how.workers,
        pieces,
        &job,
        context.gate,
    )? {
        Outcome::All(outs) => Ok(outs),
        Outcome::First { .. } => unreachable!(),
    }
}

/// The rows and the expression, as a job for the workers. A piece has `size` rows.
#[derive(Drop)]
struct ValueJob<'a> {
    state: RandomState,
    dict: &'a Dict,
    rows: &'a Rows,
    expression: &'a Expr,
    place: Place<'a>,
    size: usize,
    ghost known: { AreKnownAt dict.now rows.now.rows },
}

impl<'a> Job for ValueJob<'a> {
    ghost use Rattle.row_pieces.specs.Pieces.{piece_of};
    ghost use Rattle.expression_values.specs.ExpressionOf.{expression_of};
    ghost use Rattle.sparql_eval.specs.Values.{ArePieceValues};

    type Out = PieceValues;

    type Fault = ();

    ghost answers = { λ job i out. ArePieceValues job.dict.now (expression_of job.expression.now) (piece_of job.size i job.rows.now.rows) out };

    ghost faults = { λ _ _ _. ⊥ };

    fn run(&self, alloc: Global, i: u64) -> Result<PieceValues, JobFault<()>> {
        let (from, to) = piece_ends(self.rows.len(), self.size, i);
        match self.values(alloc, from, to) {
            Ok(values) => Ok(values),
            Err(_) => Err(JobFault::Memory),
        }
    }

    ghost exclusive = { λ job i out fault _ absurd. absurd };
}

impl<'a> ValueJob<'a> {
    /// Returns the values for the rows from one place up to another.
    fn values(&self, alloc: Global, from: usize, to: usize) -> Result<PieceValues, AllocError>
        requires places { (from ≤ to) × (to ≤ length self.now.rows.now.rows) }
        ensures values { IfOk result (ArePieceValues self.now.dict.now
            (expression_of self.now.expression.now)
            (take (to - from) (drop from self.now.rows.now.rows))) }
    {
        let mut own = Dict::new(alloc, self.state)?;
        match self.values_into(alloc, &mut own, from, to) {
            Ok(values) => Ok(PieceValues { own, values }),
            Err(_) => Err(AllocError),
        }
    }

    /// Returns the values for the rows from one place up to another. Terms that the borrowed
    /// dictionary lacks are added to the piece's own.
    fn values_into(
        &self,
        alloc: Global,
        own: &mut Dict,
        from: usize,
        to: usize,
    ) -> Result<Vec<PieceValue>, AllocError>
        requires places { (from ≤ to) × (to ≤ length self.now.rows.now.rows) }
        requires empty { own.old ≡ [] }
        ensures values { IfOk result (λ values. AreValues self.now.dict.now own.new
            (expression_of self.now.expression.now)
            (take (to - from) (drop from self.now.rows.now.rows)) values.items) }
    {
        let mut values = Vec::with_capacity(alloc, to - from)?;
        let mut buffer = Vec::new(alloc);
        for i in from..to {
            self.rows.read(i, &mut buffer)?;
            let row = buffer.as_slice();
            let row = ReadRow {
                dict: self.dict,
                row,
            };
            values.push(value_at(alloc, own, self.expression, &row, self.place)?)?;
        }
        Ok(values)
    }
}

/// Returns the value for one row.
#[tactic(auto, using(crate::proofs::ReadingLaws::grown_itself, crate::proofs::TakingLaws::takes_none, crate::proofs::TakingLaws::takes_value))]
fn value_at(
    alloc: Global,
    own: &mut Dict,
    expression: &Expr,
    row: &ReadRow,
    place: Place<'_>,
) -> Result<PieceValue, AllocError>
    ensures grown { OnOk result (IsGrown own.old own.new) }
    ensures value { IfOk result (λ found. IsValueOf row.now.dict.now own.new
        (val (expression_of expression.now) (read_row (term_at row.now.dict.now) row.now.row.now))
        found) }
    ensures needed { OnOk result (TakesOnly (λ t. val (expression_of expression.now)
        (read_row (term_at row.now.dict.now) row.now.row.now) ≡ Some t) own.old own.new) }
{
    match value_counted(alloc, expression, row, place) {
        Ok(term) => number_term(row.dict, own, term),
        Err(ExprFault::Error) => Ok(PieceValue::Error),
        Err(ExprFault::Memory) => Err(AllocError),
    }
}

/// Returns the number of a term that is a value. It is that of the borrowed dictionary if it has
/// the term. Otherwise the term is added to the piece's own dictionary.
#[tactic(auto, using(crate::proofs::ReadingLaws::grown_itself, crate::proofs::ReadingLaws::number_known, crate::proofs::ReadingLaws::number_read, crate::proofs::TakingLaws::takes_none))]
fn number_term(dict: &Dict, own: &mut Dict, term: Term) -> Result<PieceValue, AllocError>
    ensures grown { OnOk result (IsGrown own.old own.new) }
    ensures value { IfOk result (λ found. IsValueOf dict.now own.new (Some term) found) }
    ensures needed { OnOk result (TakesOnly (λ t. t ≡ term) own.old own.new) }
{
    match dict.number_of(&term) {
        Some(number) => Ok(PieceValue::Known(number)),
        None => Ok(PieceValue::Own(number_new(own, term)?)),
    }
}
