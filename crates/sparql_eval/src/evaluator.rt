//! The recursion over the tree of a plan: each operator is applied to the rows of its inputs.
//!
//! The methods of [`Evaluator`] are in several modules: `two_inputs` has Join, LeftJoin and Minus,
//! `filtered_trees` Filter, `named_graphs` and `across_graphs` GRAPH, and `trees_to_join` what a join needs
//! of a tree.
ghost use Rattle.std.specs.Prelude.{◌≡◌, ◌<◌, true, length, option_map, IfErr, IfOk};
ghost use Rattle.std.specs.Option.{ForSome};
ghost use Rattle.algebra_model.specs.Algebra.{is_within};
ghost use Rattle.algebra_model.specs.Expression.{val};
ghost use Rattle.algebra_model.specs.Operators.{extend};
ghost use Rattle.dict_core.specs.Dict.{term_at};
ghost use Rattle.dict_core.specs.NumQuad.{AreBelow, quads_at};
ghost use Rattle.row_pieces.specs.How.{HasOneWorker};
ghost use Rattle.row_pieces.specs.declared.fault.EvalFault.TheVariants.{Memory};
ghost use Rattle.expression_values.specs.ExpressionOf.{expression_of};
ghost use Rattle.sparql_algebra.specs.AlgebraOf.{algebra_of};
ghost use Rattle.sparql_eval.specs.Computed.{IsComputed, IsValue, TakesOnly};
ghost use Rattle.sparql_eval.specs.Evaluated.{AreKnown, IsEvaluated, solutions_of};
ghost use Rattle.sparql_eval.specs.TreeSolutions.{tree_solutions};

use crate::distinctness::distinct;
use crate::extensions::extend_with;
use crate::patterns::pattern_with;
use crate::projections::project_of;
use crate::tables::table;
use crate::two_inputs::Pairing;
use crate::unions::union_of;
use dict_core::Dict;
use expression_errors::{ErrorCounts, Owner, Place};
use piece_pool::Gate;
use quad_index::Index;
use row_core::Rows;
use row_pieces::{Context, EvalFault};
use sparql_algebra::{Expr, Operator};
use std::hash::RandomState;
use std::sync::Wait;
use std::thread::Threads;

/// An evaluation: what its operators are run with, the state that rows are hashed with, the index,
/// and the number of variables.
#[derive(Drop)]
pub(crate) struct Evaluator<'c, 'i, 'e, R, G> {
    pub(crate) context: Context<'c, R, G>,
    pub(crate) state: RandomState,
    pub(crate) index: &'i Index,
    pub(crate) width: usize,
    /// Where the errors of expressions are counted.
    pub(crate) counts: Option<&'e ErrorCounts>,
}

impl<'c, 'i, 'e, R: Threads + Wait, G: Gate + Sync> Evaluator<'c, 'i, 'e, R, G> {
    /// Returns where the errors of an operator's expression are counted.
    pub(crate) fn place(&self, owner: Owner, expr: &Expr) -> Place<'e> {
        match self.counts {
            Some(counts) => counts.place(self.context.alloc, owner, expr),
            None => Place::none(),
        }
    }

    /// Returns the number of quads of the dataset.
    pub(crate) fn quads(&self) -> usize {
        self.index.quads() as usize
    }

    /// Applies Extend to rows. Rows over which the expression is an error are counted.
    pub(crate) fn extend(
        &self,
        dict: Dict,
        rows: Rows,
        variable: usize,
        expression: &Expr,
    ) -> Result<(Rows, Dict), EvalFault>
        requires known { AreKnown dict rows }
        requires variable { variable < rows.width }
        ensures evaluated { IfOk result (λ r. IsEvaluated dict rows.width
            (extend variable (val (expression_of expression.now)) (solutions_of dict rows)) r.0 r.1) }
        ensures needed { IfOk result (λ r. TakesOnly
            (IsValue (val (expression_of expression.now)) (solutions_of dict rows)) dict r.1) }
        ensures one_worker { HasOneWorker self.now.context.how.now → IfErr result (λ fault. fault ≡ Memory) }
    {
        let place = self.place(Owner::Extend(variable), expression);
        extend_with(
            &self.context,
            self.state,
            dict,
            &rows,
            variable,
            expression,
            place,
        )
    }

    /// Evaluates a tree with the graph of this number active, or the default graph if it is None.
    /// Only the terms of VALUES and the values of Extend are added to the dictionary.
    #[cycle(solve)]
    pub(crate) fn solve(
        &self,
        dict: Dict,
        active: Option<u64>,
        tree: &Operator,
    ) -> Result<(Rows, Dict), EvalFault>
        requires index { AreBelow (length dict) self.now.index.now }
        requires active { ForSome active (λ g. g < length dict) }
        requires within { is_within self.now.width (algebra_of tree.now) ≡ true }
        ensures evaluated { IfOk result (λ r. IsEvaluated dict self.now.width
            (tree_solutions dict self.now.index.now self.now.width active tree.now) r.0 r.1) }
        ensures needed { IfOk result (λ r. TakesOnly (IsComputed self.now.width
            (quads_at dict self.now.index.now) (option_map (term_at dict) active)
            (algebra_of tree.now)) dict r.1) }
        ensures one_worker { HasOneWorker self.now.context.how.now → IfErr result (λ fault. fault ≡ Memory) }
    {
        match tree {
            Operator::Pattern { labels, triples } => {
                pattern_with(
                    &self.context,
                    dict,
                    self.index,
                    active,
                    self.width,
                    *labels,
                    triples.as_slice(),
                )
            }
            Operator::Join { left, right } => {
                let (left, dict) = self.solve(dict, active, left)?;
                self.solve_paired(dict, active, left, right, Pairing::Join)
            }
            Operator::LeftJoin {
                left,
                right,
                condition,
            } => {
                let (left, dict) = self.solve(dict, active, left)?;
                self.solve_paired(dict, active, left, right, Pairing::LeftJoin(condition))
            }
            Operator::Union { left, right } => {
                let (left, dict) = self.solve(dict, active, left)?;
                let (right, dict) = self.solve(dict, active, right)?;
                union_of(dict, left, right)
            }
            Operator::Minus { left, right } => {
                let (left, dict) = self.solve(dict, active, left)?;
                self.solve_paired(dict, active, left, right, Pairing::Minus)
            }
            Operator::Graph { name, inner } => self.solve_graph(dict, name, inner),
            Operator::Filter { condition, inner } => {
                self.solve_filter_where(dict, active, inner, condition, &[], None)
            }
            Operator::Extend {
                variable,
                expression,
                inner,
            } => {
                let (rows, dict) = self.solve(dict, active, inner)?;
                self.extend(dict, rows, *variable, expression)
            }
            Operator::Project { variables, inner } => {
                let (rows, dict) = self.solve(dict, active, inner)?;
                project_of(self.context.alloc, dict, rows, variables.as_slice())
            }
            Operator::Distinct { inner } => {
                let (rows, dict) = self.solve(dict, active, inner)?;
                distinct(self.context.alloc, self.state, dict, &rows)
            }
            Operator::Table { variables, rows } => {
                let variables = variables.as_slice();
                table(
                    self.context.alloc,
                    dict,
                    self.width,
                    variables,
                    rows.as_slice(),
                )
            }
        }
    }
}
