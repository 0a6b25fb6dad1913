//! Filters, and the trees below them, of which only the solutions are needed that fit: the terms of variables
//! that a filter requires to be equal have one key.
ghost use Rattle.std.specs.Prelude.{◌≡◌, ◌<◌, true, filter, length, IfErr, IfOk};
ghost use Rattle.std.specs.Option.{ForSome};
ghost use Rattle.rdf_core.specs.Equality.{term_eq};
ghost use Rattle.algebra_model.specs.Algebra.{is_within};
ghost use Rattle.algebra_model.specs.Expression.{holds};
ghost use Rattle.algebra_model.specs.Operators.{join};
ghost use Rattle.dict_core.specs.NumQuad.{AreBelow};
ghost use Rattle.row_pieces.specs.How.{HasOneWorker};
ghost use Rattle.row_pieces.specs.declared.fault.EvalFault.TheVariants.{Memory};
ghost use Rattle.expression_values.specs.ExpressionOf.{expression_of};
ghost use Rattle.sparql_algebra.specs.AlgebraOf.{algebra_of};
ghost use Rattle.sparql_eval.specs.Computed.{TakesOnly};
ghost use Rattle.sparql_eval.specs.Evaluated.{AreKnown, solutions_of};
ghost use Rattle.sparql_eval.specs.Fitting.{IsEvaluatedWhere, fits};
ghost use Rattle.sparql_eval.specs.Possible.{may_join};
ghost use Rattle.sparql_eval.specs.TreeSolutions.{Needed, tree_solutions};

use crate::equalities::{Equality, with_equalities};
use crate::evaluator::Evaluator;
use crate::filters::filter_with;
use crate::fitted_joins::join_where;
use crate::separated::{Tested, further_around, places_around};
use dict_core::Dict;
use expression_errors::Owner;
use piece_pool::Gate;
use row_core::Rows;
use row_pieces::EvalFault;
use sparql_algebra::{Expr, Operator};
use std::sync::Wait;
use std::thread::Threads;

impl<'c, 'i, 'e, R: Threads + Wait, G: Gate + Sync> Evaluator<'c, 'i, 'e, R, G> {
    /// Evaluates a Filter and its input. Only the solutions that fit are needed, which are all if there are no
    /// pairs. The filter around it, if there is one, is tested on these solutions later.
    #[cycle(solve)]
    pub(crate) fn solve_filter_where(
        &self,
        dict: Dict,
        active: Option<u64>,
        inner: &Operator,
        condition: &Expr,
        pairs: &[Equality],
        outer: Option<&Tested<'_>>,
    ) -> Result<(Rows, Dict), EvalFault>
        requires index { AreBelow (length dict) self.now.index.now }
        requires active { ForSome active (λ g. g < length dict) }
        requires within { is_within self.now.width (algebra_of inner.now) ≡ true }
        ensures evaluated { IfOk result (λ r. IsEvaluatedWhere dict self.now.width (fits pairs.now)
            (filter (holds (expression_of condition.now))
            (tree_solutions dict self.now.index.now self.now.width active inner.now)) r.0 r.1) }
        ensures needed { IfOk result (λ r. TakesOnly (Needed dict self.now.index.now self.now.width active
            (algebra_of inner.now)) dict r.1) }
        ensures one_worker { HasOneWorker self.now.context.how.now → IfErr result (λ fault. fault ≡ Memory) }
    {
        let all = with_equalities(self.context.alloc, condition, pairs)?;
        let around = places_around(self.context.alloc, pairs, outer)?;
        let around = around.as_slice();
        let place = self.place(Owner::Filter, condition);
        let tested = Tested {
            condition,
            place,
            further: further_around(pairs, outer),
            around,
        };
        let (rows, dict) = self.solve_where(dict, active, inner, all.as_slice(), &tested)?;
        filter_with(&self.context, dict, &rows, condition, place)
    }

    /// Evaluates a tree of which only the solutions that fit are needed. Joins leave out pairs of
    /// rows in which the terms of two variables have different keys.
    #[cycle(solve)]
    fn solve_where(
        &self,
        dict: Dict,
        active: Option<u64>,
        tree: &Operator,
        pairs: &[Equality],
        tested: &Tested<'_>,
    ) -> Result<(Rows, Dict), EvalFault>
        requires index { AreBelow (length dict) self.now.index.now }
        requires active { ForSome active (λ g. g < length dict) }
        requires within { is_within self.now.width (algebra_of tree.now) ≡ true }
        ensures evaluated { IfOk result (λ r. IsEvaluatedWhere dict self.now.width (fits pairs.now)
            (tree_solutions dict self.now.index.now self.now.width active tree.now) r.0 r.1) }
        ensures needed { IfOk result (λ r. TakesOnly (Needed dict self.now.index.now self.now.width active
            (algebra_of tree.now)) dict r.1) }
        ensures one_worker { HasOneWorker self.now.context.how.now → IfErr result (λ fault. fault ≡ Memory) }
    {
        match tree {
            Operator::Join { left, right } => {
                let later = self.tested_after(tested, &dict, active, right);
                let (left, dict) = self.solve_where(dict, active, left, pairs, &later)?;
                self.solve_join_where(dict, active, left, right, pairs, tested)
            }
            Operator::Filter { condition, inner } => {
                self.solve_filter_where(dict, active, inner, condition, pairs, Some(tested))
            }
            _ => self.solve(dict, active, tree),
        }
    }

    /// Joins rows with the solutions of a tree. Only the pairs that fit are needed.
    #[cycle(solve)]
    pub(crate) fn solve_join_where(
        &self,
        dict: Dict,
        active: Option<u64>,
        left: Rows,
        right: &Operator,
        pairs: &[Equality],
        tested: &Tested<'_>,
    ) -> Result<(Rows, Dict), EvalFault>
        requires index { AreBelow (length dict) self.now.index.now }
        requires active { ForSome active (λ g. g < length dict) }
        requires same_width { left.width ≡ self.now.width }
        requires known_left { AreKnown dict left }
        requires within { is_within self.now.width (algebra_of right.now) ≡ true }
        ensures evaluated { IfOk result (λ r. IsEvaluatedWhere dict left.width (fits pairs.now)
            (join term_eq (solutions_of dict left)
            (tree_solutions dict self.now.index.now self.now.width active right.now)) r.0 r.1) }
        ensures needed { IfOk result (λ r. TakesOnly (Needed dict self.now.index.now self.now.width active
            (algebra_of right.now)) dict r.1) }
        ensures one_worker { HasOneWorker self.now.context.how.now → IfErr result (λ fault. fault ≡ Memory) }
    {
        let (right, dict) = self.solve_right_where(
            dict,
            active,
            &left,
            right,
            pairs,
            &tested.after_a_join(left.len()),
        )?;
        join_where(&self.context, self.state, dict, left, right, pairs, tested)
    }

    /// Evaluates a tree that is then joined with these rows. Only the solutions are needed that fit,
    /// and that are compatible with one of the rows.
    #[cycle(solve)]
    fn solve_right_where(
        &self,
        dict: Dict,
        active: Option<u64>,
        others: &Rows,
        tree: &Operator,
        pairs: &[Equality],
        tested: &Tested<'_>,
    ) -> Result<(Rows, Dict), EvalFault>
        requires index { AreBelow (length dict) self.now.index.now }
        requires active { ForSome active (λ g. g < length dict) }
        requires known_others { AreKnown dict others.now }
        requires within { is_within self.now.width (algebra_of tree.now) ≡ true }
        ensures evaluated { IfOk result (λ r. IsEvaluatedWhere dict self.now.width
            (may_join pairs.now (solutions_of dict others.now))
            (tree_solutions dict self.now.index.now self.now.width active tree.now) r.0 r.1) }
        ensures needed { IfOk result (λ r. TakesOnly (Needed dict self.now.index.now self.now.width active
            (algebra_of tree.now)) dict r.1) }
        ensures one_worker { HasOneWorker self.now.context.how.now → IfErr result (λ fault. fault ≡ Memory) }
    {
        match tree {
            Operator::Graph { name, inner } => self.solve_possible(dict, others, name, inner),
            _ => self.solve_where(dict, active, tree, pairs, tested),
        }
    }
}
