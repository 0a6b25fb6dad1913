//! Operators below GRAPH with a variable, above a part that does not depend on the active graph. They are
//! applied once to the rows of all graphs.
ghost use Rattle.std.specs.Prelude.{◌≡◌, ◌<◌, false, true, length, IfErr, IfOk};
ghost use Rattle.algebra_model.specs.Algebra.{Filter, is_within};
ghost use Rattle.dict_core.specs.NumQuad.{AreBelow};
ghost use Rattle.row_pieces.specs.How.{HasOneWorker};
ghost use Rattle.row_pieces.specs.declared.fault.EvalFault.TheVariants.{Memory};
ghost use Rattle.expression_values.specs.ExpressionOf.{expression_of};
ghost use Rattle.sparql_algebra.specs.AlgebraOf.{algebra_of};
ghost use Rattle.sparql_eval.specs.Fitting.{IsEvaluatedWhere, fits};
ghost use Rattle.sparql_eval.specs.Mentions.{mentions};
ghost use Rattle.sparql_eval.specs.TreeSolutions.{AreGraphs, IsEvaluatedIn, TakesIn, solutions_in};

use crate::closed::{is_apart, is_closed};
use crate::equalities::{Equality, with_equalities};
use crate::evaluator::Evaluator;
use crate::filters::filter_with;
use crate::fitted_joins::join_where;
use crate::forms::is_partly_closed;
use crate::joins::join_of;
use crate::mentions::may_mention;
use crate::separated::Tested;
use crate::two_inputs::Pairing;
use crate::unions::union_of;
use dict_core::Dict;
use expression_errors::Owner;
use piece_pool::Gate;
use row_core::Rows;
use row_pieces::EvalFault;
use sparql_algebra::{Expr, Operator};
use std::sync::Wait;
use std::thread::Threads;

impl<'c, 'i, 'e, R: Threads + Wait, G: Gate + Sync> Evaluator<'c, 'i, 'e, R, G> {
    /// Evaluates a tree in each of some graphs, and joins the rows of a graph with the variable
    /// bound to its name. An operator above a part that does not depend on the active graph is
    /// applied to the rows of all graphs, so that this part is evaluated once.
    #[cycle(solve)]
    pub(crate) fn solve_outward(
        &self,
        dict: Dict,
        variable: usize,
        graphs: &[u64],
        inner: &Operator,
    ) -> Result<(Rows, Dict), EvalFault>
        requires index { AreBelow (length dict) self.now.index.now }
        requires variable { variable < self.now.width }
        requires graphs { AreGraphs dict self.now.index.now graphs.now }
        requires some { 0 < length graphs.now }
        requires within { is_within self.now.width (algebra_of inner.now) ≡ true }
        ensures evaluated { IfOk result (λ r. IsEvaluatedIn dict self.now.index.now
            self.now.width variable graphs.now (algebra_of inner.now) r.0 r.1) }
        ensures needed { IfOk result (λ r. TakesIn dict self.now.index.now
            self.now.width variable (algebra_of inner.now) r.1) }
        ensures one_worker { HasOneWorker self.now.context.how.now → IfErr result (λ fault. fault ≡ Memory) }
    {
        if let Operator::Union { left, right } = inner {
            let (rows, dict) = self.solve_each(dict, variable, graphs, left)?;
            let (more, dict) = self.solve_each(dict, variable, graphs, right)?;
            return union_of(dict, rows, more);
        }
        if let Operator::LeftJoin {
            left,
            right,
            condition,
        } = inner
        {
            if is_apart(right, self.width, variable) && !may_mention(condition, variable) {
                let (rows, dict) = self.solve_each(dict, variable, graphs, left)?;
                return self.solve_paired(dict, None, rows, right, Pairing::LeftJoin(condition));
            }
        }
        if let Operator::Minus { left, right } = inner {
            if is_apart(right, self.width, variable) {
                let (rows, dict) = self.solve_each(dict, variable, graphs, left)?;
                return self.solve_paired(dict, None, rows, right, Pairing::Minus);
            }
        }
        if let Operator::Join { left, right } = inner {
            if is_partly_closed(inner) {
                let (rows, dict) = self.solve_each(dict, variable, graphs, left)?;
                let (others, dict) = self.solve_each(dict, variable, graphs, right)?;
                // Both sides bind the variable, so only rows of the same graph are joined.
                return join_of(&self.context, self.state, dict, rows, others);
            }
        }
        self.solve_expression_outward(dict, variable, graphs, inner)
    }

    /// Does the same for an operator with an expression. It must not mention the variable.
    #[cycle(solve)]
    fn solve_expression_outward(
        &self,
        dict: Dict,
        variable: usize,
        graphs: &[u64],
        inner: &Operator,
    ) -> Result<(Rows, Dict), EvalFault>
        requires index { AreBelow (length dict) self.now.index.now }
        requires variable { variable < self.now.width }
        requires graphs { AreGraphs dict self.now.index.now graphs.now }
        requires some { 0 < length graphs.now }
        requires within { is_within self.now.width (algebra_of inner.now) ≡ true }
        ensures evaluated { IfOk result (λ r. IsEvaluatedIn dict self.now.index.now
            self.now.width variable graphs.now (algebra_of inner.now) r.0 r.1) }
        ensures needed { IfOk result (λ r. TakesIn dict self.now.index.now
            self.now.width variable (algebra_of inner.now) r.1) }
        ensures one_worker { HasOneWorker self.now.context.how.now → IfErr result (λ fault. fault ≡ Memory) }
    {
        if let Operator::Filter {
            condition,
            inner: below,
        } = inner
        {
            if is_partly_closed(below) && !may_mention(condition, variable) {
                return self.solve_each_filter(dict, variable, graphs, below, condition);
            }
        }
        if let Operator::Extend {
            variable: bound,
            expression,
            inner: below,
        } = inner
        {
            let moves = is_partly_closed(below) && *bound != variable;
            if moves && !may_mention(expression, variable) {
                let (rows, dict) = self.solve_each(dict, variable, graphs, below)?;
                return self.extend(dict, rows, *bound, expression);
            }
        }
        self.solve_in_turn(dict, variable, graphs, inner)
    }

    /// Filters the rows of a tree in each of some graphs. Joins leave out pairs of rows in which the
    /// terms of two variables that the condition requires to be equal have different keys.
    #[cycle(solve)]
    fn solve_each_filter(
        &self,
        dict: Dict,
        variable: usize,
        graphs: &[u64],
        inner: &Operator,
        condition: &Expr,
    ) -> Result<(Rows, Dict), EvalFault>
        requires index { AreBelow (length dict) self.now.index.now }
        requires variable { variable < self.now.width }
        requires graphs { AreGraphs dict self.now.index.now graphs.now }
        requires some { 0 < length graphs.now }
        requires not_mentioned { mentions (expression_of condition.now) variable ≡ false }
        requires within { is_within self.now.width (algebra_of inner.now) ≡ true }
        ensures evaluated { IfOk result (λ r. IsEvaluatedIn dict self.now.index.now
            self.now.width variable graphs.now (Filter (expression_of condition.now) (algebra_of inner.now)) r.0 r.1) }
        ensures needed { IfOk result (λ r. TakesIn dict self.now.index.now
            self.now.width variable (Filter (expression_of condition.now) (algebra_of inner.now)) r.1) }
        ensures one_worker { HasOneWorker self.now.context.how.now → IfErr result (λ fault. fault ≡ Memory) }
    {
        let pairs = with_equalities(self.context.alloc, condition, &[])?;
        let place = self.place(Owner::Filter, condition);
        let tested = Tested {
            condition,
            place,
            further: None,
            around: &[],
        };
        let (solved, dict) = self.solve_each_where(
            dict,
            variable,
            graphs,
            inner,
            pairs.as_slice(),
            &tested,
        )?;
        filter_with(&self.context, dict, &solved, condition, place)
    }

    /// Evaluates a tree in each of some graphs, and joins the rows of a graph with the variable
    /// bound to its name. Only the solutions are needed that fit.
    #[cycle(solve)]
    fn solve_each_where(
        &self,
        dict: Dict,
        variable: usize,
        graphs: &[u64],
        inner: &Operator,
        pairs: &[Equality],
        tested: &Tested<'_>,
    ) -> Result<(Rows, Dict), EvalFault>
        requires index { AreBelow (length dict) self.now.index.now }
        requires variable { variable < self.now.width }
        requires graphs { AreGraphs dict self.now.index.now graphs.now }
        requires some { 0 < length graphs.now }
        requires within { is_within self.now.width (algebra_of inner.now) ≡ true }
        ensures evaluated { IfOk result (λ r. IsEvaluatedWhere dict self.now.width (fits pairs.now)
            (solutions_in dict self.now.index.now self.now.width variable graphs.now
            (algebra_of inner.now)) r.0 r.1) }
        ensures needed { IfOk result (λ r. TakesIn dict self.now.index.now
            self.now.width variable (algebra_of inner.now) r.1) }
        ensures one_worker { HasOneWorker self.now.context.how.now → IfErr result (λ fault. fault ≡ Memory) }
    {
        if let Operator::Join { left, right } = inner {
            if is_closed(right) {
                let later = self.tested_after(tested, &dict, None, right);
                let (rows, dict) = self.solve_each_where(
                    dict, variable, graphs, left, pairs, &later,
                )?;
                return self.solve_join_where(dict, None, rows, right, pairs, tested);
            }
            if is_closed(left) {
                let later = self.tested_after(tested, &dict, None, left);
                let (others, dict) = self.solve_each_where(
                    dict, variable, graphs, right, pairs, &later,
                )?;
                return self.solve_join_where(dict, None, others, left, pairs, tested);
            }
            if is_partly_closed(inner) {
                let later = self.tested_after_each(tested, &dict, graphs, right);
                let (rows, dict) = self.solve_each_where(
                    dict, variable, graphs, left, pairs, &later,
                )?;
                let later = tested.after_a_join(rows.len());
                let (others, dict) = self.solve_each_where(
                    dict, variable, graphs, right, pairs, &later,
                )?;
                // Both sides bind the variable, so only rows of the same graph are joined.
                return join_where(&self.context, self.state, dict, rows, others, pairs, tested);
            }
        }
        self.solve_each(dict, variable, graphs, inner)
    }
}
