//! Trees that are joined with rows. Of GRAPH with a variable, only the graphs are needed that the rows name.
ghost use Rattle.std.specs.Prelude.{◌≡◌, ◌⊎◌, ◌<◌, [], true, length, IfErr, IfOk};
ghost use Rattle.std.specs.Option.{ForSome};
ghost use Rattle.rdf_core.specs.Equality.{term_eq};
ghost use Rattle.algebra_model.specs.Algebra.{is_name_below, is_within};
ghost use Rattle.dict_core.specs.NumQuad.{AreBelow};
ghost use Rattle.row_pieces.specs.How.{HasOneWorker};
ghost use Rattle.row_pieces.specs.declared.fault.EvalFault.TheVariants.{Memory};
ghost use Rattle.sparql_algebra.specs.AlgebraOf.{algebra_of, graph_name_of};
ghost use Rattle.sparql_eval.specs.Computed.{TakesOnly};
ghost use Rattle.sparql_eval.specs.Evaluated.{AreKnown, solutions_of};
ghost use Rattle.sparql_eval.specs.Fitting.{IsEvaluatedWhere};
ghost use Rattle.sparql_eval.specs.Possible.{may_join, meets_some};
ghost use Rattle.sparql_eval.specs.TreeSolutions.{Needed, NeededIn, graph_solutions, tree_solutions};

use crate::evaluator::Evaluator;
use crate::forms::is_empty_pattern;
use crate::joins::join_of;
use crate::possible_graphs::possible_graphs;
use dict_core::Dict;
use piece_pool::Gate;
use row_core::Rows;
use row_pieces::EvalFault;
use sparql_algebra::{GraphName, Operator};
use std::sync::Wait;
use std::thread::Threads;

impl<'c, 'i, 'e, R: Threads + Wait, G: Gate + Sync> Evaluator<'c, 'i, 'e, R, G> {
    /// Evaluates a tree that is then joined with these rows. Only the solutions are needed that are
    /// compatible with one of the rows.
    #[cycle(solve)]
    pub(crate) fn solve_to_join(
        &self,
        dict: Dict,
        active: Option<u64>,
        others: &Rows,
        tree: &Operator,
    ) -> Result<(Rows, Dict), EvalFault>
        requires index { AreBelow (length dict) self.now.index.now }
        requires active { ForSome active (λ g. g < length dict) }
        requires known_others { AreKnown dict others.now }
        requires within { is_within self.now.width (algebra_of tree.now) ≡ true }
        ensures evaluated { IfOk result (λ r. IsEvaluatedWhere dict self.now.width
            (may_join [] (solutions_of dict others.now))
            (tree_solutions dict self.now.index.now self.now.width active tree.now) r.0 r.1) }
        ensures needed { IfOk result (λ r. TakesOnly (Needed dict self.now.index.now self.now.width active
            (algebra_of tree.now)) dict r.1) }
        ensures one_worker { HasOneWorker self.now.context.how.now → IfErr result (λ fault. fault ≡ Memory) }
    {
        match tree {
            Operator::Graph { name, inner } => self.solve_possible(dict, others, name, inner),
            Operator::Join { left, right } => {
                let (rows, dict) = self.solve_to_join(dict, active, others, left)?;
                let next = rows_to_join(left, &rows, others);
                let (right, dict) = self.solve_to_join(dict, active, next, right)?;
                join_of(&self.context, self.state, dict, rows, right)
            }
            _ => self.solve(dict, active, tree),
        }
    }

    /// Evaluates a GRAPH that is then joined with these rows. If its name is a variable that all rows
    /// bind, only the graphs that they name are needed.
    #[cycle(solve)]
    pub(crate) fn solve_possible(
        &self,
        dict: Dict,
        others: &Rows,
        name: &GraphName,
        inner: &Operator,
    ) -> Result<(Rows, Dict), EvalFault>
        requires index { AreBelow (length dict) self.now.index.now }
        requires name { is_name_below self.now.width (graph_name_of name.now) ≡ true }
        requires known_others { AreKnown dict others.now }
        requires within { is_within self.now.width (algebra_of inner.now) ≡ true }
        ensures evaluated { IfOk result (λ r. IsEvaluatedWhere dict self.now.width
            (meets_some term_eq (solutions_of dict others.now))
            (graph_solutions dict self.now.index.now self.now.width (graph_name_of name.now)
            inner.now) r.0 r.1) }
        ensures needed { IfOk result (λ r. TakesOnly
            (NeededIn dict self.now.index.now self.now.width (graph_name_of name.now)
            (algebra_of inner.now)) dict r.1) }
        ensures one_worker { HasOneWorker self.now.context.how.now → IfErr result (λ fault. fault ≡ Memory) }
    {
        if let GraphName::Variable(variable) = name {
            let graphs = self.index.graphs();
            let found = possible_graphs(self.context.alloc, others, *variable, graphs)?;
            if let Some(found) = found {
                let _distinct = dict.len();
                return self.solve_each(dict, *variable, found.as_slice(), inner);
            }
        }
        self.solve_graph(dict, name, inner)
    }
}

/// Returns the rows with which the right side of a join is joined next: those of the left side, or the other
/// rows if the left side is the empty pattern, which binds nothing.
fn rows_to_join<'r>(left: &Operator, rows: &'r Rows, others: &'r Rows) -> &'r Rows
    ensures either { (result.now ≡ rows.now) ⊎ (result.now ≡ others.now) }
{
    if is_empty_pattern(left) { others } else { rows }
}
