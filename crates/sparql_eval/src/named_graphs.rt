//! GRAPH: a tree in one named graph, or in each of some. What does not depend on the active graph is evaluated
//! once.
ghost use Rattle.std.specs.Prelude.{◌≡◌, ◌<◌, true, length, IfErr, IfOk};
ghost use Rattle.algebra_model.specs.Algebra.{is_name_below, is_within};
ghost use Rattle.algebra_model.specs.Closed.{is_closed};
ghost use Rattle.dict_core.specs.NumQuad.{AreBelow, quads_at};
ghost use Rattle.row_pieces.specs.How.{HasOneWorker};
ghost use Rattle.row_pieces.specs.declared.fault.EvalFault.TheVariants.{Memory};
ghost use Rattle.sparql_algebra.specs.AlgebraOf.{algebra_of, graph_name_of};
ghost use Rattle.sparql_eval.specs.Computed.{InSomeGraph, IsComputed, TakesOnly};
ghost use Rattle.sparql_eval.specs.Evaluated.{IsEvaluated};
ghost use Rattle.sparql_eval.specs.TreeSolutions.{AreGraphs, IsEvaluatedIn, TakesIn, graph_solutions};

use crate::closed::is_closed;
use crate::evaluator::Evaluator;
use crate::graphs::{add_graph, graph_number, name_rows};
use crate::two_inputs::Pairing;
use dict_core::Dict;
use piece_pool::Gate;
use row_core::Rows;
use row_pieces::EvalFault;
use sparql_algebra::{GraphName, Operator};
use std::sync::Wait;
use std::thread::Threads;

impl<'c, 'i, 'e, R: Threads + Wait, G: Gate + Sync> Evaluator<'c, 'i, 'e, R, G> {
    /// Evaluates a tree in one named graph, or in each of them in turn. Only the terms that the
    /// tree computes there are added to the dictionary.
    #[cycle(solve)]
    pub(crate) fn solve_graph(
        &self,
        dict: Dict,
        name: &GraphName,
        inner: &Operator,
    ) -> Result<(Rows, Dict), EvalFault>
        requires index { AreBelow (length dict) self.now.index.now }
        requires name { is_name_below self.now.width (graph_name_of name.now) ≡ true }
        requires within { is_within self.now.width (algebra_of inner.now) ≡ true }
        ensures evaluated { IfOk result (λ r. IsEvaluated dict self.now.width
            (graph_solutions dict self.now.index.now self.now.width (graph_name_of name.now)
            inner.now) r.0 r.1) }
        ensures needed { IfOk result (λ r. TakesOnly (λ t.
            InSomeGraph (quads_at dict self.now.index.now) (graph_name_of name.now)
            (λ g. IsComputed self.now.width (quads_at dict self.now.index.now) g
            (algebra_of inner.now) t)) dict r.1) }
        ensures one_worker { HasOneWorker self.now.context.how.now → IfErr result (λ fault. fault ≡ Memory) }
    {
        match name {
            GraphName::Variable(variable) => {
                let _distinct = dict.len();
                self.solve_each(dict, *variable, self.index.graphs(), inner)
            }
            GraphName::Iri(term) => match graph_number(&dict, self.index, term) {
                Some(number) => self.solve(dict, Some(number), inner),
                None => Ok((Rows::new(self.context.alloc, self.width), dict)),
            },
        }
    }

    /// Evaluates a tree in each of some graphs, and joins the rows of a graph with the variable
    /// bound to its name. A tree that does not depend on the active graph is evaluated once, and so
    /// is one side of a join.
    #[cycle(solve)]
    pub(crate) fn solve_each(
        &self,
        dict: Dict,
        variable: usize,
        graphs: &[u64],
        inner: &Operator,
    ) -> Result<(Rows, Dict), EvalFault>
        requires index { AreBelow (length dict) self.now.index.now }
        requires variable { variable < self.now.width }
        requires graphs { AreGraphs dict self.now.index.now graphs.now }
        requires within { is_within self.now.width (algebra_of inner.now) ≡ true }
        ensures evaluated { IfOk result (λ r. IsEvaluatedIn dict self.now.index.now
            self.now.width variable graphs.now (algebra_of inner.now) r.0 r.1) }
        ensures needed { IfOk result (λ r. TakesIn dict self.now.index.now
            self.now.width variable (algebra_of inner.now) r.1) }
        ensures one_worker { HasOneWorker self.now.context.how.now → IfErr result (λ fault. fault ≡ Memory) }
    {
        if graphs.is_empty() {
            return Ok((Rows::new(self.context.alloc, self.width), dict));
        }
        if is_closed(inner) {
            let names = name_rows(self.context.alloc, self.width, variable, graphs)?;
            return self.solve_paired(dict, None, names, inner, Pairing::Join);
        }
        if let Operator::Join { left, right } = inner {
            if is_closed(right) {
                let (rows, dict) = self.solve_each(dict, variable, graphs, left)?;
                return self.solve_paired(dict, None, rows, right, Pairing::Join);
            }
            if is_closed(left) {
                let (others, dict) = self.solve_each(dict, variable, graphs, right)?;
                return self.solve_paired(dict, None, others, left, Pairing::Join);
            }
        }
        self.solve_outward(dict, variable, graphs, inner)
    }

    /// Evaluates a tree in one graph after another, and joins the rows of a graph with the variable
    /// bound to its name.
    #[cycle(solve)]
    pub(crate) fn solve_in_turn(
        &self,
        dict: Dict,
        variable: usize,
        graphs: &[u64],
        inner: &Operator,
    ) -> Result<(Rows, Dict), EvalFault>
        requires index { AreBelow (length dict) self.now.index.now }
        requires variable { variable < self.now.width }
        requires graphs { AreGraphs dict self.now.index.now graphs.now }
        requires within { is_within self.now.width (algebra_of inner.now) ≡ true }
        ensures evaluated { IfOk result (λ r. IsEvaluatedIn dict self.now.index.now
            self.now.width variable graphs.now (algebra_of inner.now) r.0 r.1) }
        ensures needed { IfOk result (λ r. TakesIn dict self.now.index.now
            self.now.width variable (algebra_of inner.now) r.1) }
        ensures one_worker { HasOneWorker self.now.context.how.now → IfErr result (λ fault. fault ≡ Memory) }
    {
        let _distinct = dict.len();
        let mut dict = dict;
        let mut made = Rows::new(self.context.alloc, self.width);
        for i in 0..graphs.len() {
            let (rows, grown) = self.solve(dict, Some(graphs[i]), inner)?;
            let _still_distinct = grown.len();
            dict = grown;
            add_graph(self.context.alloc, &mut made, &rows, variable, graphs[i])?;
        }
        Ok((made, dict))
    }
}
