//! Join, LeftJoin and Minus. The rows of the left input are there already, and the tree of the right one
//! is evaluated here.
ghost use Rattle.std.specs.Prelude.{◌≡◌, ◌<◌, true, length, IfErr, IfOk};
ghost use Rattle.std.specs.Option.{ForSome};
ghost use Rattle.algebra_model.specs.Algebra.{is_within};
ghost use Rattle.dict_core.specs.NumQuad.{AreBelow};
ghost use Rattle.row_pieces.specs.How.{HasOneWorker};
ghost use Rattle.row_pieces.specs.declared.fault.EvalFault.TheVariants.{Memory};
ghost use Rattle.sparql_algebra.specs.AlgebraOf.{algebra_of};
ghost use Rattle.sparql_eval.specs.Computed.{TakesOnly};
ghost use Rattle.sparql_eval.specs.Evaluated.{AreKnown, IsEvaluated, solutions_of};
ghost use Rattle.sparql_eval.specs.Pairings.{paired};
ghost use Rattle.sparql_eval.specs.TreeSolutions.{Needed, tree_solutions};

use crate::evaluator::Evaluator;
use crate::joins::{join_of, left_join_with, minus_with};
use dict_core::Dict;
use expression_errors::Owner;
use piece_pool::Gate;
use row_core::Rows;
use row_pieces::EvalFault;
use sparql_algebra::{Expr, Operator};
use std::sync::Wait;
use std::thread::Threads;

/// How the solutions of two inputs are combined.
#[derive(Clone, Copy)]
pub(crate) enum Pairing<'a> {
    Join,
    LeftJoin(&'a Expr),
    Minus,
}

impl<'c, 'i, 'e, R: Threads + Wait, G: Gate + Sync> Evaluator<'c, 'i, 'e, R, G> {
    /// Combines rows with the solutions of a tree. Of these, only those are needed that are compatible with
    /// one of the rows.
    #[cycle(solve)]
    pub(crate) fn solve_paired(
        &self,
        dict: Dict,
        active: Option<u64>,
        left: Rows,
        right: &Operator,
        pairing: Pairing<'_>,
    ) -> Result<(Rows, Dict), EvalFault>
        requires index { AreBelow (length dict) self.now.index.now }
        requires active { ForSome active (λ g. g < length dict) }
        requires same_width { left.width ≡ self.now.width }
        requires known_left { AreKnown dict left }
        requires within { is_within self.now.width (algebra_of right.now) ≡ true }
        ensures evaluated { IfOk result (λ r. IsEvaluated dict left.width
            (paired pairing.entry (solutions_of dict left)
            (tree_solutions dict self.now.index.now self.now.width active right.now)) r.0 r.1) }
        ensures needed { IfOk result (λ r. TakesOnly (Needed dict self.now.index.now self.now.width active
            (algebra_of right.now)) dict r.1) }
        ensures one_worker { HasOneWorker self.now.context.how.now → IfErr result (λ fault. fault ≡ Memory) }
    {
        let (right, dict) = self.solve_to_join(dict, active, &left, right)?;
        self.pair(dict, left, right, pairing)
    }

    /// Combines the rows of two inputs. The dictionary is returned unchanged.
    fn pair(
        &self,
        dict: Dict,
        left: Rows,
        right: Rows,
        pairing: Pairing<'_>,
    ) -> Result<(Rows, Dict), EvalFault>
        requires same_width { left.width ≡ right.width }
        requires known_left { AreKnown dict left }
        requires known_right { AreKnown dict right }
        ensures evaluated { IfOk result (λ r. IsEvaluated dict left.width
            (paired pairing.entry (solutions_of dict left) (solutions_of dict right)) r.0 r.1) }
        ensures same_dict { IfOk result (λ r. r.1 ≡ dict) }
        ensures one_worker { HasOneWorker self.now.context.how.now → IfErr result (λ fault. fault ≡ Memory) }
    {
        match pairing {
            Pairing::Join => join_of(&self.context, self.state, dict, left, right),
            Pairing::LeftJoin(condition) => left_join_with(
                &self.context,
                self.state,
                dict,
                &left,
                &right,
                condition,
                self.place(Owner::LeftJoin, condition),
            ),
            Pairing::Minus => minus_with(&self.context, self.state, dict, &left, &right),
        }
    }
}
