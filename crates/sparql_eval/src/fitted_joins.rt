//! Join of which only the pairs with equal terms are needed.
ghost use Rattle.std.specs.Prelude.{◌≡◌, IfErr, IfOk};
ghost use Rattle.rdf_core.specs.Equality.{term_eq};
ghost use Rattle.algebra_model.specs.Operators.{join};
ghost use Rattle.row_pieces.specs.How.{HasOneWorker};
ghost use Rattle.row_pieces.specs.declared.fault.EvalFault.TheVariants.{Memory};
ghost use Rattle.sparql_eval.specs.Evaluated.{AreKnown, solutions_of};
ghost use Rattle.sparql_eval.specs.Fitting.{IsEvaluatedWhere, fits};

use crate::equalities::Equality;
use crate::joins::join_of;
use crate::keyed_joins::joined_by_keys;
use crate::keyed_rows::join_keys;
use crate::separated::{Tested, add_separated, count_separated, is_joined_whole};
use dict_core::Dict;
use piece_pool::Gate;
use row_core::Rows;
use row_pieces::{Context, EvalFault};
use std::hash::RandomState;
use std::sync::Wait;
use std::thread::Threads;

/// Joins rows of which only the pairs that fit are needed. If one of the equalities has a variable
/// of each side, rows with different keys are not paired. The errors of the condition over these are
/// counted, or it is noted that they are not. The dictionary is returned unchanged.
pub(crate) fn join_where<R: Threads + Wait, G: Gate + Sync>(
    context: &Context<R, G>,
    state: RandomState,
    dict: Dict,
    left: Rows,
    right: Rows,
    pairs: &[Equality],
    tested: &Tested<'_>,
) -> Result<(Rows, Dict), EvalFault>
    requires same_width { left.width ≡ right.width }
    requires known_left { AreKnown dict left }
    requires known_right { AreKnown dict right }
    ensures evaluated { IfOk result (λ r. IsEvaluatedWhere dict left.width (fits pairs.now)
        (join term_eq (solutions_of dict left) (solutions_of dict right)) r.0 r.1) }
    ensures same_dict { IfOk result (λ r. r.1 ≡ dict) }
    ensures one_worker { HasOneWorker context.now.how.now → IfErr result (λ fault. fault ≡ Memory) }
{
    let keys = join_keys(context.alloc, &left, &right, pairs)?;
    let keys = keys.as_slice();
    if is_joined_whole(context.alloc, &dict, &left, &right, keys, tested) {
        return join_of(context, state, dict, left, right);
    }
    count_separated(context.alloc, &dict, &left, &right, keys, tested);
    let mut made = joined_by_keys(context, state, &dict, &left, &right, keys)?;
    add_separated(context.alloc, &dict, &left, &right, keys, tested, &mut made);
    Ok((made, dict))
}
