//! The evaluation of a plan over a dataset (SPARQL 1.1 Query Language, section 18.6).
ghost use Rattle.std.specs.Prelude.{◌≡◌, None, true, length, IfErr, IfOk};
ghost use Rattle.algebra_model.specs.Algebra.{is_name_below, is_within};
ghost use Rattle.algebra_model.specs.Eval.{eval, in_graphs};
ghost use Rattle.dict_core.specs.NumQuad.{AreBelow, quads_at};
ghost use Rattle.row_pieces.specs.How.{IsRunnable, HasOneWorker};
ghost use Rattle.row_pieces.specs.declared.fault.EvalFault.TheVariants.{Memory};
ghost use Rattle.sparql_algebra.specs.AlgebraOf.{algebra_of, graph_name_of};
ghost use Rattle.sparql_eval.specs.Computed.{InSomeGraph, IsComputed, TakesOnly};
ghost use Rattle.sparql_eval.specs.Evaluated.{IsEvaluated};

use crate::evaluator::Evaluator;
use dict_core::Dict;
use expression_errors::ErrorCounts;
use piece_pool::Gate;
use quad_index::Index;
use row_core::Rows;
use row_pieces::{Context, EvalFault, How};
use sparql_algebra::{GraphName, Operator, Plan};
use std::alloc::Global;
use std::hash::RandomState;
use std::random::RandomSource;
use std::sync::Wait;
use std::thread::Threads;

/// Returns the solutions of a plan over a dataset, with the default graph active. The dataset is
/// the index, read through the given dictionary.
///
/// The returned dictionary begins with the given one. The evaluation adds only these terms: those
/// that occur in VALUES somewhere in the plan, and the values that Extend computes somewhere in it.
///
/// Each operator is evaluated once, after its inputs. Within GRAPH with a variable it is evaluated
/// once for each named graph. An input without a triple pattern outside of an inner GRAPH is
/// evaluated only once if it is a side of a join, or an OPTIONAL or MINUS, and no OPTIONAL or MINUS
/// follows in the group. The operators after it are then evaluated once, too, unless their
/// expression may mention the variable. An operator that reads rows splits them into pieces of
/// `how.rows` rows for `how.workers` workers.
///
/// # Requires
/// - Each number in the index is below the length of the dictionary.
/// - `how` keeps its limits.
///
/// # Errors
/// - `WorkerRefused` if a worker thread could not be started. It cannot occur with one worker.
/// - `Memory` if an allocation fails, or if the system has no random seed for the hash tables.
///
/// On error, the dictionary is dropped.
pub fn evaluate<R: RandomSource + Threads + Wait, G: Gate + Sync>(
    rt: &R,
    alloc: Global,
    dict: Dict,
    index: &Index,
    plan: &Plan,
    how: &How,
    gate: &G,
) -> Result<(Rows, Dict), EvalFault>
    requires index { AreBelow (length dict) index.now }
    requires how { IsRunnable how.now }
    ensures evaluated { IfOk result (λ r. IsEvaluated dict (length plan.now.names.items)
        (eval (length plan.now.names.items) (quads_at dict index.now) None
        (algebra_of plan.now.tree)) r.0 r.1) }
    ensures needed { IfOk result (λ r. TakesOnly (IsComputed (length plan.now.names.items)
        (quads_at dict index.now) None (algebra_of plan.now.tree)) dict r.1) }
    ensures one_worker { HasOneWorker how.now → IfErr result (λ fault. fault ≡ Memory) }
{
    evaluate_counted(rt, alloc, dict, index, plan, how, gate, None)
}

/// Returns the solutions of a plan over a dataset, as [`evaluate`] does, and counts the rows over
/// which expressions are errors. The counts do not change the result.
///
/// # Requires
/// - Each number in the index is below the length of the dictionary.
/// - `how` keeps its limits.
///
/// # Errors
/// - `WorkerRefused` if a worker thread could not be started. It cannot occur with one worker.
/// - `Memory` if an allocation fails, or if the system has no random seed for the hash tables.
///
/// On error, the dictionary is dropped.
pub fn evaluate_counted<R: RandomSource + Threads + Wait, G: Gate + Sync>(
    rt: &R,
    alloc: Global,
    dict: Dict,
    index: &Index,
    plan: &Plan,
    how: &How,
    gate: &G,
    counts: Option<&ErrorCounts>,
) -> Result<(Rows, Dict), EvalFault>
    requires index { AreBelow (length dict) index.now }
    requires how { IsRunnable how.now }
    ensures evaluated { IfOk result (λ r. IsEvaluated dict (length plan.now.names.items)
        (eval (length plan.now.names.items) (quads_at dict index.now) None
        (algebra_of plan.now.tree)) r.0 r.1) }
    ensures needed { IfOk result (λ r. TakesOnly (IsComputed (length plan.now.names.items)
        (quads_at dict index.now) None (algebra_of plan.now.tree)) dict r.1) }
    ensures one_worker { HasOneWorker how.now → IfErr result (λ fault. fault ≡ Memory) }
{
    let Ok(state) = RandomState::new(rt) else {
        return Err(EvalFault::Memory);
    };
    let context = Context {
        rt,
        alloc,
        how,
        gate,
    };
    let evaluator = Evaluator {
        context,
        state,
        index,
        width: plan.names.len(),
        counts,
    };
    evaluator.solve(dict, None, &plan.tree)
}

/// Evaluates a tree in one named graph, or in each of them in turn, whichever graph is active
/// (SPARQL 1.1 Query Language, section 18.6, Graph). The dataset is the index, read through the
/// given dictionary. Rows are hashed with `state`.
///
/// A name that no graph has gives no row. For a variable, the inner tree is evaluated in each named
/// graph. The rows of a graph are then joined with the variable bound to the name of the graph.
///
/// The evaluation adds only these terms to the dictionary, each with one of those graphs active:
/// those that occur in VALUES somewhere in the tree, and the values that Extend computes somewhere
/// in it.
///
/// # Requires
/// - Each number in the index is below the length of the dictionary.
/// - The variables of the name and of the tree are below `width`.
/// - `how` keeps its limits.
///
/// # Errors
/// - `WorkerRefused` if a worker thread could not be started. It cannot occur with one worker.
/// - `Memory` if an allocation fails.
///
/// On error, the dictionary is dropped.
pub fn graph<R: Threads + Wait, G: Gate + Sync>(
    rt: &R,
    alloc: Global,
    state: RandomState,
    dict: Dict,
    index: &Index,
    width: usize,
    name: &GraphName,
    inner: &Operator,
    how: &How,
    gate: &G,
) -> Result<(Rows, Dict), EvalFault>
    requires index { AreBelow (length dict) index.now }
    requires name { is_name_below width (graph_name_of name.now) ≡ true }
    requires within { is_within width (algebra_of inner.now) ≡ true }
    requires how { IsRunnable how.now }
    ensures evaluated { IfOk result (λ r. IsEvaluated dict width
        (in_graphs width (quads_at dict index.now) (graph_name_of name.now)
        (λ g. eval width (quads_at dict index.now) g (algebra_of inner.now))) r.0 r.1) }
    ensures needed { IfOk result (λ r. TakesOnly (λ t. InSomeGraph (quads_at dict index.now)
        (graph_name_of name.now) (λ g. IsComputed width (quads_at dict index.now) g
        (algebra_of inner.now) t)) dict r.1) }
    ensures one_worker { HasOneWorker how.now → IfErr result (λ fault. fault ≡ Memory) }
{
    let context = Context {
        rt,
        alloc,
        how,
        gate,
    };
    let evaluator = Evaluator {
        context,
        state,
        index,
        width,
        counts: None,
    };
    evaluator.solve_graph(dict, name, inner)
}
