//! The result of a query over a document.
ghost use Rattle.std.specs.Prelude.{◌≡◌, ◌-◌, ◌^◌, IfOk, IfErr, OnOk, Ok, length, min, unwrap_or};
ghost use Rattle.std.specs.Str.{chars};
ghost use Rattle.piece_cuts.specs.Cuts.{AreCuts};
ghost use Rattle.dict_core.specs.NumQuad.{quads_at};
ghost use Rattle.row_pieces.specs.How.{IsRunnable, HasOneWorker};
ghost use Rattle.row_pieces.specs.declared.fault.EvalFault.TheVariants.{Memory};
ghost use Rattle.sparql_tree.specs.QueryTree.{QueryTree, query_of};
ghost use Rattle.sparql_read.specs.Rejection.{IsValidQuery};
ghost use Rattle.algebra_model.specs.RowOrder.{sorted_rows};
ghost use Rattle.algebra_model.specs.Sorted.{slice};
ghost use Rattle.sparql_algebra.specs.AlgebraOf.{algebra_of};
ghost use Rattle.sparql_algebra.specs.Names.{names_of, selected_names};
ghost use Rattle.sparql_algebra.specs.Projected.{projected};
ghost use Rattle.sparql_algebra.specs.Translation.{translate};
ghost use Rattle.sparql_eval.specs.Evaluated.{AreKnown, solutions_of};
ghost use Rattle.spq_core.specs.Faults.{IsFaultOf, IsQueryFaultOf, IsOneWorkerFault};
ghost use Rattle.spq_core.specs.Outcome.{IsQueryResult, rows};
ghost use Rattle.result_json.specs.Results.{joined_blocks, json, listed_names};

use crate::fault::Fault;
use crate::notes::Log;
use algebra_model::laws::{a_bag_has_one_sorted_list, a_dataset_is_a_set};
use dataset_load::{Store, load};
use dict_core::Dict;
use piece_cuts::Cuts;
use piece_pool::Gate;
use result_json::{Table, print_rows};
use row_core::Rows;
use row_pieces::{Context, EvalFault, How};
use sparql_algebra::{Plan, translate};
use sparql_eval::evaluate_counted;
use sparql_read::{QueryFault, read_query};
use sparql_tree::Query;
use spq_run::{NoProgress, Progress, Stage};
use std::alloc::{AllocError, Global};
use std::random::RandomSource;
use std::sync::Wait;
use std::thread::Threads;

/// Parses the text of a query.
///
/// # Errors
/// - `Query(fault)` if this is the first rule that rejects the text. It is never `QueryFault::Memory`.
/// - `Memory` if an allocation fails.
pub fn valid_query(alloc: Global, text: &str) -> Result<Query, Fault>
    ensures query { IfOk result (λ q. IsValidQuery (chars text.now) (query_of q)) }
    ensures rejected { IfErr result (IsQueryFaultOf text.now) }
{
    match read_query(alloc, text) {
        Ok(query) => Ok(query),
        Err(QueryFault::Memory) => Err(Fault::Memory),
        Err(fault) => Err(Fault::Query(fault)),
    }
}

/// Checks the text of a query, and drops the query. It takes no deeper stack for a longer text.
///
/// # Errors
/// As `valid_query`.
pub fn check_query(alloc: Global, text: &str) -> Result<(), Fault>
    ensures query { OnOk result ((q : QueryTree) × IsValidQuery (chars text.now) q) }
    ensures rejected { IfErr result (IsQueryFaultOf text.now) }
{
    match valid_query(alloc, text) {
        Ok(_query) => Ok(()),
        Err(fault) => Err(fault),
    }
}

/// Returns the JSON of a query's rows over a loaded dataset, as `answer_plan` does.
fn answer_query<R: Threads + Wait + RandomSource, G: Gate + Sync, P: Progress>(
    context: &Context<'_, R, G>,
    store: Store,
    query: &Query,
    log: &mut Log<'_, P>,
) -> Result<(Vec<Vec<u8>>, Dict), EvalFault>
    ensures answer { IfOk result (λ made. joined_blocks made.0.items
        ≡ json (selected_names (query_of query.now))
        (rows (query_of query.now) (quads_at store.dict store.index))) }
    ensures one_worker { HasOneWorker context.now.how.now → IfErr result (λ fault. fault ≡ Memory) }
{
    match translate(context.alloc, query) {
        Ok(plan) => {
            let made = answer_plan(context, store, query, &plan, log);
            drop(plan);
            made
        }
        Err(_failed) => {
            drop(store);
            Err(EvalFault::Memory)
        }
    }
}

/// Returns the JSON of the rows of a query, whose plan this is, over a loaded dataset, in blocks that follow each other.
/// Returns the dictionary, too, since its terms are freed one by one: the caller may leave them to the end of the process.
///
/// The plan is only borrowed here, and each value that is owned here is dropped by a call (docs/PROOF.md).
pub fn answer_plan<R: Threads + Wait + RandomSource, G: Gate + Sync, P: Progress>(
    context: &Context<'_, R, G>,
    store: Store,
    query: &Query,
    plan: &Plan,
    log: &mut Log<'_, P>,
) -> Result<(Vec<Vec<u8>>, Dict), EvalFault>
    requires names { plan.now.names.items ≡ names_of (query_of query.now) }
    requires tree { algebra_of plan.now.tree ≡ (translate (query_of query.now)).algebra }
    ensures answer { IfOk result (λ made. joined_blocks made.0.items
        ≡ json (selected_names (query_of query.now))
        (rows (query_of query.now) (quads_at store.dict store.index))) }
    ensures one_worker { HasOneWorker context.now.how.now → IfErr result (λ fault. fault ≡ Memory) }
{
    a_bag_has_one_sorted_list();
    log.begin(Stage::Evaluating);
    let (dict, index) = store.into_parts();
    log.planned(context.alloc, plan);
    let counts = log.counts();
    let evaluated = evaluate_counted(
        context.rt,
        context.alloc,
        dict,
        &index,
        plan,
        context.how,
        context.gate,
        counts,
    );
    drop(index);
    match evaluated {
        Ok((rows, dict)) => {
            let printed = print_solutions(context, query, plan, rows, &dict, log);
            match printed {
                Ok(blocks) => Ok((blocks, dict)),
                Err(fault) => {
                    drop(dict);
                    Err(fault)
                }
            }
        }
        Err(fault) => Err(fault),
    }
}

/// Prints the rows of a query's plan.
fn print_solutions<R: Threads + Wait, G: Gate + Sync, P: Progress>(
    context: &Context<'_, R, G>,
    query: &Query,
    plan: &Plan,
    found: Rows,
    dict: &Dict,
    log: &mut Log<'_, P>,
) -> Result<Vec<Vec<u8>>, EvalFault>
    requires known { AreKnown dict.now found }
    ensures json { IfOk result (λ blocks. joined_blocks blocks.items
        ≡ json (listed_names plan.now.names.items (projected (algebra_of plan.now.tree)))
        (slice (unwrap_or (query_of query.now).offset 0) (query_of query.now).limit
        (sorted_rows (projected (algebra_of plan.now.tree)) (solutions_of dict.now found)))) }
    ensures one_worker { HasOneWorker context.now.how.now → IfErr result (λ fault. fault ≡ Memory) }
{
    log.begin(Stage::Printing);
    let table = Table {
        names: &plan.names,
        listed: plan.projected(),
        dict,
        offset: query.offset.unwrap_or(0),
        limit: query.limit,
    };
    print_rows(
        context.rt,
        context.alloc,
        &table,
        found,
        context.how,
        context.gate,
    )
}

/// Returns the number of bytes of the blocks, or `usize::MAX` if there are more.
fn count_bytes(blocks: &[Vec<u8>]) -> usize
    ensures count { result ≡ min (length (joined_blocks blocks.now)) (2 ^ 64 - 1) }
{
    let mut count: usize = 0;
    for block in blocks {
        count = count.saturating_add(block.len());
    }
    count
}

/// Concatenates the blocks.
fn joined(alloc: Global, blocks: &[Vec<u8>]) -> Result<Vec<u8>, AllocError>
    ensures joined { IfOk result (λ bytes. bytes.items ≡ joined_blocks blocks.now) }
{
    let mut bytes = Vec::with_capacity(alloc, count_bytes(blocks))?;
    for block in blocks {
        bytes.extend_from_slice(block)?;
    }
    Ok(bytes)
}

/// Evaluates a query over a document that is cut into pieces, and returns the result as JSON (SPARQL 1.1 Query
/// Language, sections 17 to 19; SPARQL 1.1 Query Results JSON Format). The query is checked before the
/// document. The cuts, `how` and the gate do not change the result.
///
/// # Requires
/// `cuts` are cuts of this document, and `how` keeps its limits.
///
/// # Errors
/// - `Query(fault)` if this is the first rule that rejects the text. It is never `QueryFault::Memory`.
/// - `BadLine(n)` if the text is a query, and line n of the document, counted from 1, is the first
///   malformed line.
/// - `WorkerRefused` if the text is a query, and a worker thread could not be started. Those that were
///   started have been joined. With one worker no thread is started, so it cannot occur.
/// - `Memory` if an allocation fails, or if the runtime provides no random numbers.
pub fn answer<R: Threads + Wait + RandomSource, G: Gate + Sync>(
    rt: &R,
    alloc: Global,
    doc: &[u8],
    query: &str,
    cuts: &Cuts,
    how: &How,
    gate: &G,
) -> Result<Vec<u8>, Fault>
    requires fits { AreCuts doc.now cuts.now }
    requires how { IsRunnable how.now }
    ensures answer { IfOk result (λ bytes. IsQueryResult doc.now query.now (Ok bytes.items)) }
    ensures err { IfErr result (IsFaultOf doc.now query.now) }
    ensures one_worker { HasOneWorker how.now → IfErr result IsOneWorkerFault }
{
    let valid = valid_query(alloc, query)?;
    let context = Context {
        rt,
        alloc,
        how,
        gate,
    };
    let bytes = answer_valid(&context, doc, query, &valid, cuts);
    drop(valid);
    bytes
}

/// Evaluates a query, which is the one of this text, over a document that is cut into pieces. The query is only
/// borrowed here (docs/PROOF.md).
fn answer_valid<R: Threads + Wait + RandomSource, G: Gate + Sync>(
    context: &Context<'_, R, G>,
    doc: &[u8],
    text: &str,
    query: &Query,
    cuts: &Cuts,
) -> Result<Vec<u8>, Fault>
    requires fits { AreCuts doc.now cuts.now }
    requires valid { IsValidQuery (chars text.now) (query_of query.now) }
    ensures answer { IfOk result (λ bytes. IsQueryResult doc.now text.now (Ok bytes.items)) }
    ensures err { IfErr result (IsFaultOf doc.now text.now) }
    ensures one_worker { HasOneWorker context.now.how.now → IfErr result IsOneWorkerFault }
{
    a_dataset_is_a_set();
    a_bag_has_one_sorted_list();
    let store = load(
        context.rt,
        context.alloc,
        doc,
        cuts,
        context.how.workers,
        context.gate,
    )?;
    let mut log = Log::new(&NoProgress);
    let made = answer_query(context, store, query, &mut log)?;
    let (blocks, dict) = made;
    drop(dict);
    let bytes = joined(context.alloc, &blocks)?;
    Ok(bytes)
}
