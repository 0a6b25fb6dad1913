//! The program: a command over a reader and a writer.
ghost use Rattle.std.specs.Prelude.{◌≡◌, Err, IfErr, IfOk, OnErr, OnOk, length};
ghost use Rattle.std.specs.Io.KnownBytes.{Appends};
ghost use Rattle.std.specs.Str.{chars};
ghost use Rattle.nquads_core.specs.Device.{Stays};
ghost use Rattle.nquads_core.specs.Transfer.{WroteBeginning};
ghost use Rattle.dataset_load.specs.Counted.{AreTermsFrom, IsCountedFrom};
ghost use Rattle.dataset_load.specs.Streaming.{IsKeptLoadedFrom};
ghost use Rattle.sparql_tree.specs.QueryTree.{query_of};
ghost use Rattle.sparql_read.specs.Rejection.{IsValidQuery};
ghost use Rattle.sparql_algebra.specs.AlgebraOf.{algebra_of};
ghost use Rattle.sparql_algebra.specs.Names.{names_of};
ghost use Rattle.sparql_algebra.specs.Translation.{translate};
ghost use Rattle.result_json.specs.Results.{joined_blocks};
ghost use Rattle.spq_core.specs.Output.{check, request_of, select, terms};
ghost use Rattle.spq_core.specs.Causes.{IsRunCaused};
ghost use Rattle.spq_core.specs.Listing.{counts_line, text_lines};
ghost use Rattle.spq_core.specs.Run.{IsAnswerable, IsByOneWorker, IsRun};
ghost use Rattle.spq_core.specs.Composing.{IsComposing, IsLoading, IsNeededFrom, run_fault_of, run_result_of};
ghost use Rattle.spq_run.specs.Writing.{WriterFailed};
ghost use Rattle.spq_run.specs.declared.fault.RunFault.TheVariants.{WorkerRefused};

use crate::answering::{answer_plan, valid_query};
use crate::fault::Fault;
use crate::listing::{counts_text, terms_text};
use crate::notes::Log;
use algebra_model::laws::a_bag_has_one_sorted_list;
use dataset_load::{Counted, LoadNotes, ReaderFault, Store, count_reader, load_reader, load_terms};
use needed_quads::filter_of;
use needed_quads::laws::needed_quads_suffice;
use nquads_core::{DeviceFailed, Sink, Source};
use piece_pool::{OpenGate, PoolFault};
use quad_filter::QuadFilter;
use row_pieces::{Context, How};
use sparql_algebra::{Plan, translate};
use sparql_tree::Query;
use spq_command::{Command, ReadOptions};
use spq_run::{NoProgress, Progress, RunFault, Stage, write_text};
use std::alloc::{AllocError, Global};
use std::mem;
use std::random::RandomSource;
use std::sync::Wait;
use std::thread::Threads;
use text_dict::TextDict;

/// Returns the fault of a run under the same name. The progress is told of it, if memory or a worker was the cause.
pub(crate) fn run_fault<P: Progress>(progress: &P, failed: Fault) -> RunFault
    ensures same { result ≡ run_fault_of failed }
    ensures cause { (left : _) → IsRunCaused P.fails left result }
{
    match failed {
        Fault::Query(fault) => RunFault::Query(fault),
        Fault::BadLine(line) => RunFault::BadLine(line),
        Fault::WorkerRefused => {
            progress.failed(PoolFault::WorkerRefused);
            RunFault::WorkerRefused
        }
        Fault::Memory => {
            progress.failed(PoolFault::Memory);
            RunFault::Memory
        }
    }
}

/// Ends the loading of a document: notes what it noted, and returns what it returned.
fn finished<T: Drop, P: Progress>(
    log: &mut Log<'_, P>,
    loading: LoadNotes,
    loaded: Result<T, ReaderFault>,
) -> Result<T, RunFault>
    ensures loaded { result ≡ run_result_of loaded }
{
    log.loaded(loading);
    match loaded {
        Ok(value) => Ok(value),
        Err(ReaderFault::BadLine(line)) => Err(RunFault::BadLine(line)),
        Err(ReaderFault::WorkerRefused) => Err(RunFault::WorkerRefused),
        Err(ReaderFault::Memory) => Err(RunFault::Memory),
        Err(ReaderFault::Read) => Err(RunFault::Read),
    }
}

/// Loads the quads of the rest of the reader that the filter keeps, and perhaps others.
fn load_document<R: Threads + Wait + RandomSource, S: Source, P: Progress>(
    rt: &R,
    alloc: Global,
    reading: ReadOptions,
    filter: &QuadFilter,
    reader: &mut S,
    log: &mut Log<'_, P>,
) -> Result<Store, RunFault>
    ensures loading { IsLoading S.left S.failures (IsKeptLoadedFrom filter.now)
        (reading.workers ≡ 1) reader.old reader.new result }
    ensures cause { IfErr result (IsRunCaused P.fails (S.left reader.old)) }
{
    log.begin(Stage::Reading);
    let (size, workers) = (reading.piece, reading.workers);
    let mut loading = LoadNotes::new();
    let loaded = load_reader(
        rt,
        alloc,
        size,
        reader,
        filter,
        workers,
        &OpenGate,
        &mut loading,
        log.progress(),
    );
    finished(log, loading, loaded)
}

/// Loads the quads of the rest of the reader that a plan needs, and perhaps others. If there is no memory for a filter of them,
/// nothing is read.
fn load_needed<R: Threads + Wait + RandomSource, S: Source, P: Progress>(
    rt: &R,
    alloc: Global,
    reading: ReadOptions,
    plan: &Plan,
    reader: &mut S,
    log: &mut Log<'_, P>,
) -> Result<Store, RunFault>
    ensures loading { IsLoading S.left S.failures (IsNeededFrom (algebra_of plan.now.tree))
        (reading.workers ≡ 1) reader.old reader.new result }
    ensures cause { IfErr result (IsRunCaused P.fails (S.left reader.old)) }
{
    let filter = match filter_of(alloc, plan) {
        Ok(filter) => filter,
        Err(_failed) => return Err(run_fault(log.progress(), Fault::Memory)),
    };
    let store = load_document(rt, alloc, reading, &filter, reader, log);
    drop(filter);
    store
}

/// Counts the quads and graph names of the rest of the reader, and returns its terms.
fn count_document<R: Threads + Wait + RandomSource, S: Source, P: Progress>(
    rt: &R,
    alloc: Global,
    reading: ReadOptions,
    reader: &mut S,
    log: &mut Log<'_, P>,
) -> Result<Counted, RunFault>
    ensures loading { IsLoading S.left S.failures IsCountedFrom (reading.workers ≡ 1)
        reader.old reader.new result }
    ensures cause { IfErr result (IsRunCaused P.fails (S.left reader.old)) }
{
    log.begin(Stage::Reading);
    let (size, workers) = (reading.piece, reading.workers);
    let mut loading = LoadNotes::new();
    let counted = count_reader(
        rt,
        alloc,
        size,
        reader,
        workers,
        &OpenGate,
        &mut loading,
        log.progress(),
    );
    finished(log, loading, counted)
}

/// Loads the terms of the rest of the reader.
fn load_document_terms<R: Threads + Wait + RandomSource, S: Source, P: Progress>(
    rt: &R,
    alloc: Global,
    reading: ReadOptions,
    reader: &mut S,
    log: &mut Log<'_, P>,
) -> Result<TextDict, RunFault>
    ensures loading { IsLoading S.left S.failures AreTermsFrom (reading.workers ≡ 1)
        reader.old reader.new result }
    ensures cause { IfErr result (IsRunCaused P.fails (S.left reader.old)) }
{
    log.begin(Stage::Reading);
    let (size, workers) = (reading.piece, reading.workers);
    let mut loading = LoadNotes::new();
    let loaded = load_terms(
        rt,
        alloc,
        size,
        reader,
        workers,
        &OpenGate,
        &mut loading,
        log.progress(),
    );
    finished(log, loading, loaded)
}

/// Evaluates a query over the rest of the reader, and returns the result in blocks that follow each
/// other. Checks the query before it reads. (A task has at least one row.)
fn selected<R: Threads + Wait + RandomSource, S: Source, P: Progress>(
    rt: &R,
    alloc: Global,
    query: &str,
    reading: ReadOptions,
    rows: usize,
    reader: &mut S,
    log: &mut Log<'_, P>,
) -> Result<Vec<Vec<u8>>, RunFault>
    ensures composing { IsComposing S.left S.failures (select query.now) (reading.workers ≡ 1)
        reader.old reader.new result }
    ensures cause { IfErr result (IsRunCaused P.fails (S.left reader.old)) }
{
    let parsed = match valid_query(alloc, query) {
        Ok(parsed) => parsed,
        Err(fault) => return Err(run_fault(log.progress(), fault)),
    };
    let valid = ValidSelect {
        text: query,
        query: &parsed,
        reading,
        rows,
    };
    let blocks = selected_by(rt, alloc, &valid, reader, log);
    drop(parsed);
    blocks
}

/// A select whose query is the one of its text. The query is only borrowed (docs/PROOF.md).
#[derive(Drop)]
struct ValidSelect<'q> {
    text: &'q str,
    query: &'q Query,
    reading: ReadOptions,
    /// The number of rows that a task has at most.
    rows: usize,
}

/// Evaluates a query over the rest of the reader. Translates it before it reads, since its plan says which quads it needs.
fn selected_by<R: Threads + Wait + RandomSource, S: Source, P: Progress>(
    rt: &R,
    alloc: Global,
    valid: &ValidSelect<'_>,
    reader: &mut S,
    log: &mut Log<'_, P>,
) -> Result<Vec<Vec<u8>>, RunFault>
    requires valid { IsValidQuery (chars valid.now.text.now) (query_of valid.now.query.now) }
    ensures composing { IsComposing S.left S.failures (select valid.now.text.now)
        (valid.now.reading.workers ≡ 1) reader.old reader.new result }
    ensures cause { IfErr result (IsRunCaused P.fails (S.left reader.old)) }
{
    let plan = match translate(alloc, valid.query) {
        Ok(plan) => plan,
        Err(_failed) => return Err(run_fault(log.progress(), Fault::Memory)),
    };
    let blocks = planned(rt, alloc, valid, &plan, reader, log);
    drop(plan);
    blocks
}

/// Evaluates the plan of a query over the rest of the reader. The plan is only borrowed (docs/PROOF.md).
///
/// The memory of the terms is left to the end of the process, as in `checked`.
fn planned<R: Threads + Wait + RandomSource, S: Source, P: Progress>(
    rt: &R,
    alloc: Global,
    valid: &ValidSelect<'_>,
    plan: &Plan,
    reader: &mut S,
    log: &mut Log<'_, P>,
) -> Result<Vec<Vec<u8>>, RunFault>
    requires valid { IsValidQuery (chars valid.now.text.now) (query_of valid.now.query.now) }
    requires names { plan.now.names.items ≡ names_of (query_of valid.now.query.now) }
    requires tree { algebra_of plan.now.tree
        ≡ (translate (query_of valid.now.query.now)).algebra }
    ensures composing { IsComposing S.left S.failures (select valid.now.text.now)
        (valid.now.reading.workers ≡ 1) reader.old reader.new result }
    ensures cause { IfErr result (IsRunCaused P.fails (S.left reader.old)) }
{
    a_bag_has_one_sorted_list();
    needed_quads_suffice();
    let store = load_needed(rt, alloc, valid.reading, plan, reader, log)?;
    log.queried(alloc, valid.text);
    let how = How {
        workers: valid.reading.workers,
        rows: valid.rows.max(1),
    };
    let context = Context {
        rt,
        alloc,
        how: &how,
        gate: &OpenGate,
    };
    match answer_plan(&context, store, valid.query, plan, log) {
        Ok((blocks, dict)) => {
            mem::forget(dict);
            Ok(blocks)
        }
        Err(fault) => Err(run_fault(log.progress(), Fault::from(fault))),
    }
}

/// Makes a list of one block.
fn one_block(alloc: Global, text: Vec<u8>) -> Result<Vec<Vec<u8>>, AllocError>
    ensures joined { IfOk result (λ blocks. joined_blocks blocks.items ≡ text.items) }
{
    Ok(vec![in alloc; text]?)
}

/// Prints the counts of a dataset, as one block.
fn counts_block(alloc: Global, counted: &Counted) -> Result<Vec<Vec<u8>>, AllocError>
    ensures text { IfOk result (λ blocks. joined_blocks blocks.items ≡ counts_line
        counted.now.quads (length counted.now.dict.texts) counted.now.graphs) }
{
    let text = counts_text(alloc, counted)?;
    one_block(alloc, text)
}

/// Lists the terms of a dataset, as one block.
fn terms_block(alloc: Global, dict: &TextDict) -> Result<Vec<Vec<u8>>, AllocError>
    ensures text { IfOk result (λ blocks. joined_blocks blocks.items ≡ text_lines dict.now.texts) }
{
    let text = terms_text(alloc, dict)?;
    one_block(alloc, text)
}

/// Counts the quads, terms and graphs of the document that is the rest of the reader.
///
/// The memory of the terms is left to the end of the process: freeing them one by one takes about as long as sorting
/// the quads.
fn checked<R: Threads + Wait + RandomSource, S: Source, P: Progress>(
    rt: &R,
    alloc: Global,
    reading: ReadOptions,
    reader: &mut S,
    log: &mut Log<'_, P>,
) -> Result<Vec<Vec<u8>>, RunFault>
    ensures composing { IsComposing S.left S.failures check (reading.workers ≡ 1)
        reader.old reader.new result }
    ensures cause { IfErr result (IsRunCaused P.fails (S.left reader.old)) }
{
    let counted = count_document(rt, alloc, reading, reader, log)?;
    log.begin(Stage::Printing);
    let blocks = counts_block(alloc, &counted);
    mem::forget(counted);
    match blocks {
        Ok(blocks) => Ok(blocks),
        Err(_) => Err(run_fault(log.progress(), Fault::Memory)),
    }
}

/// Lists the terms of the document that is the rest of the reader.
///
/// The memory of the terms is left to the end of the process, as in `checked`.
fn listed<R: Threads + Wait + RandomSource, S: Source, P: Progress>(
    rt: &R,
    alloc: Global,
    reading: ReadOptions,
    reader: &mut S,
    log: &mut Log<'_, P>,
) -> Result<Vec<Vec<u8>>, RunFault>
    ensures composing { IsComposing S.left S.failures terms (reading.workers ≡ 1)
        reader.old reader.new result }
    ensures cause { IfErr result (IsRunCaused P.fails (S.left reader.old)) }
{
    let dict = load_document_terms(rt, alloc, reading, reader, log)?;
    log.begin(Stage::Printing);
    let blocks = terms_block(alloc, &dict);
    mem::forget(dict);
    match blocks {
        Ok(blocks) => Ok(blocks),
        Err(_) => Err(run_fault(log.progress(), Fault::Memory)),
    }
}

/// Composes the whole output of a command, before anything is written: blocks that follow each other.
/// They are not joined, since they are written one by one.
fn composed<R: Threads + Wait + RandomSource, S: Source, P: Progress>(
    rt: &R,
    alloc: Global,
    command: &Command,
    reader: &mut S,
    log: &mut Log<'_, P>,
) -> Result<Vec<Vec<u8>>, RunFault>
    ensures composing { IsComposing S.left S.failures (request_of command.now)
        (IsByOneWorker command.now) reader.old reader.new result }
    ensures cause { IfErr result (IsRunCaused P.fails (S.left reader.old)) }
{
    match command {
        Command::Select {
            query,
            reading,
            rows,
        } => selected(rt, alloc, query.as_str(), *reading, *rows, reader, log),
        Command::Check { reading } => checked(rt, alloc, *reading, reader, log),
        Command::Terms { reading } => listed(rt, alloc, *reading, reader, log),
    }
}

/// Writes the blocks, one after the other.
///
/// # Errors
/// `DeviceFailed` if the writer fails, or if a write takes no byte of the next bytes. A beginning of the
/// blocks is written then, and not all of them.
fn write_blocks<K: Sink>(writer: &mut K, blocks: &[Vec<u8>]) -> Result<(), DeviceFailed>
    ensures written { OnOk result
        (Appends (K.held writer.old) (K.held writer.new) (joined_blocks blocks.now)) }
    ensures written_count { OnOk result (Stays (K.failures writer.old) (K.failures writer.new)) }
    ensures failed { OnErr result
        (WroteBeginning (K.held writer.old) (K.held writer.new) (joined_blocks blocks.now)) }
    ensures failed_count { OnErr result
        (WriterFailed K.write_gives (K.failures writer.old) (K.failures writer.new)
        (K.held writer.old) (K.held writer.new) (joined_blocks blocks.now) writer.new) }
{
    for block in blocks {
        write_text(writer, block)?;
    }
    Ok(())
}

/// Runs a command: checks its query, reads the document to its end, composes the whole output and
/// then writes it.
///
/// The memory of the document's terms is left to the end of the process (`mem::forget`): it is not freed, and each call takes
/// more. A caller that stays calls [`answer`](crate::answer), which frees all memory.
///
/// # Errors
/// - `Query(fault)` if the query of a `select` is rejected. Nothing is read.
/// - `BadLine(n)` if line n of the document, counted from 1, is the first that is malformed. The
///   reader was read to its end.
/// - `WorkerRefused` if a worker thread could not be started. The query of a `select` is valid: it was
///   checked before. With one worker no thread is started, so this cannot occur.
/// - `Memory` if an allocation fails, or for one of the other reasons of `load_reader`.
/// - `Read` if the reader fails.
/// - `Write` if the writer fails, or if a write takes none of the next bytes of the output. A beginning
///   of the output was written, and not all of it. A writer that took none is as that write left it,
///   and none of its calls failed.
///
/// On every error, the bytes that were taken are a beginning of what the reader had left, and either
/// the reader is unchanged or the query is valid. On every error but `Write`, the writer is unchanged.
/// If the reader exposes how many of its calls failed, the count rises on `Read` and on no other result. If
/// the writer exposes it, the count is unchanged on every result but `Write`.
pub fn run<R: Threads + Wait + RandomSource, S: Source, K: Sink>(
    rt: &R,
    alloc: Global,
    command: &Command,
    reader: &mut S,
    writer: &mut K,
) -> Result<(), RunFault>
    ensures run { IsRun S.left S.failures K.held K.failures K.write_gives (request_of command.now)
        reader.old reader.new writer.old writer.new result }
    ensures answerable { result ≡ Err WorkerRefused → IsAnswerable (request_of command.now) }
    ensures one_worker { IsByOneWorker command.now → result ≡ Err WorkerRefused → ⊥ }
{
    let mut log = Log::new(&NoProgress);
    run_noted(rt, alloc, command, reader, writer, &mut log)
}

/// Runs a command as [`run`] does, with a log of what messages about it show.
///
/// # Errors
/// As `run`.
pub(crate) fn run_noted<R: Threads + Wait + RandomSource, S: Source, K: Sink, P: Progress>(
    rt: &R,
    alloc: Global,
    command: &Command,
    reader: &mut S,
    writer: &mut K,
    log: &mut Log<'_, P>,
) -> Result<(), RunFault>
    ensures run { IsRun S.left S.failures K.held K.failures K.write_gives (request_of command.now)
        reader.old reader.new writer.old writer.new result }
    ensures answerable { result ≡ Err WorkerRefused → IsAnswerable (request_of command.now) }
    ensures one_worker { IsByOneWorker command.now → result ≡ Err WorkerRefused → ⊥ }
    ensures cause { IfErr result (IsRunCaused P.fails (S.left reader.old)) }
{
    let blocks = composed(rt, alloc, command, reader, log)?;
    match write_blocks(writer, &blocks) {
        Ok(()) => Ok(()),
        Err(_failed) => Err(RunFault::Write),
    }
}
