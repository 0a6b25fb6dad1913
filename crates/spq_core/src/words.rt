//! Runs the words of a command line over a reader and a writer. A query runs on a stack that is as
//! large as the query may need.
ghost use Rattle.std.specs.Prelude.{◌≡◌, ◌⊎◌, ◌+◌, ◌*◌, ◌-◌, ◌^◌, Err, IfErr, length, map, min, string_bytes};
ghost use Rattle.spq_core.specs.Causes.{IsRunCaused};
ghost use Rattle.spq_core.specs.QueryStack.{least_stack, stack_per_byte};
ghost use Rattle.spq_core.specs.Output.{request_of, select};
ghost use Rattle.spq_core.specs.Ran.{IsRan};
ghost use Rattle.spq_core.specs.Run.{IsAnswerable, IsByOneWorker, IsRun};
ghost use Rattle.spq_core.specs.Words.{IsDoneAlone, IsNotRun, IsRunOf};
ghost use Rattle.spq_run.specs.declared.fault.RunFault.TheVariants.{WorkerRefused};

use crate::answering::check_query;
use crate::notes::Log;
use crate::program::{run_fault, run_noted};
use core::thread::Stack;
use nquads_core::{Sink, Source};
use piece_pool::PoolFault;
use spq_command::{Command, CommandFault, read_command};
use spq_run::{Notes, Progress, RunFault};
use std::alloc::Global;
use std::marker::PhantomData;
use std::random::RandomSource;
use std::snapshot::Snapshot;
use std::sync::Wait;
use std::sync::atomic::{AtomicBool, Ordering};
use std::thread;
use std::thread::{Promise, Scope, Threads};

/// The bytes of stack for an empty query.
const LEAST_STACK: usize = 8 * 1024 * 1024;

/// The bytes of stack for each byte of a query. The shortest part of a chain is `{}`. It needs less
/// stack than its two bytes get.
const STACK_PER_BYTE: usize = 4 * 1024;

/// The result of the words of a command line, and the reader and the writer that were passed with them.
#[derive(Drop)]
pub struct Ran<S, K> {
    /// Nothing, or why the command was not done.
    pub done: Result<(), RunFault>,
    /// The reader, as it was left.
    pub reader: S,
    /// The writer, as it was left.
    pub writer: K,
    /// The notes for messages to the user.
    pub notes: Notes,
}

impl<S, K> Ran<S, K> {
    /// Returns this fault and the unchanged reader and writer. No command was run.
    fn not_run(fault: RunFault, reader: S, writer: K) -> Ran<S, K>
        ensures done { result.done ≡ Err fault }
        ensures unread { result.reader ≡ reader }
        ensures unwritten { result.writer ≡ writer }
    {
        Ran {
            done: Err(fault),
            reader,
            writer,
            notes: Notes::new(),
        }
    }
}

/// The claim that a thread runs this command over this reader and this writer.
#[derive(Drop)]
struct RunOver<S, K, P> {
    command: Snapshot<Command>,
    reader: Snapshot<S>,
    writer: Snapshot<K>,
    progress: PhantomData<P>,
}

impl<S: Source, K: Sink, P: Progress> Promise<Ran<S, K>> for RunOver<S, K, P> {
    ghost kept_by = { λ p ran. IsRan S.left S.failures K.held K.failures K.write_gives P.fails
        p.command.value p.reader.value p.writer.value ran };
}

/// What a run borrows: the runtime, the allocator, its command, and the progress that it calls.
#[derive(Drop)]
struct Setting<'s, R, P> {
    rt: &'s R,
    alloc: Global,
    command: &'s Command,
    progress: &'s P,
}

/// Returns the number of bytes of stack that a query may need.
fn stack_for(query: &str) -> usize
    ensures stack { result ≡ min (least_stack + stack_per_byte * length query.now) (2 ^ 64 - 1) }
{
    LEAST_STACK.saturating_add(query.len().saturating_mul(STACK_PER_BYTE))
}

/// Runs a command on the caller's thread.
fn run_here<R: Threads + Wait + RandomSource, S: Source, K: Sink, P: Progress>(
    setting: &Setting<'_, R, P>,
    reader: S,
    writer: K,
) -> Ran<S, K>
    ensures ran { IsRan S.left S.failures K.held K.failures K.write_gives P.fails
        setting.now.command.now reader writer result }
    ensures one_worker { IsByOneWorker setting.now.command.now
        → result.done ≡ Err WorkerRefused → ⊥ }
{
    let (mut left, mut held) = (reader, writer);
    let mut log = Log::new(setting.progress);
    let done = run_noted(
        setting.rt,
        setting.alloc,
        setting.command,
        &mut left,
        &mut held,
        &mut log,
    );
    Ran {
        done,
        reader: left,
        writer: held,
        notes: log.into_notes(),
    }
}

/// Runs a command, or returns the reader and the writer if its thread could not be started.
fn run_if_started<R: Threads + Wait + RandomSource, S: Source, K: Sink, P: Progress>(
    setting: &Setting<'_, R, P>,
    not_started: &AtomicBool,
    reader: S,
    writer: K,
) -> Ran<S, K>
    ensures ran { IsRan S.left S.failures K.held K.failures K.write_gives P.fails
        setting.now.command.now reader writer result }
{
    if not_started.load(Ordering::SeqCst) {
        setting.progress.failed(PoolFault::WorkerRefused);
        return Ran {
            done: Err(RunFault::WorkerRefused),
            reader,
            writer,
            notes: Notes::new(),
        };
    }
    run_here(setting, reader, writer)
}

/// Starts a thread of a scope that runs a command, and joins it. If it cannot be started, nothing is read or
/// written.
fn start_and_join<
    's,
    E,
    R: Threads + Wait + RandomSource + Sync,
    S: Source + Send + Drop + 's,
    K: Sink + Send + Drop + 's,
    P: Progress + Sync + 's,
>(
    setting: &'s Setting<'s, R, P>,
    scope: &Scope<'s, E>,
    stack: usize,
    not_started: &'s AtomicBool,
    reader: S,
    writer: K,
) -> Ran<S, K>
    ensures ran { IsRan S.left S.failures K.held K.failures K.write_gives P.fails
        setting.now.command.now reader writer result }
{
    let promise: RunOver<S, K, P> = RunOver {
        command: Snapshot::of(setting.command),
        reader: Snapshot::of(&reader),
        writer: Snapshot::of(&writer),
        progress: PhantomData,
    };
    let stack = Stack::new().stack_size(stack);
    let worker = move || run_if_started(setting, not_started, reader, writer);
    match stack.spawn_scoped_with(scope, promise, worker) {
        Ok(thread) => thread.join(setting.rt),
        Err(unstarted) => {
            not_started.store(true, Ordering::SeqCst);
            (unstarted.value)()
        }
    }
}

/// Runs a command on a thread of its own, with a stack of this number of bytes.
fn run_apart<
    R: Threads + Wait + RandomSource + Sync,
    S: Source + Send + Drop,
    K: Sink + Send + Drop,
    P: Progress + Sync,
>(setting: &Setting<'_, R, P>, stack: usize, reader: S, writer: K) -> Ran<S, K>
    ensures ran { IsRan S.left S.failures K.held K.failures K.write_gives P.fails
        setting.now.command.now reader writer result }
{
    let not_started = AtomicBool::new(false);
    let not_started = &not_started;
    thread::scope(
        thread::scope_env(),
        setting.rt,
        move |scope| -> Ran<S, K>
            ensures ran { IsRan S.left S.failures K.held K.failures K.write_gives P.fails
                setting.entry.now.command.now reader writer result }
        { start_and_join(setting, scope, stack, not_started, reader, writer) },
    )
}

/// Runs a select: checks its query on the caller's thread, and then runs it on a thread of its own.
fn run_select<
    R: Threads + Wait + RandomSource + Sync,
    S: Source + Send + Drop,
    K: Sink + Send + Drop,
    P: Progress + Sync,
>(setting: &Setting<'_, R, P>, query: &str, reader: S, writer: K) -> Ran<S, K>
    requires query { request_of setting.now.command.now ≡ select query.now }
    ensures run { IsRun S.left S.failures K.held K.failures K.write_gives
        (request_of setting.now.command.now) reader result.reader writer result.writer result.done }
    ensures unread { IsByOneWorker setting.now.command.now
        → result.done ≡ Err WorkerRefused → result.reader ≡ reader }
    ensures cause { IfErr result.done (IsRunCaused P.fails (S.left reader)) }
    ensures answerable { result.done ≡ Err WorkerRefused → IsAnswerable (select query.now) }
{
    match check_query(setting.alloc, query) {
        Ok(()) => run_apart(setting, stack_for(query), reader, writer),
        Err(rejected) => Ran::not_run(run_fault(setting.progress, rejected), reader, writer),
    }
}

/// Runs a command: a select on a thread of its own, any other on the caller's thread.
fn run_command<
    R: Threads + Wait + RandomSource + Sync,
    S: Source + Send + Drop,
    K: Sink + Send + Drop,
    P: Progress + Sync,
>(setting: &Setting<'_, R, P>, reader: S, writer: K) -> Ran<S, K>
    ensures ran { IsRan S.left S.failures K.held K.failures K.write_gives P.fails
        setting.now.command.now reader writer result }
    ensures alone { IsDoneAlone setting.now.command.now → result.done ≡ Err WorkerRefused → ⊥ }
    ensures answerable { result.done ≡ Err WorkerRefused
        → IsAnswerable (request_of setting.now.command.now) }
{
    match setting.command {
        Command::Select { query, .. } => run_select(setting, query.as_str(), reader, writer),
        Command::Check { .. } | Command::Terms { .. } => run_here(setting, reader, writer),
    }
}

/// Reads the words of a command line and runs their command. A query is checked on the caller's
/// thread, and then runs on a thread of its own, whose stack grows with its text. `check` and `terms`
/// run on the caller's thread.
///
/// The memory of the document's terms is left to the end of the process, as by [`run`](crate::run). The progress is told of each
/// failure that becomes `WorkerRefused` or `Memory`.
///
/// # Errors
/// - `Line` if the words are not a valid command line. Nothing is read or written.
/// - `Query` if the query of a `select` is rejected. No thread is started, and nothing is read or
///   written.
/// - `WorkerRefused` if a worker thread, or the thread of a query, could not be started. The query of a
///   `select` is then valid. Nothing is read or written if it was the thread of a query. With one
///   worker no other thread is started, so it cannot occur in a `check` or a `terms`.
/// - `Memory` if an allocation fails, or for one of the other reasons of `load_reader`.
/// - All other errors as in [`run`](crate::run).
///
/// The reader and the writer are returned in every case.
pub fn run_words<
    R: Threads + Wait + RandomSource + Sync,
    S: Source + Send + Drop,
    K: Sink + Send + Drop,
    P: Progress + Sync,
>(rt: &R, alloc: Global, words: &[String], reader: S, writer: K, progress: &P) -> Ran<S, K>
    ensures run { IsRunOf S.left S.failures K.held K.failures K.write_gives
        (map string_bytes words.now) reader result.reader writer result.writer result.done
        ⊎ IsNotRun (map string_bytes words.now) reader result.reader writer result.writer
        result.done }
    ensures cause { IfErr result.done (IsRunCaused P.fails (S.left reader)) }
{
    match read_command(alloc, words) {
        Ok(command) => {
            let setting = Setting {
                rt,
                alloc,
                command: &command,
                progress,
            };
            run_command(&setting, reader, writer)
        }
        Err(CommandFault::Line) => Ran::not_run(RunFault::Line, reader, writer),
        Err(CommandFault::Memory) => {
            progress.failed(PoolFault::Memory);
            Ran::not_run(RunFault::Memory, reader, writer)
        }
    }
}
