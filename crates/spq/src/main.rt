//! spq: evaluates SPARQL SELECT over an N-Quads document, checks one, and lists its terms.
//!
//! The document is read from standard input. The output, or the line of a fault, is written to standard output.
//! The exit status is 0, or that of the fault. The contracts are those of `run_words` of `spq_core` and `finish` of
//! `spq_run`, which this crate calls with the arguments and the two devices.
//! Another thread writes to standard error while the run goes on: the first malformed line, and at a terminal the
//! progress of a long run. Then `report` of `spq_report` writes why the run failed and where. The output is complete
//! before the program waits for standard error.
//!
//! Tests: `tests/examples.py`, `tests/messages.py`, `tests/tour.py` and `tests/hostile.py` run the executable; the crate
//! spq_tests tests `run_words`.
#![tactic(auto)]

ghost use Rattle.std.specs.Prelude.{◌≡◌};
ghost use Rattle.spq_run.specs.Report.{exit_status, status_of};

use nquads_core::{Sink, Source};
use spq_core::{Ran, run_words};
use spq_report::{Account, Console, Input, Meter, NoMeter, Output, Terminals, report};
use spq_run::{Notes, RunFault, finish};
use std::alloc::Global;
use std::io::{ErrorKind, IsTerminal, Stderr, Stdin, Stdout};
use std::process::ExitCode;
use std::random::RandomSource;
use std::sync::Wait;
use std::thread::{Builder, Threads};
use std::time::Clock;
use std::{env, thread};

/// The bytes of stack of the thread that writes to standard error while a run goes on.
const WATCH_STACK: usize = 256 * 1024;

/// Returns the words of the command line.
fn words_of(rt: &HostRuntime) -> Result<Vec<String>, RunFault> {
    let args = match env::args(rt) {
        Ok(args) => args,
        Err(failed) if failed.kind() == ErrorKind::OutOfMemory => return Err(RunFault::Memory),
        Err(_no_text) => return Err(RunFault::Line),
    };
    let mut words = Vec::new(rt.alloc());
    for word in args {
        let Ok(()) = words.push(word) else {
            return Err(RunFault::Memory);
        };
    }
    Ok(words)
}

/// Returns which devices are terminals.
fn terminals_of(rt: &HostRuntime) -> Terminals {
    Terminals {
        input: rt.stdin().is_terminal(),
        output: rt.stdout().is_terminal(),
        error: rt.stderr().is_terminal(),
    }
}

/// Ends a program whose words could not be read. Returns the exit status.
fn end_without_words(rt: &HostRuntime, fault: RunFault, terminals: Terminals) -> u8
    ensures status { result ≡ status_of fault }
{
    let mut writer = Output::new(rt.stdout(), &NoMeter);
    let done = Err(fault);
    let status = finish(&done, &mut writer);
    let account = Account {
        words: None,
        notes: &Notes::new(),
        read_error: None,
        write_error: None,
        is_repeated: !terminals.output,
        is_first_told: false,
    };
    let _reported = report(&mut rt.stderr(), rt.alloc(), &done, &account);
    status
}

/// A run whose output is complete, and its exit status.
#[derive(Drop)]
struct Ended<S, K> {
    ran: Ran<S, K>,
    status: u8,
}

/// Ends the output of a run: writes the line of its fault, if it has one.
fn end<S, K: Sink>(ran: Ran<S, K>) -> Ended<S, K>
    ensures ran { result.ran.done ≡ ran.done }
    ensures status { result.status ≡ exit_status ran.done }
{
    let mut ran = ran;
    let status = finish(&ran.done, &mut ran.writer);
    Ended { ran, status }
}

/// Runs the words of a command line. Another thread, if it can be started, writes to standard error meanwhile.
fn run_watched<
    'r,
    R: Threads + Wait + RandomSource + Clock + Sync,
    S: Source + Send + Drop,
    K: Sink + Send + Drop,
>(
    rt: &'r R,
    alloc: Global,
    words: &[String],
    reader: S,
    writer: K,
    console: &Console<&'r R, &'r R, Stderr>,
) -> Ended<S, K>
    ensures status { result.status ≡ exit_status result.ran.done }
{
    thread::scope(
        thread::scope_env(),
        rt,
        move |scope| -> Ended<S, K>
            ensures status { result.status ≡ exit_status result.ran.done }
        {
            let watch = Builder::new().stack_size(WATCH_STACK);
            if watch
                .spawn_scoped(scope, move || console.watch(rt))
                .is_err()
            {
                console.end();
            }
            let ended = end(run_words(rt, alloc, words, reader, writer, console));
            console.end();
            ended
        },
    )
}

/// Writes the messages about a run whose output is complete to standard error.
fn explain<M: Meter>(
    rt: &HostRuntime,
    words: &[String],
    ran: &Ran<Input<'_, Stdin, M>, Output<'_, Stdout, M>>,
    terminals: Terminals,
    is_first_told: bool,
) {
    let account = Account {
        words: Some(words),
        notes: &ran.notes,
        read_error: ran.reader.error,
        write_error: ran.writer.error,
        is_repeated: !terminals.output,
        is_first_told,
    };
    let _reported = report(&mut rt.stderr(), rt.alloc(), &ran.done, &account);
}

fn main(rt: HostRuntime) -> ExitCode {
    let terminals = terminals_of(&rt);
    let words = match words_of(&rt) {
        Ok(words) => words,
        Err(fault) => return ExitCode::from(end_without_words(&rt, fault, terminals)),
    };
    let console = Console::new(&rt, &rt, rt.alloc(), rt.stderr(), terminals);
    let reader = Input::new(rt.stdin(), &console);
    let writer = Output::new(rt.stdout(), &console);
    let ended = run_watched(&rt, rt.alloc(), &words, reader, writer, &console);
    explain(&rt, &words, &ended.ran, terminals, console.is_first_told());
    ExitCode::from(ended.status)
}
