//! Standard error while a run goes on: the message about the first malformed line as soon as it is known, and at a
//! terminal the progress of a run that takes more than a second.
//!
//! A thread of its own writes both ([`Console::watch`]). The run only changes a state, under a lock that is never
//! held while something is written. So a terminal that is stopped, or a pipe that nobody reads, does not stop the run.

use crate::devices::Meter;
use crate::malformed::first_message;
use malformed_lines::MalformedLine;
use spq_run::{LoadListener, PoolFault, Progress, Stage};
use std::alloc::Global;
use std::io::Write;
use std::sync::{Condvar, Mutex, Wait};
use std::time::{Clock, Duration, Instant};
use std::{io, mem};

/// The milliseconds after which the progress of a run is shown first.
const BEFORE: u64 = 1000;

/// The milliseconds after which the line is written again.
const BETWEEN: u64 = 200;

/// The milliseconds after which a thread that shows no progress looks again, though nothing calls it.
const IDLE: u64 = 60_000;

/// The milliseconds for which the first byte of output waits at most until standard error has taken what is due.
const MOST_WAIT: u64 = 1000;

/// What begins a line that replaces the one before.
const CLEAR: &[u8] = b"\r\x1b[K";

/// Which devices of a program are terminals.
#[derive(Clone, Copy)]
pub struct Terminals {
    /// Whether standard input is a terminal.
    pub input: bool,
    /// Whether standard output is a terminal.
    pub output: bool,
    /// Whether standard error is a terminal.
    pub error: bool,
}

/// How far a run is.
#[derive(Clone, Copy)]
struct Counts {
    stage: Stage,
    bytes: u64,
    lines: u64,
    /// The milliseconds after which the end was read.
    read_in: Option<u128>,
}

impl Counts {
    /// Writes the line for this time after the start, over the one before.
    fn draw<W: Write>(&self, out: &mut W, millis: u128) -> io::Result<()> {
        let Some(stage) = name_of(self.stage) else {
            return Ok(());
        };
        let megabytes = self.bytes / 1_000_000;
        let time = self.read_in.unwrap_or(millis);
        let rate = (self.lines as u128).saturating_mul(1000) / time.max(1);
        out.write_all(CLEAR)?;
        write!(
            out,
            "spq: {megabytes} MB read, {rate} statements a second, {stage}"
        )
    }
}

/// The message about the first malformed line.
#[derive(Drop)]
enum First {
    /// None is known.
    Unknown,
    /// It is to be written.
    Due(Vec<u8>),
    /// It is being written, or it was.
    Told,
}

/// What a run has done, and what standard error shows of it.
#[derive(Drop)]
struct State {
    counts: Counts,
    first: First,
    /// Whether a read has begun.
    is_begun: bool,
    /// Whether a line of progress is shown.
    is_shown: bool,
    /// Whether something is being written.
    is_busy: bool,
    /// Whether no progress is to be shown any more.
    is_quiet: bool,
    /// Whether the run has ended.
    is_over: bool,
}

/// What is to be written next.
#[derive(Drop)]
enum Task {
    /// Nothing, for now.
    Nothing,
    /// Nothing, as the run has ended.
    End,
    /// This message, in place of the line of progress if one is shown.
    Message { text: Vec<u8>, is_shown: bool },
    /// The line of progress for this time after the start.
    Line(Counts, u128),
    /// Nothing in place of the line of progress.
    Clear,
}

/// Returns the name of a stage that is shown.
fn name_of(stage: Stage) -> Option<&'static str> {
    match stage {
        Stage::Checking => None,
        Stage::Reading => Some("reading"),
        Stage::Indexing => Some("indexing"),
        Stage::Evaluating => Some("evaluating"),
        Stage::Printing => Some("printing"),
    }
}

impl State {
    /// Returns the state of a run that begins.
    fn new() -> State {
        State {
            counts: Counts {
                stage: Stage::Checking,
                bytes: 0,
                lines: 0,
                read_in: None,
            },
            first: First::Unknown,
            is_begun: false,
            is_shown: false,
            is_busy: false,
            is_quiet: false,
            is_over: false,
        }
    }

    /// Returns whether a message is due.
    fn has_message(&self) -> bool {
        matches!(&self.first, First::Due(_))
    }

    /// Returns whether something other than progress is to be done.
    fn is_urgent(&self) -> bool {
        self.has_message() || self.is_over || self.is_quiet && self.is_shown
    }

    /// Returns whether standard error has not yet taken what comes before the output.
    fn is_pending(&self) -> bool {
        !self.is_over && (self.has_message() || self.is_busy || self.is_shown)
    }

    /// Takes the message that is due.
    fn take_message(&mut self) -> Option<Vec<u8>> {
        if !self.has_message() {
            return None;
        }
        match mem::replace(&mut self.first, First::Told) {
            First::Due(text) => Some(text),
            First::Unknown | First::Told => None,
        }
    }

    /// Returns what is to be written next, and notes that it is being written. `millis` is the time since the start, if
    /// progress is shown.
    fn next_task(&mut self, millis: Option<u128>) -> Task {
        let is_shown = self.is_shown;
        if let Some(text) = self.take_message() {
            self.is_shown = false;
            self.is_busy = true;
            return Task::Message { text, is_shown };
        }
        if self.is_quiet {
            self.is_shown = false;
            self.is_busy = is_shown;
            return match (is_shown, self.is_over) {
                (true, _) => Task::Clear,
                (false, true) => Task::End,
                (false, false) => Task::Nothing,
            };
        }
        match (millis, name_of(self.counts.stage)) {
            (Some(millis), Some(_)) if millis >= BEFORE as u128 => {
                self.is_shown = true;
                self.is_busy = true;
                Task::Line(self.counts, millis)
            }
            _ => Task::Nothing,
        }
    }
}

/// Writes a message, in place of the line of progress if one is shown.
fn write_message<W: Write>(out: &mut W, text: &[u8], is_shown: bool) -> io::Result<()> {
    if is_shown {
        out.write_all(CLEAR)?;
    }
    out.write_all(text)
}

/// Standard error during a run. It shows the message about the first malformed line, and at a terminal the progress, in
/// one line that is rewritten in place and cleared before the output and at the end. It also writes a line if the
/// document is read from a terminal. Threads may share a console.
#[derive(Drop)]
pub struct Console<R, C, W> {
    rt: R,
    clock: C,
    alloc: Global,
    terminals: Terminals,
    start: Option<Instant>,
    state: Mutex<State>,
    changed: Condvar,
    out: Mutex<W>,
}

impl<R: Wait, C: Clock, W: Write> Console<R, C, W> {
    /// Creates the console of a run that begins now.
    pub fn new(rt: R, clock: C, alloc: Global, out: W, terminals: Terminals) -> Console<R, C, W> {
        let start = Instant::now(&clock).ok();
        Console {
            rt,
            clock,
            alloc,
            terminals,
            start,
            state: Mutex::new(State::new()),
            changed: Condvar::new(),
            out: Mutex::new(out),
        }
    }

    /// Returns whether progress may be shown: standard error is a terminal, and standard input is not.
    pub fn is_watched(&self) -> bool {
        self.terminals.error && !self.terminals.input
    }

    /// Returns the milliseconds since the start. Returns None if no progress is shown or the clock fails.
    fn elapsed(&self) -> Option<u128> {
        if !self.is_watched() {
            return None;
        }
        let time = self.start?.elapsed(&self.clock).ok()?;
        Some(time.as_millis())
    }

    /// Writes the text of a task, and notes that it is written.
    fn write(&self, task: Task) {
        let mut out = self.out.lock(&self.rt);
        let _written = match task {
            Task::Nothing | Task::End => Ok(()),
            Task::Message { text, is_shown } => write_message(&mut *out, &text, is_shown),
            Task::Line(counts, millis) => counts.draw(&mut *out, millis),
            Task::Clear => out.write_all(CLEAR),
        };
        drop(out);
        self.state.lock(&self.rt).is_busy = false;
        self.changed.notify_all();
    }

    /// Writes what is due: the message about the first malformed line, the progress of a run that has taken a second or
    /// more, or what clears it. Returns whether the run has ended and nothing more is due.
    pub fn show(&self) -> bool {
        let millis = self.elapsed();
        let task = self.state.lock(&self.rt).next_task(millis);
        match task {
            Task::Nothing => false,
            Task::End => true,
            task => {
                self.write(task);
                false
            }
        }
    }

    /// Writes what is due until the run ends.
    pub fn watch<T: Wait + Clock>(&self, rt: &T) {
        let mut time = Duration::from_millis(BEFORE);
        for _ in self.rt.forever() {
            let state = self.state.lock(rt);
            let (state, _is_late) = self
                .changed
                .wait_timeout_while(rt, state, time, |state| !state.is_urgent());
            drop(state);
            if self.show() {
                return;
            }
            time = Duration::from_millis(if self.is_watched() { BETWEEN } else { IDLE });
        }
    }

    /// Notes that the run has ended, or that no thread watches it. No progress is shown any more.
    pub fn end(&self) {
        let mut state = self.state.lock(&self.rt);
        state.is_quiet = true;
        state.is_over = true;
        drop(state);
        self.changed.notify_all();
    }

    /// Returns whether the message about the first malformed line was written.
    pub fn is_first_told(&self) -> bool {
        matches!(&self.state.lock(&self.rt).first, First::Told)
    }
}

/// Counts the lines that end in these bytes.
fn line_feeds(bytes: &[u8]) -> u64 {
    let mut count = 0u64;
    for byte in bytes {
        if *byte == b'\n' {
            count = count.saturating_add(1);
        }
    }
    count
}

impl<R: Wait, C: Clock, W: Write> LoadListener for Console<R, C, W> {
    /// Has the message written at once. Without memory it is left to the end of the run.
    fn found(&self, line: &MalformedLine, is_after_utf8: bool) {
        let is_repeated = !self.terminals.output;
        let Ok(text) = first_message(self.alloc, line, is_after_utf8, is_repeated) else {
            return;
        };
        let mut state = self.state.lock(&self.rt);
        if !state.is_over {
            state.first = First::Due(text);
        }
        drop(state);
        self.changed.notify_all();
    }

    fn failed(&self, _cause: PoolFault) {}
}

impl<R: Wait, C: Clock, W: Write> Progress for Console<R, C, W> {
    fn begin(&self, stage: Stage) {
        self.state.lock(&self.rt).counts.stage = stage;
    }
}

impl<R: Wait + Clock, C: Clock, W: Write> Meter for Console<R, C, W> {
    fn begins(&self) {
        if !self.terminals.input {
            return;
        }
        let mut state = self.state.lock(&self.rt);
        let is_begun = mem::replace(&mut state.is_begun, true);
        drop(state);
        if !is_begun {
            let _told = self.out.lock(&self.rt).write_all(
                b"spq: N-Quads is read from the terminal; end it with Ctrl-D\n",
            );
        }
    }

    fn gave(&self, bytes: &[u8]) {
        if !self.is_watched() {
            return;
        }
        let lines = line_feeds(bytes);
        let end = if bytes.is_empty() {
            self.elapsed()
        } else {
            None
        };
        let mut state = self.state.lock(&self.rt);
        let counts = &mut state.counts;
        if bytes.is_empty() {
            counts.read_in = end;
            counts.stage = Stage::Indexing;
        }
        counts.bytes = counts.bytes.saturating_add(bytes.len() as u64);
        counts.lines = counts.lines.saturating_add(lines);
    }

    /// Ends the progress line, and waits until it is cleared and the message about the first malformed line is written, so
    /// that neither is in the middle of the output. It does not wait for a terminal that is stopped.
    fn writes(&self) {
        let mut state = self.state.lock(&self.rt);
        if state.is_quiet {
            return;
        }
        state.is_quiet = true;
        self.changed.notify_all();
        let time = Duration::from_millis(MOST_WAIT);
        let (state, _is_late) = self
            .changed
            .wait_timeout_while(&self.rt, state, time, |state| state.is_pending());
        drop(state);
    }
}
