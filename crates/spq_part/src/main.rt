//! spq-part: works on one block or one partition of a document, for a cluster of machines.
//!
//! The input is standard input, and the output is standard output. On a failure, one line is written to standard output in
//! its place, and the exit status is that of the failure. The contract is that of `run` of `part_core`, which this
//! crate calls with the arguments and the two devices.
#![tactic(auto)]

use nquads_core::{Device, write_all};
use part_core::{PartFault, line_of, read_command, run, status};
use std::env;
use std::hash::RandomState;
use std::io::ErrorKind;
use std::process::ExitCode;

/// The version, as `--version` prints it.
const VERSION: &[u8] = b"spq-part 2 0.1.0\n";

/// Returns the words of the command line.
fn words_of(rt: &HostRuntime) -> Result<Vec<String>, PartFault> {
    let args = match env::args(rt) {
        Ok(args) => args,
        Err(failed) if failed.kind() == ErrorKind::OutOfMemory => return Err(PartFault::Memory),
        Err(_no_text) => return Err(PartFault::Line),
    };
    let mut words = Vec::new(rt.alloc());
    for word in args {
        let Ok(()) = words.push(word) else {
            return Err(PartFault::Memory);
        };
    }
    Ok(words)
}

/// Returns whether the words request the version.
fn is_version(words: &[String]) -> bool {
    match words.get(1) {
        Some(word) => words.len() == 2 && word.as_str() == "--version",
        None => false,
    }
}

/// Runs the words of the command line over standard input and standard output.
fn run_words(rt: &HostRuntime) -> Result<(), PartFault> {
    let words = words_of(rt)?;
    let mut writer = Device { inner: rt.stdout() };
    if is_version(words.as_slice()) {
        return match write_all(&mut writer, VERSION) {
            Ok(()) => Ok(()),
            Err(_) => Err(PartFault::Write),
        };
    }
    let Some(command) = read_command(words.as_slice()) else {
        return Err(PartFault::Line);
    };
    let Ok(state) = RandomState::new(rt) else {
        return Err(PartFault::Memory);
    };
    let mut reader = Device { inner: rt.stdin() };
    run(rt.alloc(), state, &command, &mut reader, &mut writer)
}

/// Returns the condition of the split that the words name.
fn condition_of(words: &[String]) -> &[u8] {
    let split = match words.get(2) {
        Some(word) => word.as_str(),
        None => "",
    };
    match split {
        "lines" => {
            b"spq-part: a query for lines has one triple pattern, perhaps in GRAPH, in each side of UNION\n"
        }
        "subject" => {
            b"spq-part: in a query for subject each triple pattern has the same variable as subject, and no group is without one\n"
        }
        "graph" => {
            b"spq-part: in a query for graph each triple pattern is in a GRAPH with the same name, and no group is without one\n"
        }
        _ => {
            b"spq-part: in a query for graph-with-default each GRAPH has the same name, no GRAPH is in another, each side of UNION has one, and an OPTIONAL or MINUS with a GRAPH is after one\n"
        }
    }
}

/// Returns why `plan` has no plan for a query that no rule rejects, and nothing for other faults.
fn refusal_of<'a>(fault: &PartFault, words: &'a [String]) -> &'a [u8] {
    match fault {
        PartFault::Split => condition_of(words),
        PartFault::Sum => {
            b"spq-part: the sum of OFFSET and LIMIT is above 18446744073709551615, so no part can have enough rows\n"
        }
        PartFault::Offset => {
            b"spq-part: the text of this query with OFFSET could not be rewritten for the parts\n"
        }
        _ => b"",
    }
}

/// Writes to standard error why `plan` has no plan for a query.
fn write_refusal(rt: &HostRuntime, fault: &PartFault) {
    if let Ok(words) = words_of(rt) {
        let mut errors = Device { inner: rt.stderr() };
        let _written = write_all(&mut errors, refusal_of(fault, &words));
    }
}

fn main(rt: HostRuntime) -> ExitCode {
    match run_words(&rt) {
        Ok(()) => ExitCode::from(0),
        Err(fault) => {
            write_refusal(&rt, &fault);
            if let Ok(line) = line_of(rt.alloc(), &fault) {
                let mut writer = Device { inner: rt.stdout() };
                let _written = write_all(&mut writer, line.as_slice());
            }
            ExitCode::from(status(&fault))
        }
    }
}
