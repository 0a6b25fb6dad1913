//! Command lines over devices in memory that count no failures.

use nquads_core::Device;
use spq_core::{NoProgress, read_command, run, run_words};
use std::alloc::{AllocError, Global};

/// A statement that occurs twice.
const REPEATED: &[u8] = b"<a:s> <a:p> \"x\" .\n<a:s> <a:p> \"x\" .\n";

/// Its terms, one in each line.
const TERMS: &[u8] = b"<a:s>\n<a:p>\n\"x\"\n";

/// Returns the arguments `spq terms`.
fn terms_words(alloc: Global) -> Result<Vec<String>, AllocError> {
    let mut words = Vec::new(alloc);
    words.push(String::from_str(alloc, "spq")?)?;
    words.push(String::from_str(alloc, "terms")?)?;
    Ok(words)
}

/// Devices of the standard library do not count failures, so no clause can say that none failed.
#[test]
fn devices_that_count_no_failures_do_not_fail(rt: HostRuntime) {
    let words = terms_words(rt.alloc()).expect(&rt, "the words");
    let command = read_command(rt.alloc(), &words).expect(&rt, "the command");
    let mut reader = Device { inner: REPEATED };
    let mut writer = Device {
        inner: Vec::new(rt.alloc()),
    };
    let done = run(&rt, rt.alloc(), &command, &mut reader, &mut writer);
    assert!(rt; done == Ok(()) && writer.inner.as_slice() == TERMS);
}

/// The same with the words of the command.
#[test]
fn words_are_run(rt: HostRuntime) {
    let words = terms_words(rt.alloc()).expect(&rt, "the words");
    let reader = Device { inner: REPEATED };
    let writer = Device {
        inner: Vec::new(rt.alloc()),
    };
    let ran = run_words(&rt, rt.alloc(), &words, reader, writer, &NoProgress);
    assert!(rt; ran.done == Ok(()) && ran.writer.inner.as_slice() == TERMS);
}
