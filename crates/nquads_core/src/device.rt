//! Sources and sinks of bytes, and devices over the readers and writers of std.
ghost use Rattle.std.specs.Prelude.{ℕ, ◌≤◌, List, Option, Result, IfOk, length};
ghost use Rattle.nquads_core.specs.declared.device.DeviceFailed.{DeviceFailed};
ghost use Rattle.std.specs.Io.KnownBytes.{ReadConsumes, WriteAppends};
ghost use Rattle.nquads_core.specs.Device.{Counts};

use std::io::{Read, Write};

/// A call of a device failed.
#[derive(Clone, Copy, Debug)]
pub struct DeviceFailed;

/// A source of bytes.
///
/// A source may expose two things to contracts: the bytes that are left in it, and the number of its
/// calls that failed. What it does not expose is `None`, and contracts say nothing about it.
pub trait Source {
    /// The bytes that are left, if they are exposed.
    ghost left: { Self → Option (List ℕ) };

    /// The number of calls that failed, if it is exposed.
    ghost failures: { Self → Option ℕ };

    /// Puts the next bytes at the front of the buffer, and returns their number. It is at most the
    /// length of the buffer. For a buffer that is not empty, it is 0 only at the end.
    ///
    /// # Errors
    /// `DeviceFailed`: the source failed. No byte was taken, and the count of failures rose by one
    /// (a count of 2^64 - 1 stays).
    fn read(&mut self, buf: &mut [u8]) -> Result<usize, DeviceFailed>
        ensures bound { IfOk result (λ n. n ≤ length buf.new) }
        ensures bytes { ReadConsumes (left self.old) (left self.new) result buf.new }
        ensures count { Counts (failures self.old) (failures self.new) result };
}

/// A sink for bytes.
///
/// A sink may expose three things to contracts: the bytes that it holds, the number of its calls
/// that failed, and what a call may return and leave.
pub trait Sink {
    /// The bytes that were written, if they are exposed.
    ghost held: { Self → Option (List ℕ) };

    /// The number of calls that failed, if it is exposed.
    ghost failures: { Self → Option ℕ };

    /// What a write of these bytes may return, and the sink after it. Not exposed: anything.
    ghost write_gives: { Self → List ℕ → Result ℕ DeviceFailed → Self → Type 0 } = { λ _ _ _ _. Unit {0} };

    /// Takes bytes from the front of the text, and returns how many. It may take none.
    ///
    /// # Errors
    /// `DeviceFailed`: the sink failed. No byte was taken, and the count of failures rose by one
    /// (a count of 2^64 - 1 stays).
    fn write(&mut self, bytes: &[u8]) -> Result<usize, DeviceFailed>
        ensures bound { IfOk result (λ n. n ≤ length bytes.now) }
        ensures bytes { WriteAppends (held self.old) (held self.new) result bytes.now }
        ensures count { Counts (failures self.old) (failures self.new) result }
        ensures gives { write_gives self.old bytes.now result self.new };
}

/// A reader or a writer of std as a device. It exposes the bytes that the reader or the writer
/// exposes, and no count of failures. Any error of theirs is `DeviceFailed`.
#[derive(Drop)]
pub struct Device<T> {
    /// The reader or the writer.
    pub inner: T,
}

impl<T: Read> Source for Device<T> {
    ghost use Rattle.std.specs.Prelude.{None};

    ghost left = { λ d. T.remaining d.inner };

    ghost failures = { λ _. None };

    fn read(&mut self, buf: &mut [u8]) -> Result<usize, DeviceFailed> {
        match self.inner.read(buf) {
            Ok(n) => Ok(n),
            Err(_) => Err(DeviceFailed),
        }
    }
}

impl<T: Write> Sink for Device<T> {
    ghost use Rattle.std.specs.Prelude.{None};

    ghost held = { λ d. T.contents d.inner };

    ghost failures = { λ _. None };

    fn write(&mut self, bytes: &[u8]) -> Result<usize, DeviceFailed> {
        match self.inner.write(bytes) {
            Ok(n) => Ok(n),
            Err(_) => Err(DeviceFailed),
        }
    }
}
