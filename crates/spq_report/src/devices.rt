//! The devices of a run, which keep the system's errors.
ghost use Rattle.std.specs.Prelude.{◌≡◌, None, Some, false, unwrap_or};

use nquads_core::{DeviceFailed, Sink, Source};
use std::io::{Error, Read, Write};

/// Callbacks of an [`Input`] and an [`Output`].
pub trait Meter {
    /// Runs before a read.
    fn begins(&self);

    /// Runs after a read that returned these bytes. At the end there are none.
    fn gave(&self, bytes: &[u8]);

    /// Runs before a write.
    fn writes(&self);
}

/// A meter that does nothing.
#[derive(Clone, Copy)]
pub struct NoMeter;

impl Meter for NoMeter {
    fn begins(&self) {}

    fn gave(&self, _bytes: &[u8]) {}

    fn writes(&self) {}
}

/// Returns the first error: the one that is known, or else this one.
fn first(known: Option<Error>, error: Error) -> Option<Error>
    ensures first { result ≡ Some (unwrap_or known error) }
{
    Some(known.unwrap_or(error))
}

/// A reader of std as a source. It keeps the first error of the reader, and calls a meter. After the end was read it
/// reads no more, because at a terminal each further read would wait for another end.
#[derive(Drop)]
pub struct Input<'m, T, M> {
    /// The reader.
    pub inner: T,
    /// What is called as bytes are read.
    pub meter: &'m M,
    /// The first error of a read.
    pub error: Option<Error>,
    /// Whether the end was read.
    pub is_over: bool,
}

impl<'m, T, M> Input<'m, T, M> {
    /// Creates a source that has had no error.
    pub fn new(inner: T, meter: &'m M) -> Input<'m, T, M>
        ensures inner { result.inner ≡ inner }
        ensures meter { result.meter.now ≡ meter.now }
        ensures error { result.error ≡ None }
        ensures open { result.is_over ≡ false }
    {
        Input {
            inner,
            meter,
            error: None,
            is_over: false,
        }
    }
}

impl<'m, T: Read, M: Meter> Source for Input<'m, T, M> {
    ghost use Rattle.std.specs.Prelude.{None};
    ghost use Rattle.spq_report.specs.Devices.{left_of};

    ghost left = { λ d. left_of d.is_over (T.remaining d.inner) };

    ghost failures = { λ _. None };

    fn read(&mut self, buf: &mut [u8]) -> Result<usize, DeviceFailed> {
        if self.is_over {
            return Ok(0);
        }
        self.meter.begins();
        match self.inner.read(buf) {
            Ok(count) => {
                self.meter.gave(&buf[..count]);
                self.is_over = count == 0 && !buf.is_empty();
                Ok(count)
            }
            Err(error) => {
                self.error = first(self.error, error);
                Err(DeviceFailed)
            }
        }
    }
}

/// A writer of std as a sink. It keeps the first error of the writer, and calls a meter.
#[derive(Drop)]
pub struct Output<'m, T, M> {
    /// The writer.
    pub inner: T,
    /// What is called as bytes are written.
    pub meter: &'m M,
    /// The first error of a write.
    pub error: Option<Error>,
}

impl<'m, T, M> Output<'m, T, M> {
    /// Creates a sink that has had no error.
    pub fn new(inner: T, meter: &'m M) -> Output<'m, T, M>
        ensures inner { result.inner ≡ inner }
        ensures meter { result.meter.now ≡ meter.now }
        ensures error { result.error ≡ None }
    {
        Output {
            inner,
            meter,
            error: None,
        }
    }
}

impl<'m, T: Write, M: Meter> Sink for Output<'m, T, M> {
    ghost use Rattle.std.specs.Prelude.{None};
    ghost use Rattle.spq_report.specs.Devices.{KeepsFirst};

    ghost held = { λ d. T.contents d.inner };

    ghost failures = { λ _. None };

    ghost write_gives = { λ d _ result e. KeepsFirst d.error result e.error };

    fn write(&mut self, bytes: &[u8]) -> Result<usize, DeviceFailed> {
        self.meter.writes();
        match self.inner.write(bytes) {
            Ok(count) => Ok(count),
            Err(error) => {
                self.error = first(self.error, error);
                Err(DeviceFailed)
            }
        }
    }
}
