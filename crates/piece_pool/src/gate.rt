//! Callbacks before and after each piece.
ghost use Rattle.std.specs.Prelude.{◌≡◌, ◌+◌, ◌<◌, ◌^◌};

/// Callbacks of a worker: it calls `enter` before it runs piece `i`, and `leave` after. No contract
/// mentions a gate, so no gate changes a result.
pub trait Gate {
    /// Runs before a worker runs piece `i`, on the thread of the worker.
    fn enter(&self, i: u64);

    /// Runs on the same thread after the worker ran piece `i`, whether the piece is faulty or not.
    fn leave(&self, i: u64);
}

/// The gate that does nothing.
#[derive(Clone, Copy)]
pub struct OpenGate;

impl Gate for OpenGate {
    fn enter(&self, _i: u64) {}

    fn leave(&self, _i: u64) {}
}

/// A gate for a job that runs some of the pieces of a document. It calls another gate with the
/// number of each piece in the document.
///
/// A job numbers its pieces from 0. Piece `i` of the job is piece `first + i` of the document.
#[derive(Drop)]
pub struct OffsetGate<'g, G> {
    /// The gate that is called.
    pub gate: &'g G,
    /// The number in the document of piece 0 of the job.
    pub first: u64,
}

impl<'g, G> OffsetGate<'g, G> {
    /// Returns the number in the document of piece `i` of the job.
    ///
    /// If that number is greater than `u64::MAX`, the result is `u64::MAX`.
    pub fn number(&self, i: u64) -> u64
        ensures number { self.now.first + i < 2 ^ 64 → result ≡ self.now.first + i }
    {
        self.first.saturating_add(i)
    }
}

impl<'g, G: Gate> Gate for OffsetGate<'g, G> {
    fn enter(&self, i: u64) {
        self.gate.enter(self.number(i));
    }

    fn leave(&self, i: u64) {
        self.gate.leave(self.number(i));
    }
}
