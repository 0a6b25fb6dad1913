//! Work that is split into numbered pieces.
ghost use Rattle.std.specs.Prelude.{ℕ, IfOk, IfErr};
ghost use Rattle.piece_pool.specs.Job.{IfOwn};

use std::alloc::{AllocError, Global};

/// Why a job has no output for a piece.
#[derive(Drop)]
pub enum JobFault<F> {
    /// The piece is faulty. The value is the job's own description of the fault.
    Own(F),
    /// Out of memory. The piece may be faulty or not.
    Memory,
}

impl<F> From<AllocError> for JobFault<F> {
    ghost use Rattle.std.specs.Prelude.{◌≡◌};
    ghost use Rattle.piece_pool.specs.declared.job.JobFault.TheVariants.{Memory};

    ghost from_gives = { λ _ fault. fault ≡ Memory };

    fn from(_failed: AllocError) -> JobFault<F> {
        JobFault::Memory
    }
}

/// Work in numbered pieces. Two definitions say what the output and the fault of piece `i` are, and
/// `run` is proved to return them.
pub trait Job {
    /// The output of a piece that is not faulty.
    type Out;

    /// The fault of a faulty piece.
    type Fault;

    /// `out` is the output of piece `i`.
    ghost answers: { Self → ℕ → Self.Out → Type 0 };

    /// `fault` is the fault of piece `i`.
    ghost faults: { Self → ℕ → Self.Fault → Type 0 };

    /// Runs piece `i` and returns its output.
    ///
    /// # Errors
    /// - `Own` with the fault, if the piece is faulty.
    /// - `Memory` if an allocation fails.
    fn run(&self, alloc: Global, i: u64) -> Result<Self::Out, JobFault<Self::Fault>>
        ensures answers { IfOk result (λ out. answers self.now i out) }
        ensures faults { IfErr result (IfOwn (λ fault. faults self.now i fault)) };

    /// Proves that no piece has both an output and a fault.
    ghost exclusive: { (job : Self) (i : ℕ) (out : Self.Out) (fault : Self.Fault)
        → answers job i out → faults job i fault → ⊥ };
}
