//! What the operators of one evaluation are run with.
ghost use Rattle.row_pieces.specs.How.{IsRunnable};

use crate::how::How;
use std::alloc::Global;

/// What the operators of one evaluation are run with: the runtime that starts threads, the
/// allocator, the pieces and the workers, and the gate of the pool.
#[derive(Drop)]
pub struct Context<'a, R, G> {
    /// Starts the worker threads.
    pub rt: &'a R,
    /// The allocator of rows and tables.
    pub alloc: Global,
    /// The number of workers, and how many rows a piece has at most.
    pub how: &'a How,
    /// The gate that each worker passes before a piece.
    pub gate: &'a G,
    /// `how` keeps its limits.
    pub ghost runnable: { IsRunnable how.now },
}
