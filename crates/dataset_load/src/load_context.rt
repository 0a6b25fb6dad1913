//! What the rounds of a reader are loaded with.
ghost use Rattle.std.specs.Prelude.{◌≤◌};
ghost use Rattle.piece_pool.specs.Limits.{most_workers};

use std::alloc::Global;

/// What the rounds of a reader are loaded with.
#[derive(Drop)]
pub(crate) struct LoadContext<'a, R> {
    /// Starts the worker threads.
    pub(crate) rt: &'a R,
    /// The allocator of blocks, terms and lists.
    pub(crate) alloc: Global,
    /// The number of workers.
    pub(crate) workers: usize,
    /// There are 1 to 64 workers.
    pub(crate) ghost few: { (1 ≤ workers) × (workers ≤ most_workers) },
}
