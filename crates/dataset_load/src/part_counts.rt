//! The counts of quads that are numbered, in parallel.
ghost use Rattle.std.specs.Prelude.{◌≡◌, ◌≤◌, IfErr, IfOk};
ghost use Rattle.piece_pool.specs.Limits.{most_workers};
ghost use Rattle.quad_index.specs.Counting.{IsCountOf};
ghost use Rattle.dataset_load.specs.Fault.{IfBadLine, IsOneWorkerLoadFault};
ghost use Rattle.dataset_load.specs.PartCounts.{AreCounts, count_at};

use crate::fault::LoadFault;
use piece_pool::{Job, JobFault, OpenGate, Outcome, run_all};
use quad_index::{
    IndexCounts, PARTS, QuadList, count_names, count_part, count_quads, parts_count_the_quads,
};
use std::alloc::{AllocError, Global};
use std::sync::Wait;
use std::thread::Threads;

/// The count of the graph names, followed by those of the parts of the quads.
#[derive(Drop)]
struct PartCounts<'q> {
    quads: &'q QuadList,
}

impl<'q> Job for PartCounts<'q> {
    ghost use Rattle.std.specs.Prelude.{◌≡◌};
    ghost use Rattle.dataset_load.specs.PartCounts.{count_at};

    type Out = u64;

    type Fault = ();

    ghost answers = { λ job i out. out ≡ count_at job.quads.now i };

    ghost faults = { λ _ _ _. ⊥ };

    fn run(&self, alloc: Global, i: u64) -> Result<u64, JobFault<()>> {
        Ok(count_at(alloc, self.quads, i)?)
    }

    ghost exclusive = { λ _ _ _ _ _ absurd. absurd };
}

impl<'q> PartCounts<'q> {
    /// Adds up the counts of all pieces of this job.
    fn total(&self, counts: &[u64]) -> IndexCounts
        requires counts { AreCounts self.now.quads.now counts.now }
        ensures counts { IsCountOf self.now.quads.now result }
    {
        parts_count_the_quads();
        let _few = self.quads.len();
        let mut quads = 0;
        for part in 0..PARTS as usize {
            quads += counts[part + 1];
        }
        IndexCounts {
            quads,
            graphs: counts[0],
        }
    }
}

/// Counts the graph names of the quads, or the quads of a part.
fn count_at(alloc: Global, quads: &QuadList, i: u64) -> Result<u64, AllocError>
    ensures count { IfOk result (λ n. n ≡ count_at quads.now i) }
{
    if i == 0 {
        count_names(alloc, quads)
    } else {
        count_part(alloc, quads, i - 1)
    }
}

/// Counts the quads and the graph names of the index of these quads, which is not built. With one worker the list itself is
/// sorted.
///
/// # Errors
/// `WorkerRefused` and `Memory` as in a pool. With one worker the first cannot occur.
pub(crate) fn counts_of<R: Threads + Wait>(
    rt: &R,
    alloc: Global,
    quads: QuadList,
    workers: usize,
) -> Result<IndexCounts, LoadFault>
    requires workers { (1 ≤ workers) × (workers ≤ most_workers) }
    ensures counts { IfOk result (IsCountOf quads) }
    ensures no_bad_line { IfErr result (IfBadLine (λ _. ⊥)) }
    ensures one_worker { workers ≡ 1 → IfErr result IsOneWorkerLoadFault }
{
    if workers == 1 {
        return Ok(count_quads(alloc, quads)?);
    }
    let job = PartCounts { quads: &quads };
    match run_all(rt, alloc, workers, PARTS + 1, &job, &OpenGate)? {
        Outcome::All(counts) => Ok(job.total(counts.as_slice())),
        Outcome::First { .. } => unreachable!(),
    }
}
