//! The counts of a dataset of which no index is built.
ghost use Rattle.std.specs.Prelude.{◌≡◌, ◌≤◌, IfErr, IfOk};
ghost use Rattle.piece_pool.specs.Limits.{most_workers};
ghost use Rattle.quad_filter.specs.declared.filter.QuadFilter.TheVariants.{All};
ghost use Rattle.dataset_load.specs.Rounds.{HasRead};
ghost use Rattle.dataset_load.specs.Counting.{IsCounted};
ghost use Rattle.dataset_load.specs.Fault.{IfBadLine, IsOneWorkerLoadFault};

use crate::fault::LoadFault;
use crate::numbered::Numbered;
use crate::part_counts::counts_of;
use std::alloc::Global;
use std::sync::Wait;
use std::thread::Threads;
use text_dict::TextDict;

/// The terms of a dataset, and the counts of its quads and graph names.
#[derive(Drop)]
pub struct Counted {
    /// The terms by number, as texts.
    pub dict: TextDict,
    /// The number of distinct quads.
    pub quads: u64,
    /// The number of distinct graph names.
    pub graphs: u64,
}

/// Counts the quads and graph names of quads that are numbered. They are all quads of the lines if the filter keeps all.
///
/// # Errors
/// As `counts_of`.
pub(crate) fn counted_of<R: Threads + Wait>(
    rt: &R,
    alloc: Global,
    so_far: Numbered<'_>,
    workers: usize,
) -> Result<Counted, LoadFault>
    requires workers { (1 ≤ workers) × (workers ≤ most_workers) }
    ensures counted { IfOk result (λ counted. so_far.entry.filter.now ≡ All
        → (lines : _) → HasRead so_far.entry lines → IsCounted lines counted) }
    ensures no_bad_line { IfErr result (IfBadLine (λ _. ⊥)) }
    ensures one_worker { workers ≡ 1 → IfErr result IsOneWorkerLoadFault }
{
    let Numbered { dict, quads, .. } = so_far;
    let counts = counts_of(rt, alloc, quads, workers)?;
    Ok(Counted {
        dict,
        quads: counts.quads,
        graphs: counts.graphs,
    })
}
