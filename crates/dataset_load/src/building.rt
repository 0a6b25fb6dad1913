//! A store, built of numbered quads and the texts of their terms.
//!
//! The workers sort the lists of the index and read the first terms at the same time. The other terms follow (`terms`).
ghost use Rattle.std.specs.Prelude.{◌≡◌, ◌+◌, ◌≤◌, IfOk, IfErr, length};
ghost use Rattle.piece_pool.specs.Limits.{most_workers};
ghost use Rattle.piece_pool.specs.Outcome.{IsPoolOutcome};
ghost use Rattle.text_pieces.specs.Forms.{AreFormsOf};
ghost use Rattle.dataset_load.specs.Building.{IsBuilt, lists_in, terms_in};
ghost use Rattle.dataset_load.specs.Fault.{IfBadLine, IsOneWorkerLoadFault};
ghost use Rattle.dataset_load.specs.Loaded.{IsKeptLoaded};
ghost use Rattle.dataset_load.specs.Rounds.{AreSortedLists, HasRead};
ghost use Rattle.dataset_load.specs.Terms.{AreTermParts};

use crate::fault::LoadFault;
use crate::load_context::LoadContext;
use crate::loading::hash_state;
use crate::numbered::Numbered;
use crate::sorting::{LISTS, index_of, order_at};
use crate::store::Store;
use crate::terms::{part_of, parts_in, read_terms};
use dict_core::Dict;
use piece_pool::{Job, JobFault, OpenGate, Outcome, run_all};
use quad_index::{QuadList, sorted_list};
use std::alloc::{AllocError, Global};
use std::hash::RandomState;
use std::random::RandomSource;
use std::sync::Wait;
use std::thread::Threads;
use text_dict::TextDict;

/// The largest number of parts of the terms that are read while the lists are sorted. Three workers take about as long for
/// the lists as a fourth one for these.
const FIRST_PARTS: u64 = 32;

/// What a worker builds of a store.
#[derive(Drop)]
pub enum Built {
    /// A list of the index.
    Sorted(QuadList),
    /// A part of the terms.
    Read(Dict),
}

/// The first round: the three lists of the index, and then the first parts of the terms.
#[derive(Drop)]
struct FirstRound<'a> {
    quads: &'a QuadList,
    texts: &'a TextDict,
    state: RandomState,
}

impl<'a> Job for FirstRound<'a> {
    ghost use Rattle.dataset_load.specs.Building.{IsBuilt};

    type Out = Built;

    type Fault = ();

    ghost answers = { λ job i built. IsBuilt job.quads.now job.texts.now.texts i built };

    ghost faults = { λ _ _ _. ⊥ };

    fn run(&self, alloc: Global, i: u64) -> Result<Built, JobFault<()>> {
        match build(alloc, self.quads, self.texts, self.state, i) {
            Ok(built) => Ok(built),
            Err(_) => Err(JobFault::Memory),
        }
    }

    ghost exclusive = { λ _ _ _ _ _ absurd. absurd };
}

/// Sorts list `i` of the index. After the lists, reads the parts of the terms, in order.
fn build(
    alloc: Global,
    quads: &QuadList,
    texts: &TextDict,
    state: RandomState,
    i: u64,
) -> Result<Built, AllocError>
    ensures built { IfOk result (IsBuilt quads.now texts.now.texts i) }
{
    if i < LISTS {
        Ok(Built::Sorted(sorted_list(alloc, quads, order_at(i))?))
    } else {
        Ok(Built::Read(part_of(alloc, state, texts, 0, i - LISTS)?))
    }
}

/// Builds the store of quads that are numbered. A repeated statement counts once. The quads are freed before most of
/// the terms are read.
///
/// # Errors
/// `WorkerRefused` and `Memory` as in a pool. With one worker the first cannot occur.
pub(crate) fn store_of<R: Threads + Wait + RandomSource>(
    rt: &R,
    alloc: Global,
    so_far: Numbered<'_>,
    workers: usize,
) -> Result<Store, LoadFault>
    requires workers { (1 ≤ workers) × (workers ≤ most_workers) }
    requires read { (lines : _) × HasRead so_far lines }
    ensures loaded { IfOk result (λ store. (lines : _) → HasRead so_far.entry lines
        → IsKeptLoaded so_far.entry.filter.now lines store) }
    ensures no_bad_line { IfErr result (IfBadLine (λ _. ⊥)) }
    ensures one_worker { workers ≡ 1 → IfErr result IsOneWorkerLoadFault }
{
    let context = LoadContext { rt, alloc, workers };
    let state = hash_state(rt)?;
    let Numbered { dict, quads, .. } = so_far;
    let built = first_round(&context, &quads, &dict, state)?;
    drop(quads);
    let (lists, read) = separated(alloc, built)?;
    let index = index_of(alloc, lists)?;
    let terms = read_terms(&context, &dict, state, read)?;
    drop(dict);
    Ok(Store::of_parts(terms, index))
}

/// Sorts the lists of an index of these quads, and reads the first parts of the terms, in parallel.
fn first_round<R: Threads + Wait>(
    context: &LoadContext<'_, R>,
    quads: &QuadList,
    texts: &TextDict,
    state: RandomState,
) -> Result<Vec<Built>, LoadFault>
    ensures lists { IfOk result (λ built. AreSortedLists quads.now (lists_in built.items)) }
    ensures terms { IfOk result (λ built. (terms : _) → AreFormsOf terms texts.now.texts
        → AreTermParts terms 0 (terms_in built.items)) }
    ensures no_bad_line { IfErr result (IfBadLine (λ _. ⊥)) }
    ensures one_worker { context.now.workers ≡ 1 → IfErr result IsOneWorkerLoadFault }
{
    let (rt, alloc, workers) = (context.rt, context.alloc, context.workers);
    let count = LISTS + parts_in(texts).min(FIRST_PARTS);
    let job = FirstRound {
        quads,
        texts,
        state,
    };
    match run_all(rt, alloc, workers, count, &job, &OpenGate)? {
        Outcome::All(built) => Ok(built),
        Outcome::First { .. } => unreachable!(),
    }
}

/// Returns the lists and the terms apart, each in order.
fn separated(alloc: Global, built: Vec<Built>) -> Result<(Vec<QuadList>, Vec<Dict>), AllocError>
    ensures lists { IfOk result (λ parts. parts.0.items ≡ lists_in built.items) }
    ensures terms { IfOk result (λ parts. parts.1.items ≡ terms_in built.items) }
{
    let mut lists = Vec::new(alloc);
    let mut terms = Vec::new(alloc);
    for one in built {
        match one {
            Built::Sorted(list) => lists.push(list)?,
            Built::Read(dict) => terms.push(dict)?,
        }
    }
    Ok((lists, terms))
}
