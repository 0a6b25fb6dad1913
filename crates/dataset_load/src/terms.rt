//! The terms of a dictionary of texts, read in parallel.
//!
//! Workers read parts of the terms, and one thread joins them. Only some parts are in memory at a time.
ghost use Rattle.std.specs.Prelude.{◌≡◌, ◌+◌, ◌*◌, ◌≤◌, ◌/◌, length, take, IfOk, IfErr, OnOk};
ghost use Rattle.piece_pool.specs.Outcome.{IsPoolOutcome};
ghost use Rattle.piece_pool.specs.declared.pool.PoolFault.TheVariants.{Memory};
ghost use Rattle.dict_core.specs.Appearances.{first_appearances};
ghost use Rattle.text_pieces.specs.Forms.{AreFormsOf};
ghost use Rattle.dataset_load.specs.Fault.{IfBadLine, IsOneWorkerLoadFault};
ghost use Rattle.dataset_load.specs.Terms.{AreJoined, AreTermParts, IsTermPart, terms_of_a_part};

use crate::fault::LoadFault;
use crate::load_context::LoadContext;
use dict_core::Dict;
use piece_pool::{Job, JobFault, OpenGate, Outcome, PoolFault, run_all_with};
use std::alloc::{AllocError, Global};
use std::hash::RandomState;
use std::mem;
use std::sync::Wait;
use std::thread::Threads;
use text_dict::TextDict;
use text_pieces::terms_between;

/// The number of terms of a part.
const PART: u64 = 1 << 12;

/// The largest number of parts that are read while those before them are joined.
const PARTS_AT_ONCE: u64 = 16;

/// The parts of a dictionary from the part `first` on, each to be read.
#[derive(Drop)]
struct TermParts<'d> {
    texts: &'d TextDict,
    state: RandomState,
    first: u64,
}

impl<'d> Job for TermParts<'d> {
    ghost use Rattle.std.specs.Prelude.{◌+◌};
    ghost use Rattle.dataset_load.specs.Terms.{IsTermPart};

    type Out = Dict;

    type Fault = ();

    ghost answers = { λ job i dict. IsTermPart job.texts.now.texts (job.first + i) dict };

    ghost faults = { λ _ _ _. ⊥ };

    fn run(&self, alloc: Global, i: u64) -> Result<Dict, JobFault<()>> {
        match part_of(alloc, self.state, self.texts, self.first, i) {
            Ok(dict) => Ok(dict),
            Err(_) => Err(JobFault::Memory),
        }
    }

    ghost exclusive = { λ _ _ _ _ _ absurd. absurd };
}

/// Returns the number of parts of the terms.
pub(crate) fn parts_in(texts: &TextDict) -> u64
    ensures count { result ≡ length texts.now.texts / terms_of_a_part + 1 }
{
    texts.len() as u64 / PART + 1
}

/// Reads part `first + i` of the terms.
pub(crate) fn part_of(
    alloc: Global,
    state: RandomState,
    texts: &TextDict,
    first: u64,
    i: u64,
) -> Result<Dict, AllocError>
    ensures part { IfOk result (IsTermPart texts.now.texts (first + i)) }
{
    let len = texts.len() as u64;
    let from = first.saturating_add(i).saturating_mul(PART).min(len);
    let to = from.saturating_add(PART).min(len);
    terms_between(alloc, state, texts, from, to)
}

/// Reads the terms of a dictionary of texts after those that are read, in parallel. The caller's thread joins parts while the
/// workers read the next ones.
///
/// # Errors
/// `WorkerRefused` and `Memory` as in a pool. With one worker the first cannot occur.
pub(crate) fn read_terms<R: Threads + Wait>(
    context: &LoadContext<'_, R>,
    texts: &TextDict,
    state: RandomState,
    read: Vec<Dict>,
) -> Result<Dict, LoadFault>
    requires read { (terms : _) → AreFormsOf terms texts.now.texts → AreTermParts terms 0 read.items }
    ensures terms { IfOk result (λ dict. (terms : _) → AreFormsOf terms texts.now.texts
        → dict ≡ first_appearances terms) }
    ensures no_bad_line { IfErr result (IfBadLine (λ _. ⊥)) }
    ensures one_worker { context.now.workers ≡ 1 → IfErr result IsOneWorkerLoadFault }
{
    let alloc = context.alloc;
    let mut dict = Dict::new(alloc, state)?;
    let mut first = read.len() as u64;
    let mut read = read;
    let count = parts_in(texts);
    while first < count {
        let more = (count - first).min(PARTS_AT_ONCE);
        let job = TermParts {
            texts,
            state,
            first,
        };
        let (parts, added) = read_parts(
            context,
            &job,
            more,
            &mut || { add_parts(alloc, &mut dict, &mut read) },
        );
        read = parts?;
        added?;
        first += more;
    }
    add_parts(alloc, &mut dict, &mut read)?;
    Ok(dict)
}

/// Reads this many parts of a dictionary of texts, in parallel. The caller's thread runs the task, as in
/// [`run_all_with`].
fn read_parts<R: Threads + Wait, F: FnMut() -> T, T>(
    context: &LoadContext<'_, R>,
    job: &TermParts<'_>,
    count: u64,
    task: &mut F,
) -> (Result<Vec<Dict>, LoadFault>, T)
    requires few { count ≤ 16 }
    requires task { F.pre task.old }
    ensures parts { IfOk result.0 (λ parts. (terms : _) → AreFormsOf terms job.now.texts.now.texts
        → AreTermParts terms job.now.first parts.items) }
    ensures count { IfOk result.0 (λ parts. length parts.items ≡ count) }
    ensures no_bad_line { IfErr result.0 (IfBadLine (λ _. ⊥)) }
    ensures one_worker { context.now.workers ≡ 1 → IfErr result.0 IsOneWorkerLoadFault }
    ensures task { F.step task.old result.1 task.new }
{
    let (rt, alloc, workers) = (context.rt, context.alloc, context.workers);
    let (outcome, given) = run_all_with(rt, alloc, workers, count, job, &OpenGate, task);
    (parts_of(job, count, outcome), given)
}

/// Returns the parts that a pool read.
fn parts_of(
    job: &TermParts<'_>,
    count: u64,
    outcome: Result<Outcome<Dict, ()>, PoolFault>,
) -> Result<Vec<Dict>, LoadFault>
    requires outcome { IfOk outcome (IsPoolOutcome
        (λ i dict. IsTermPart job.now.texts.now.texts (job.now.first + i) dict) (λ _ _. ⊥) count) }
    ensures parts { IfOk result (λ parts. (terms : _) → AreFormsOf terms job.now.texts.now.texts
        → AreTermParts terms job.now.first parts.items) }
    ensures count { IfOk result (λ parts. length parts.items ≡ count) }
    ensures no_bad_line { IfErr result (IfBadLine (λ _. ⊥)) }
    ensures one_worker { IfErr outcome (λ fault. fault ≡ Memory)
        → IfErr result IsOneWorkerLoadFault }
{
    match outcome {
        Ok(Outcome::All(parts)) => Ok(parts),
        Ok(Outcome::First { .. }) => unreachable!(),
        Err(fault) => Err(LoadFault::from(fault)),
    }
}

/// Adds parts to those before, in order. Each part is freed when it is added.
fn add_parts(alloc: Global, dict: &mut Dict, parts: &mut Vec<Dict>) -> Result<(), AllocError>
    ensures added { OnOk result ((terms : _) (end : _)
        → AreJoined terms dict.old parts.old.items end
        → dict.new ≡ first_appearances (take (end * terms_of_a_part) terms)) }
{
    for part in mem::replace(parts, Vec::new(alloc)) {
        dict.absorb(part)?;
    }
    Ok(())
}
