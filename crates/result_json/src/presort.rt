//! Sorts the terms of a result by keys, in parallel.
//!
//! The key of a term is two numbers, which have its kind and the first bytes of its first text. A
//! prefix that most terms of a kind share, as the beginning of their IRIs, is left out. A comparison
//! of keys reads no text. Terms with equal keys are compared as terms.
//!
//! Workers sort pieces of the list, and the sorted pieces are merged. So the result is in the order
//! of terms. No contract says so: the caller checks the order.
ghost use Rattle.std.specs.Prelude.{◌≡◌, ◌<◌, IfErr, IfOk, IsPermutation};
ghost use Rattle.row_pieces.specs.How.{HasOneWorker, IsRunnable};
ghost use Rattle.row_pieces.specs.declared.fault.EvalFault.TheVariants.{Memory};
ghost use Rattle.result_json.specs.Keyed.{entries_of, joined_entries};

use crate::pieces::{piece, worker_piece_size};
use piece_pool::{Job, JobFault, OpenGate, Outcome, run_all};
use rdf_core::Term;
use row_pieces::{EvalFault, How};
use std::alloc::{AllocError, Global};
use std::sync::Wait;
use std::thread::Threads;

/// The number of terms, at most, in which the shared prefixes are looked for.
const SAMPLE: usize = 1024;

/// The key of a term, and the term with its number. The order of tuples compares keys first.
type Keyed<'t> = ((u128, u128), (&'t Term, u64));

/// Returns the kind of a term, as a number in the order of kinds, and its first text. Comparisons
/// use them first.
fn kind_and_text(term: &Term) -> (u8, &str)
    ensures kind { result.0 < 3 }
{
    match term {
        Term::Blank(label) => (0, label.as_str()),
        Term::Iri(text) => (1, text.as_str()),
        Term::Literal { lexical, .. } => (2, lexical.as_str()),
    }
}

/// Returns the bytes that both texts begin with.
fn shared_beginning<'a>(left: &'a [u8], right: &[u8]) -> &'a [u8] {
    if right.starts_with(left) {
        return left;
    }
    let count = left.len().min(right.len());
    for i in 0..count {
        if left[i] != right[i] {
            return &left[..i];
        }
    }
    &left[..count]
}

/// Returns, for each kind of term, a prefix that the first texts of its terms share. It is that of
/// a sample, so not every term has it.
fn shared_prefixes<'t>(entries: &[(&'t Term, u64)]) -> [&'t [u8]; 3] {
    let mut shared: [Option<&[u8]>; 3] = [None; 3];
    let step = entries.len().div_ceil(SAMPLE).max(1);
    for (term, _number) in entries.iter().step_by(step) {
        let (kind, text) = kind_and_text(term);
        let text = text.as_bytes();
        let prefix = shared[kind as usize].unwrap_or(text);
        shared[kind as usize] = Some(shared_beginning(prefix, text));
    }
    shared.map(|prefix| prefix.unwrap_or(b""))
}

/// Returns the sixteen bytes of a text from `start` on, as a big-endian number. Missing bytes are
/// zeros.
fn bytes_from(text: &[u8], start: usize) -> u128 {
    let rest = &text[text.len().min(start)..];
    let count = rest.len().min(16);
    let mut bytes = [0u8; 16];
    bytes[..count].copy_from_slice(&rest[..count]);
    u128::from_be_bytes(bytes)
}

/// Returns a class and the first 31 bytes of a text as two numbers.
fn key_in(class: u8, text: &[u8]) -> (u128, u128) {
    let first = ((class as u128) << 120) | (bytes_from(text, 0) >> 8);
    (first, bytes_from(text, 15))
}

/// Returns the key of a term. Each kind has three classes: the texts before those with the prefix,
/// the texts with the prefix, and the texts after them.
fn key_of(term: &Term, prefixes: &[&[u8]; 3]) -> (u128, u128) {
    let (kind, text) = kind_and_text(term);
    let text = text.as_bytes();
    let prefix = prefixes[kind as usize];
    if text.starts_with(prefix) {
        key_in(3 * kind + 1, &text[prefix.len()..])
    } else if text < prefix {
        key_in(3 * kind, text)
    } else {
        key_in(3 * kind + 2, text)
    }
}

/// Returns the terms with their keys.
fn with_keys<'t>(
    alloc: Global,
    entries: &[(&'t Term, u64)],
    prefixes: &[&[u8]; 3],
) -> Result<Vec<Keyed<'t>>, AllocError>
    ensures entries { IfOk result (λ keyed. entries_of keyed.items ≡ entries.now) }
{
    let mut keyed = Vec::with_capacity(alloc, entries.len())?;
    for entry in entries {
        keyed.push((key_of(entry.0, prefixes), *entry))?;
    }
    Ok(keyed)
}

/// Returns the terms with their keys, sorted.
fn sorted_with_keys<'t>(
    alloc: Global,
    entries: &[(&'t Term, u64)],
    prefixes: &[&[u8]; 3],
) -> Result<Vec<Keyed<'t>>, AllocError>
    ensures permutation { IfOk result (λ keyed. IsPermutation entries.now (entries_of keyed.items)) }
{
    let mut keyed = with_keys(alloc, entries, prefixes)?;
    keyed.sort()?;
    Ok(keyed)
}

/// The terms of a result in pieces of `size` terms. The output of a piece has its terms with their
/// keys, sorted.
#[derive(Drop)]
struct KeyedPieces<'a, 't> {
    entries: &'a [(&'t Term, u64)],
    prefixes: [&'t [u8]; 3],
    size: usize,
}

impl<'a, 't> Job for KeyedPieces<'a, 't> {
    ghost use Rattle.std.specs.Prelude.{IsPermutation};
    ghost use Rattle.row_pieces.specs.Pieces.{piece_of};
    ghost use Rattle.result_json.specs.Keyed.{entries_of};

    type Out = Vec<Keyed<'t>>;

    type Fault = ();

    ghost answers = { λ job i out. IsPermutation (piece_of job.size i job.entries.now) (entries_of out.items) };

    ghost faults = { λ _ _ _. ⊥ };

    fn run(&self, alloc: Global, i: u64) -> Result<Vec<Keyed<'t>>, JobFault<()>> {
        let entries = piece(self.entries, self.size, i);
        Ok(sorted_with_keys(alloc, entries, &self.prefixes)?)
    }

    ghost exclusive = { λ job i out fault _ absurd. absurd };
}

/// Concatenates pieces, which have `count` terms.
fn joined<'t>(
    alloc: Global,
    count: usize,
    pieces: Vec<Vec<Keyed<'t>>>,
) -> Result<Vec<Keyed<'t>>, AllocError>
    ensures entries { IfOk result (λ all. entries_of all.items ≡ joined_entries pieces.entry.items) }
{
    let mut all = Vec::with_capacity(alloc, count)?;
    for mut keyed in pieces {
        all.append(&mut keyed)?;
    }
    Ok(all)
}

/// Returns the terms without their keys.
fn without_keys<'t>(alloc: Global, keyed: &[Keyed<'t>]) -> Result<Vec<(&'t Term, u64)>, AllocError>
    ensures entries { IfOk result (λ entries. entries.items ≡ entries_of keyed.now) }
{
    let mut entries = Vec::with_capacity(alloc, keyed.len())?;
    for (_key, entry) in keyed {
        entries.push_reserved(*entry);
    }
    Ok(entries)
}

/// Merges sorted pieces, which have `count` terms, and leaves out the keys.
fn merged<'t>(
    alloc: Global,
    count: usize,
    pieces: Vec<Vec<Keyed<'t>>>,
) -> Result<Vec<(&'t Term, u64)>, AllocError>
    ensures permutation { IfOk result
        (λ sorted. IsPermutation (joined_entries pieces.entry.items) sorted.items) }
{
    let mut keyed = joined(alloc, count, pieces)?;
    keyed.sort()?;
    without_keys(alloc, &keyed)
}

/// Returns the terms, each with its number, sorted by their keys. Each worker sorts a piece, unless
/// that has fewer terms than `how` has rows in a piece.
///
/// # Requires
/// `how` is within its limits.
///
/// # Errors
/// - `WorkerRefused` if a worker thread could not be started. It cannot occur with one worker.
/// - `Memory` if an allocation fails.
pub(crate) fn presorted<'t, R: Threads + Wait>(
    rt: &R,
    alloc: Global,
    entries: &[(&'t Term, u64)],
    how: &How,
) -> Result<Vec<(&'t Term, u64)>, EvalFault>
    requires how { IsRunnable how.now }
    ensures permutation { IfOk result (λ sorted. IsPermutation entries.now sorted.items) }
    ensures one_worker { HasOneWorker how.now → IfErr result (λ fault. fault ≡ Memory) }
{
    let count = entries.len();
    let size = worker_piece_size(count, how);
    let pieces = count.div_ceil(size) as u64;
    let job = KeyedPieces {
        entries,
        prefixes: shared_prefixes(entries),
        size,
    };
    match run_all(rt, alloc, how.workers, pieces, &job, &OpenGate)? {
        Outcome::All(sorted) => Ok(merged(alloc, count, sorted)?),
        Outcome::First { .. } => unreachable!(),
    }
}
