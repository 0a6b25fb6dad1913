//! What is left of a load after a failed allocation or a worker thread that could not be started, for each of them.
ghost use Rattle.std.specs.Prelude.{◌≤◌};

use crate::fixtures::Recorder;
use dataset_load::{
    LoadNotes, NoListener, ReaderFault, Store, count_reader, load, load_blocks, load_reader,
    read_blocks,
};
use nquads_core::Device;
use piece_cuts::Cuts;
use quad_filter::QuadFilter;
use std::alloc::{AllocGlobal, Global};
use std::process::Abort;
use std::random::RandomSource;
use std::sync::Wait;
use std::thread::Threads;

/// The counts of quads, terms and graph names, or the fault.
type Counts = Result<(u64, u64, u64), ReaderFault>;

/// Returns the counts of a store, which are those of its dictionary and its index.
fn counts(store: &Store) -> (u64, u64, u64) {
    let (terms, quads) = (store.dict().len() as u64, store.index().quads());
    if terms == store.terms() && quads == store.quads() {
        (quads, terms, store.graphs())
    } else {
        (0, 0, 0)
    }
}

/// Loads the document in pieces of a line.
fn in_pieces<R: Threads + Wait + RandomSource>(
    rt: &R,
    alloc: Global,
    doc: &[u8],
    workers: usize,
    gate: &Recorder,
) -> Counts
    requires workers { (1 ≤ workers) × (workers ≤ 64) }
{
    let cuts = Cuts::every(alloc, doc, 1)?;
    match load(rt, alloc, doc, &cuts, workers, gate) {
        Ok(store) => Ok(counts(&store)),
        Err(fault) => Err(ReaderFault::from(fault)),
    }
}

/// Loads the document in blocks of a line.
fn in_blocks<R: Threads + Wait + RandomSource>(
    rt: &R,
    alloc: Global,
    doc: &[u8],
    workers: usize,
    gate: &Recorder,
) -> Counts
    requires workers { (1 ≤ workers) × (workers ≤ 64) }
{
    let blocks = read_blocks(alloc, 1, &mut Device { inner: doc })?;
    match load_blocks(rt, alloc, blocks.as_slice(), workers, gate) {
        Ok(store) => Ok(counts(&store)),
        Err(fault) => Err(ReaderFault::from(fault)),
    }
}

/// Prints whether a list of malformed lines is not complete, for the script to see.
fn tell_of_list<R: Print>(rt: &R, notes: &LoadNotes) {
    if let Some(listing) = &notes.malformed {
        if !listing.is_complete {
            let _ = println!(rt; "the list failed");
        }
    }
}

/// Loads the document from a reader.
fn from_reader<R: Threads + Wait + RandomSource + Print>(
    rt: &R,
    alloc: Global,
    doc: &[u8],
    workers: usize,
    gate: &Recorder,
) -> Counts
    requires workers { (1 ≤ workers) × (workers ≤ 64) }
{
    let mut reader = Device { inner: doc };
    let mut notes = LoadNotes::new();
    match load_reader(
        rt,
        alloc,
        1,
        &mut reader,
        &QuadFilter::All,
        workers,
        gate,
        &mut notes,
        &NoListener,
    ) {
        Ok(store) => Ok(counts(&store)),
        Err(fault) => {
            tell_of_list(rt, &notes);
            Err(fault)
        }
    }
}

/// Counts what is in the document, from a reader.
fn counted<R: Threads + Wait + RandomSource + Print>(
    rt: &R,
    alloc: Global,
    doc: &[u8],
    workers: usize,
    gate: &Recorder,
) -> Counts
    requires workers { (1 ≤ workers) × (workers ≤ 64) }
{
    let mut reader = Device { inner: doc };
    let mut notes = LoadNotes::new();
    match count_reader(
        rt,
        alloc,
        1,
        &mut reader,
        workers,
        gate,
        &mut notes,
        &NoListener,
    ) {
        Ok(counted) => Ok((counted.quads, counted.dict.len() as u64, counted.graphs)),
        Err(fault) => {
            tell_of_list(rt, &notes);
            Err(fault)
        }
    }
}

/// Reads the document in one of four manners, and returns its counts.
fn read<R: Threads + Wait + RandomSource + Print>(
    rt: &R,
    alloc: Global,
    manner: u64,
    doc: &[u8],
    workers: usize,
    gate: &Recorder,
) -> Counts
    requires workers { (1 ≤ workers) × (workers ≤ 64) }
{
    match manner {
        0 => in_pieces(rt, alloc, doc, workers, gate),
        1 => in_blocks(rt, alloc, doc, workers, gate),
        2 => from_reader(rt, alloc, doc, workers, gate),
        _ => counted(rt, alloc, doc, workers, gate),
    }
}

/// Returns whether an allocation or a start failed, and prints that for the script.
fn has_failed<R: Print>(rt: &R, found: &Counts) -> bool {
    let what = match found {
        Err(ReaderFault::Memory) => "memory failed",
        Err(ReaderFault::WorkerRefused) => "a worker failed",
        _ => return false,
    };
    let _ = println!(rt; "{what}");
    true
}

/// Checks that the document has these counts in every manner, with one worker and with two. If an allocation or a start
/// fails, the second try must succeed. Each piece that entered the gate in a try must have left it.
fn check<R: Threads + Wait + RandomSource + Print + Abort>(
    rt: &R,
    alloc: Global,
    doc: &[u8],
    expected: Counts,
) {
    for workers in 1..3 {
        for manner in 0..4 {
            let gate = Recorder::counting();
            let mut found = read(rt, alloc, manner, doc, workers, &gate);
            if has_failed(rt, &found) {
                found = read(rt, alloc, manner, doc, workers, &gate);
            }
            let (entered, left, _) = gate.counts();
            assert!(rt;
                found == expected && entered == left,
                "the counts of the document"
            );
        }
    }
}

/// A valid document is never rejected, and its counts are always the same.
#[test]
fn a_good_document_is_loaded_or_memory_runs_out(rt: HostRuntime) {
    let doc =
        b"<http://e/a><http://e/p>_:b.\n_:b <http://e/q> \"\\u00e9\\n\"@EN <http://e/g> .\n<http://e/a> <http://e/p> _:b .\n<http://e/a> <http://e/n> \"2\"^^<http://www.w3.org/2001/XMLSchema#integer> _:g .\n";
    check(&rt, rt.alloc(), doc, Ok((3, 9, 2)));
}

/// A document with a malformed line is never accepted, and the first malformed line is always the same.
#[test]
fn a_bad_document_is_rejected_or_memory_runs_out(rt: HostRuntime) {
    let doc = b"<http://e/a> <http://e/p> <http://e/b> .\r\n# c\n<http://e/a> <http://e/p> .\nx\n";
    check(&rt, rt.alloc(), doc, Err(ReaderFault::BadLine(3)));
}
