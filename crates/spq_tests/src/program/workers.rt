//! A document in pieces of a line: its solutions, and two workers that read it at the same time.

use crate::fixtures::Recorder;
use dataset_load::load;
use piece_cuts::Cuts;
use spq_core::{How, answer};
use std::alloc::AllocGlobal;

const DOCUMENT: &[u8] = b"<a:s> <a:p> <a:b> .\n<a:s> <a:p> <a:c> .\n";

/// The bytes are those of the JSON of both solutions.
#[test]
fn a_document_in_pieces_has_solutions(rt: HostRuntime) {
    let cuts = Cuts::every(rt.alloc(), DOCUMENT, 1).expect(&rt, "cuts");
    let how = How {
        workers: 2,
        rows: 1,
    };
    let query = "SELECT ?o { ?s ?p ?o }";
    let gate = Recorder::counting();
    let output = answer(&rt, rt.alloc(), DOCUMENT, query, &cuts, &how, &gate).expect(
        &rt, "a result",
    );
    let expected =
        b"{\"head\":{\"vars\":[\"o\"]},\"results\":{\"bindings\":[{\"o\":{\"type\":\"uri\",\"value\":\"a:b\"}},{\"o\":{\"type\":\"uri\",\"value\":\"a:c\"}}]}}\n".as_slice();
    assert!(rt; output.as_slice() == expected);
}

/// The two pieces wait for each other.
#[test]
fn two_pieces_of_a_document_are_read_at_once(rt: HostRuntime) {
    let cuts = Cuts::every(rt.alloc(), DOCUMENT, 1).expect(&rt, "cuts");
    let gate = Recorder::meeting();
    let store = load(&rt, rt.alloc(), DOCUMENT, &cuts, 2, &gate).expect(&rt, "a store");
    assert!(rt; store.quads() == 2 && gate.is_met());
}
