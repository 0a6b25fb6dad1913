//! Queries and their solutions over a document.
ghost use Rattle.std.specs.Prelude.{length};
ghost use Rattle.dict_core.specs.NumQuad.{AreBelow};

use crate::fixtures::Recorder;
use crate::query::rows::{HOW, hash_state};
use dataset_load::{LoadNotes, NoListener, load, load_reader};
use dict_core::Dict;
use needed_quads::filter_of;
use nquads_core::Device;
use piece_cuts::Cuts;
use quad_index::Index;
use sparql_algebra::{GraphName, Operator, PatternTerm, Plan, TriplePattern, translate};
use sparql_eval::{Rows, evaluate, graph, pattern};
use sparql_read::read_query;
use std::alloc::{AllocGlobal, Global};
use std::process::Abort;
use std::random::RandomSource;
use std::sync::Wait;
use std::thread::Threads;

/// A document with two statements in the default graph and one in a named graph.
const DOCUMENT: &[u8] = b"<a:x> <a:p> <a:y> .\n<a:y> <a:q> <a:z> .\n<a:x> <a:p> <a:z> <a:g> .\n";

/// Loads the document.
fn stored<R: RandomSource + Threads + Wait + Abort>(rt: &R, alloc: Global) -> (Dict, Index)
    ensures below { AreBelow (length result.0) result.1 }
{
    let cuts = Cuts::every(alloc, DOCUMENT, 1).expect(rt, "cuts");
    let gate = Recorder::counting();
    let store = load(rt, alloc, DOCUMENT, &cuts, 1, &gate).expect(rt, "a store");
    store.into_parts()
}

/// Returns the plan of a query.
fn plan_of<R: Abort>(rt: &R, alloc: Global, text: &str) -> Plan {
    let query = read_query(alloc, text).expect(rt, "a query");
    translate(alloc, &query).expect(rt, "a plan")
}

/// OPTIONAL keeps the solution that it cannot extend.
#[test]
fn a_query_has_its_plan_and_solutions(rt: HostRuntime) {
    let alloc = rt.alloc();
    let plan = plan_of(
        &rt,
        alloc,
        "SELECT ?z ?s { ?s ?p ?o OPTIONAL { ?o ?q ?z } }",
    );
    let (dict, index) = stored(&rt, alloc);
    let gate = Recorder::counting();
    let found = evaluate(&rt, alloc, dict, &index, &plan, &HOW, &gate);
    let (rows, _dict): (Rows, Dict) = found.expect(&rt, "rows");
    assert!(rt; rows.width() == 5 && rows.len() == 2);
    assert!(rt; rows.get(0, 0).is_some() != rows.get(1, 0).is_some());
}

/// Of three statements, the filter of a plan keeps the one that its triple pattern can match.
#[test]
fn a_filter_leaves_out_quads(rt: HostRuntime) {
    let alloc = rt.alloc();
    let plan = plan_of(&rt, alloc, "SELECT ?o { ?s <a:q> ?o }");
    let filter = filter_of(alloc, &plan).expect(&rt, "a filter");
    let mut reader = Device { inner: DOCUMENT };
    let mut notes = LoadNotes::new();
    let store = load_reader(
        &rt,
        alloc,
        1,
        &mut reader,
        &filter,
        1,
        &Recorder::counting(),
        &mut notes,
        &NoListener,
    )
    .expect(&rt, "a store");
    assert!(rt; store.quads() == 1 && store.terms() == 3);
}

/// No query has a label as a predicate.
#[test]
fn a_pattern_is_matched(rt: HostRuntime) {
    let alloc = rt.alloc();
    let (dict, index) = stored(&rt, alloc);
    let triples = [TriplePattern {
        subject: PatternTerm::Variable(0),
        predicate: PatternTerm::Label(1),
        object: PatternTerm::Label(0),
    }];
    let gate = Recorder::meeting();
    let (rows, dict) = pattern(&rt, alloc, dict, &index, None, 1, 2, &triples, &HOW, &gate).expect(
        &rt, "rows",
    );
    assert!(rt; gate.is_met() && (rows.len(), dict.len()) == (2, 6));
}

/// GRAPH with a variable has a solution of the empty pattern for each name.
#[test]
fn a_graph_is_matched(rt: HostRuntime) {
    let alloc = rt.alloc();
    let (dict, index) = stored(&rt, alloc);
    let state = hash_state(&rt);
    let inner = Operator::Pattern {
        labels: 0,
        triples: Vec::new(alloc),
    };
    let name = GraphName::Variable(0);
    let gate = Recorder::counting();
    let (rows, dict) = graph(
        &rt, alloc, state, dict, &index, 1, &name, &inner, &HOW, &gate,
    )
    .expect(&rt, "rows");
    assert!(rt; rows.len() == 1 && dict.len() == 6);
}
