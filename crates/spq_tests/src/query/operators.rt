//! The operators over rows of two variables, and the printing of rows. Two workers meet in those that run over
//! pieces.
use crate::fixtures::{Recorder, text};
use crate::query::rows::{HOW, hash_state, two_rows};
use result_json::{Table, print_rows};
use sparql_algebra::Expr;
use sparql_eval::{distinct, extend, filter, join, left_join, minus, project, union};
use std::alloc::AllocGlobal;

/// The rows x and y become the rows xx and yy, which are then joined with themselves.
#[test]
fn operators_go_over_rows(rt: HostRuntime) {
    let alloc = rt.alloc();
    let state = hash_state(&rt);
    let (rows, dict) = two_rows(&rt, alloc);
    let gate = Recorder::meeting();
    let (rows, dict) = extend(
        &rt,
        alloc,
        state,
        dict,
        &rows,
        1,
        &Expr::Variable(0),
        &HOW,
        &gate,
    )
    .expect(&rt, "extend");
    assert!(rt; gate.is_met(), "extend");
    let gate = Recorder::meeting();
    let (rows, dict) = join(&rt, alloc, state, dict, &rows, &rows, &HOW, &gate).expect(&rt, "join");
    assert!(rt; gate.is_met(), "join");
    let gate = Recorder::meeting();
    let (rows, dict) = left_join(
        &rt,
        alloc,
        state,
        dict,
        &rows,
        &rows,
        &Expr::Bound(1),
        &HOW,
        &gate,
    )
    .expect(&rt, "left join");
    assert!(rt; gate.is_met(), "left join");
    assert!(rt; (rows.len(), dict.len()) == (2, 2));
}

/// No row is left out, and then each is taken away.
#[test]
fn rows_are_filtered_and_taken_away(rt: HostRuntime) {
    let alloc = rt.alloc();
    let (rows, dict) = two_rows(&rt, alloc);
    let gate = Recorder::meeting();
    let (rows, dict) = filter(&rt, alloc, dict, &rows, &Expr::Bound(0), &HOW, &gate).expect(
        &rt, "filter",
    );
    assert!(rt; gate.is_met(), "filter");
    let gate = Recorder::meeting();
    let state = hash_state(&rt);
    let (none, dict) = minus(&rt, alloc, state, dict, &rows, &rows, &HOW, &gate).expect(
        &rt, "minus",
    );
    assert!(rt; gate.is_met(), "minus");
    assert!(rt; (rows.len(), none.len(), dict.len()) == (2, 0, 2));
}

/// A union has the rows of both sides, DISTINCT has each once, and a variable that is not listed is unbound.
#[test]
fn rows_are_united_and_projected(rt: HostRuntime) {
    let alloc = rt.alloc();
    let (rows, dict) = two_rows(&rt, alloc);
    let (rows, dict) = union(alloc, dict, &rows, &rows).expect(&rt, "union");
    assert!(rt; rows.len() == 4);
    let (rows, dict) = distinct(alloc, hash_state(&rt), dict, &rows).expect(&rt, "distinct");
    assert!(rt; rows.len() == 2);
    let (rows, dict) = project(alloc, dict, &rows, &[1, 7]).expect(&rt, "project");
    assert!(rt; (rows.len(), dict.len()) == (2, 2));
}

/// There is one block for each row, one before them and one after them.
#[test]
fn rows_are_printed(rt: HostRuntime) {
    let alloc = rt.alloc();
    let (rows, dict) = two_rows(&rt, alloc);
    let names = [text(alloc, "a"), text(alloc, "b")];
    let table = Table {
        names: &names,
        listed: &[0],
        dict: &dict,
        offset: 0,
        limit: None,
    };
    let gate = Recorder::meeting();
    let blocks = print_rows(&rt, alloc, &table, rows, &HOW, &gate).expect(&rt, "the blocks");
    assert!(rt; gate.is_met());
    assert!(rt; blocks.len() == 4);
}
