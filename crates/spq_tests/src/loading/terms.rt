//! The terms of a line: they are read, copied and written. tests/examples has the examples of the N-Quads grammar.

use crate::fixtures::text;
use nquads_core::{read_line, read_term};
use rdf_core::{Quad, write_term};
use std::alloc::AllocGlobal;

/// A line has a statement, which is equal to its copy and to the statement of the same terms.
#[test]
fn a_line_has_a_statement(rt: HostRuntime) {
    let line = b"<a:s> <a:p> \"x\\u0079\"@EN _:g .";
    let found = read_line(rt.alloc(), line).expect(&rt, "a line");
    let quad = found.expect(&rt, "a statement");
    let Quad { s, p, o, g } = quad.copy(rt.alloc()).expect(&rt, "a copy");
    let again = Quad::of(s, p, o, g).expect(&rt, "terms in their places");
    assert!(rt; again == quad, "the same statement");
}

/// The N-Quads form of a copy denotes the term.
#[test]
fn a_term_is_read_and_written(rt: HostRuntime) {
    let given = text(rt.alloc(), "\"x\\u0079\"@EN").into_string();
    let found = read_term(rt.alloc(), given.as_str()).expect(&rt, "a term");
    let term = found.expect(&rt, "a term");
    let copy = term.copy(rt.alloc()).expect(&rt, "a copy");
    let mut form = Vec::new(rt.alloc());
    write_term(&copy, &mut form).expect(&rt, "a form");
    assert!(rt; form.as_slice() == b"\"xy\"@en".as_slice(), "a form");
}
