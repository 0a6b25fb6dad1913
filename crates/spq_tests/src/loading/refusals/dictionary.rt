//! What is left of a dictionary after a failed allocation, for each of its allocations. A test ends early if the
//! failing allocation is one of the test itself.

use crate::loading::refusals::index::quad;
use dict_core::{Dict, NumQuad, merge, number_piece};
use nquads_core::read_piece;
use rdf_core::{Term, Text};
use std::alloc::{AllocError, AllocGlobal, Global};
use std::hash::RandomState;

/// Returns an IRI.
fn iri(alloc: Global, text: &str) -> Result<Term, AllocError> {
    Ok(Term::Iri(Text::from_string(String::from_str(alloc, text)?)))
}

/// On error `intern` returns the term, which can be added then.
#[test]
fn a_term_that_is_not_added_comes_back(rt: HostRuntime) {
    let Ok(state) = RandomState::new(&rt) else {
        return;
    };
    let Ok(mut dict) = Dict::new(rt.alloc(), state) else {
        return;
    };
    let Ok(term) = iri(rt.alloc(), "a:a") else {
        return;
    };
    if let Err(back) = dict.intern(term) {
        dict.intern(back).expect(&rt, "a second try");
    }
    assert!(rt;
        dict.len() == 1 && dict.number_of(dict.term(0)) == Some(0),
        "a term"
    );
}

/// Merges two pieces.
fn merged(alloc: Global, state: RandomState) -> Option<(Dict, Vec<NumQuad>)> {
    let mut pieces = Vec::new(alloc);
    let texts: [&[u8]; 2] = [b"<a:a> <a:p> <a:b> .\n", b"<a:b> <a:p> _:x <a:g> .\n"];
    for text in texts {
        let piece = read_piece(alloc, text).ok()?;
        pieces.push(number_piece(alloc, state, piece).ok()?).ok()?;
    }
    merge(alloc, state, pieces).ok()
}

/// On error `merge` drops its pieces, and equal pieces merge.
#[test]
fn a_failed_merge_drops_its_pieces(rt: HostRuntime) {
    let Ok(state) = RandomState::new(&rt) else {
        return;
    };
    let (dict, quads) = match merged(rt.alloc(), state) {
        Some(merged) => merged,
        None => merged(rt.alloc(), state).expect(&rt, "a second try"),
    };
    let expected = [quad(None, 0, 2), quad(Some(4), 2, 3)];
    assert!(rt;
        quads.as_slice() == expected.as_slice() && dict.len() == 5,
        "the merged quads"
    );
}
