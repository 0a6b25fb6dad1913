//! Rows of two variables, and what else the tests of operators need.
ghost use Rattle.std.specs.Prelude.{◌≡◌};
ghost use Rattle.sparql_eval.specs.Evaluated.{AreKnown};

use crate::fixtures::text;
use dict_core::Dict;
use rdf_core::Term;
use sparql_eval::{How, Rows, table};
use std::alloc::{AllocGlobal, Global};
use std::hash::RandomState;
use std::process::Abort;
use std::random::RandomSource;

/// Two workers, and pieces of one row.
pub(crate) const HOW: How = How {
    workers: 2,
    rows: 1,
};

/// Returns a state for hash tables.
pub(crate) fn hash_state<R: RandomSource + Abort>(rt: &R) -> RandomState {
    RandomState::new(rt).expect(rt, "a hash state")
}

/// Returns two rows, in which the first of two variables is `<a:x>` and `<a:y>`, and the dictionary of these terms.
/// If a variable is listed twice, its first place is used. No query has such a table.
pub(crate) fn two_rows<R: RandomSource + Abort>(rt: &R, alloc: Global) -> (Rows, Dict)
    ensures wide { result.0.width ≡ 2 }
    ensures known { AreKnown result.1 result.0 }
{
    let dict = Dict::new(alloc, hash_state(rt)).expect(rt, "a dictionary");
    let x = Term::Iri(text(alloc, "a:x"));
    let y = Term::Iri(text(alloc, "a:y"));
    let first = vec![in alloc; Some(x), None, None].expect(rt, "a row");
    let second = vec![in alloc; Some(y), None, None].expect(rt, "a row");
    table(alloc, dict, 2, &[0, 1, 0], &[first, second]).expect(rt, "a table")
}
