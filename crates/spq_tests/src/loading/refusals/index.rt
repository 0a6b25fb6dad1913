//! What is left of an index after a failed allocation, for each of its allocations.

use dict_core::NumQuad;
use quad_index::{Index, QuadList, Quads};
use std::alloc::{AllocError, Global};

/// Returns a quad with the predicate 1.
pub(crate) fn quad(g: Option<u64>, s: u64, o: u64) -> NumQuad {
    NumQuad { g, s, p: 1, o }
}

/// Returns the index of four quads, of which two are equal.
fn built(alloc: Global) -> Result<Index, AllocError> {
    let twice = quad(None, 0, 2);
    let quads = Vec::from_slice(
        alloc,
        &[twice, twice, quad(None, 0, 3), quad(Some(5), 0, 2)],
    )?;
    Index::build(alloc, quads)
}

/// On error `Index::build` drops its list, and an equal list is built. A repeated quad counts once, and a graph has a name if
/// a quad names it.
#[test]
fn a_failed_build_drops_its_list(rt: HostRuntime) {
    let index = match built(rt.alloc()) {
        Ok(index) => index,
        Err(_) => built(rt.alloc()).expect(&rt, "a second try"),
    };
    assert!(rt;
        index.quads() == 3 && index.graphs() == [5].as_slice(),
        "quads and graph names"
    );
    let found: Quads<'_> = index.scan(None, Some(0), None, Some(3));
    assert!(rt; found.len() == 1 && !found.is_empty(), "a scan");
}

/// Adds a quad, at the second try if the first one fails. Returns whether the list was unchanged then.
fn is_added(alloc: Global, list: &mut QuadList, quad: NumQuad) -> bool {
    let before = list.len();
    match list.extend(alloc, &[quad]) {
        Ok(()) => true,
        Err(_) => list.len() == before && list.extend(alloc, &[quad]).is_ok(),
    }
}

/// On error `extend` leaves the list unchanged, also if its quads would have to be unpacked.
#[test]
fn a_failed_extension_leaves_its_list(rt: HostRuntime) {
    let alloc = rt.alloc();
    let mut list = QuadList::new(alloc);
    for last in [2, u64::MAX, 3] {
        let added = is_added(alloc, &mut list, quad(None, 0, last));
        assert!(rt; added, "one more quad");
    }
    assert!(rt; list.len() == 3, "three quads");
}
