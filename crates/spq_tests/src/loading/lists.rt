//! Lists of quads with numbers just below the limit of packing, and at it.

use dict_core::NumQuad;
use quad_index::{
    PARTS, QuadList, Quads, SortOrder, count_names, count_part, count_quads, sorted_list,
};
use std::alloc::{AllocError, Global};

/// The largest number that is packed.
const LARGEST: u64 = 0xFFFF_FFFE;

/// Returns whether these are the quads, in order.
fn are(quads: &Quads<'_>, expected: &[NumQuad]) -> bool {
    if quads.len() != expected.len() {
        return false;
    }
    for place in 0..quads.len() {
        if quads.get(place) != expected[place] {
            return false;
        }
    }
    true
}

/// Returns whether a list is right in which a quad is between three others that are the same.
fn is_right(alloc: Global, quad: NumQuad) -> Result<bool, AllocError> {
    let other = NumQuad {
        g: Some(LARGEST),
        s: LARGEST,
        p: LARGEST,
        o: LARGEST,
    };
    let mut list = QuadList::new(alloc);
    list.extend(alloc, &[other, other])?;
    list.extend(alloc, &[quad])?;
    list.extend(alloc, &[other])?;
    let sorted = sorted_list(alloc, &list, SortOrder::Gosp)?;
    let mut parts = 0u64;
    for part in 0..PARTS {
        parts = parts.saturating_add(count_part(alloc, &list, part)?);
    }
    let names = count_names(alloc, &list)?;
    let same = are(&list.quads(), &[other, other, quad, other]);
    let counts = count_quads(alloc, list)?;
    Ok(same && sorted.len() == 2 && parts == 2 && counts.quads == 2 && counts.graphs == names)
}

/// A list is the same, whether its quads are packed or a number is too large at one of the four places.
#[test]
fn a_number_may_be_too_large(rt: HostRuntime) {
    let (n, large) = (LARGEST, LARGEST + 1);
    let places = [
        (None, n, n, n),
        (Some(large), n, n, n),
        (None, large, n, n),
        (None, n, large, n),
        (None, n, n, large),
    ];
    for (g, s, p, o) in places {
        let right = is_right(rt.alloc(), NumQuad { g, s, p, o });
        assert!(rt; right == Ok(true), "a list");
    }
}
