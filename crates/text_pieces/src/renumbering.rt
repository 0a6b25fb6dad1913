//! Quads with other numbers.
ghost use Rattle.std.specs.Prelude.{◌≡◌, map, get_or, IfOk};
ghost use Rattle.text_pieces.specs.Pieces.{renumbered, renumbered_quad};

use dict_core::NumQuad;
use std::alloc::{AllocError, Global};

/// Returns the number at this place, or 0 if there is none.
#[inline(always)]
fn number_at(numbers: &[u64], place: u64) -> u64
    ensures value { result ≡ get_or numbers.now place 0 }
{
    if place < numbers.len() as u64 {
        numbers[place as usize]
    } else {
        0
    }
}

/// Returns the number itself if it is below `base`. Otherwise returns the number at its place after `base`.
#[inline(always)]
fn renumbered(base: u64, numbers: &[u64], n: u64) -> u64
    ensures value { result ≡ renumbered base numbers.now n }
{
    if n < base {
        n
    } else {
        number_at(numbers, n - base)
    }
}

/// Returns the quad with such numbers.
#[inline(always)]
fn renumbered_quad(base: u64, numbers: &[u64], quad: &NumQuad) -> NumQuad
    ensures value { result ≡ renumbered_quad base numbers.now quad.now }
{
    let g = match quad.g {
        Some(g) => Some(renumbered(base, numbers, g)),
        None => None,
    };
    NumQuad {
        g,
        s: renumbered(base, numbers, quad.s),
        p: renumbered(base, numbers, quad.p),
        o: renumbered(base, numbers, quad.o),
    }
}

/// Gives the quads such numbers.
fn renumber(quads: &mut [NumQuad], base: u64, numbers: &[u64])
    ensures renumbered { quads.new ≡ map (renumbered_quad base numbers.now) quads.old }
{
    for quad in quads.iter_mut() {
        *quad = renumbered_quad(base, numbers, quad);
    }
}

/// Returns the quads of a list with such numbers, in the same memory.
pub(crate) fn renumbered_list(quads: Vec<NumQuad>, base: u64, numbers: &[u64]) -> Vec<NumQuad>
    ensures value { result.items ≡ map (renumbered_quad base numbers.now) quads.items }
{
    let mut list = quads;
    renumber(list.as_mut_slice(), base, numbers);
    list
}

/// Returns the quads with the number at each of their places.
pub(crate) fn renumbered_quads(
    alloc: Global,
    numbers: &[u64],
    quads: &[NumQuad],
) -> Result<Vec<NumQuad>, AllocError>
    ensures value { IfOk result
        (λ v. v.items ≡ map (renumbered_quad 0 numbers.now) quads.now) }
{
    let all = Vec::from_slice(alloc, quads)?;
    Ok(renumbered_list(all, 0, numbers))
}
