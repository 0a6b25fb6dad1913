//! Numbered pieces, merged into one dictionary and one list.
ghost use Rattle.std.specs.Prelude.{◌≡◌, ◌+◌, ◌++◌, ◌<◌, ◌≤◌, List, length, map, get_or, IfOk, OnOk, vec_len, vec_capacity};
ghost use Rattle.rdf_core.specs.QuadParts.{QuadParts};
ghost use Rattle.dict_core.specs.NumQuad.{IsBelow, AreBelow};
ghost use Rattle.dict_core.specs.Numbered.{IsNumbered, joined, renamed};

use crate::dict::Dict;
use crate::local_piece::LocalPiece;
use crate::num_quad::NumQuad;
use std::alloc::{AllocError, Global};
use std::hash::RandomState;

/// Merges consecutive pieces. The dictionary has the terms by first appearance over all pieces, and the
/// quads are in order, with repeats. The terms are moved, not copied.
///
/// # Errors
/// `AllocError` if an allocation fails. The pieces are dropped.
pub fn merge(
    alloc: Global,
    state: RandomState,
    pieces: Vec<LocalPiece>,
) -> Result<(Dict, Vec<NumQuad>), AllocError>
    ensures numbered { IfOk result
        (λ merged. IsNumbered (joined pieces.items) merged.0 merged.1.items) }
{
    let mut dict = Dict::new(alloc, state)?;
    let mut all = Vec::with_capacity(alloc, count_quads(pieces.as_slice()))?;
    for piece in pieces {
        merge_piece(&mut dict, &mut all, piece)?;
    }
    Ok((dict, all))
}

/// Adds one more piece.
fn merge_piece(dict: &mut Dict, all: &mut Vec<NumQuad>, piece: LocalPiece) -> Result<(), AllocError>
    ensures numbered { OnOk result ((done : List QuadParts)
        → IsNumbered done dict.old all.old.items
        → IsNumbered (done ++ piece) dict.new all.new.items) }
{
    let LocalPiece { dict: own, quads } = piece;
    all.reserve(quads.len())?;
    let numbers = dict.absorb(own)?;
    append_renamed(all, numbers.as_slice(), quads);
    Ok(())
}

/// Counts the quads of the pieces, so that room for all of them is allocated at once.
fn count_quads(pieces: &[LocalPiece]) -> usize {
    let mut count: usize = 0;
    for piece in pieces {
        count = count.saturating_add(piece.quads().len());
    }
    count
}

/// Appends the quads, with each number `n` in them replaced by `numbers[n]`.
fn append_renamed(all: &mut Vec<NumQuad>, numbers: &[u64], quads: Vec<NumQuad>)
    requires below { AreBelow (length numbers.now) quads.items }
    requires room { vec_len all.old + vec_len quads ≤ vec_capacity all.old }
    ensures quads { all.new.items ≡ all.old.items ++ map (renamed numbers.now) quads.items }
{
    for quad in quads {
        all.push_reserved(rename_quad(numbers, quad));
    }
}

fn rename_quad(numbers: &[u64], quad: NumQuad) -> NumQuad
    requires below { IsBelow (length numbers.now) quad }
    ensures renamed { result ≡ renamed numbers.now quad }
{
    let g = match quad.g {
        Some(g) => Some(number_at(numbers, g)),
        None => None,
    };
    NumQuad {
        g,
        s: number_at(numbers, quad.s),
        p: number_at(numbers, quad.p),
        o: number_at(numbers, quad.o),
    }
}

fn number_at(numbers: &[u64], n: u64) -> u64
    requires below { n < length numbers.now }
    ensures number { result ≡ get_or numbers.now n 0 }
{
    numbers[n as usize]
}
