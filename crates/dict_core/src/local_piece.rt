//! Quads of a piece, numbered by a dictionary of their own.
ghost use Rattle.std.specs.Prelude.{◌≡◌, ◌≤◌, [], map, length, vec_len, vec_capacity, option_to_list, IfOk, MatchOption, None, OnOk, slice_get, Some};
ghost use Rattle.indexmap.specs.IndexSet.{insert_key, insert_all};
ghost use Rattle.rdf_core.specs.Equality.{term_eq};
ghost use Rattle.rdf_core.specs.QuadParts.{parts_of};
ghost use Rattle.dict_core.specs.NumQuad.{quad_at, IsBelow, AreBelow};
ghost use Rattle.dict_core.specs.Appearances.{terms_of_quad, terms_of, first_appearances};
ghost use Rattle.dict_core.specs.Numbered.{IsNumbered};

use crate::dict::Dict;
use crate::num_quad::NumQuad;
use nquads_core::Piece;
use rdf_core::{Quad, Term};
use std::alloc::{AllocError, Global};
use std::hash::RandomState;
use std::marker::Model;

/// The quads of one piece of a document, numbered by a dictionary of their own. In contracts this
/// type is the list of the quads, in order.
///
/// The dictionary has the terms of these quads by first appearance, within a quad subject,
/// predicate, object, graph name, and no other.
#[derive(Drop)]
pub struct LocalPiece {
    pub(crate) dict: Dict,
    pub(crate) quads: Vec<NumQuad>,
}

impl Model for LocalPiece {
    ghost use Rattle.std.specs.Prelude.{List};
    ghost use Rattle.rdf_core.specs.QuadParts.{QuadParts};
    ghost use Rattle.dict_core.specs.NumQuad.{quads_at};
    ghost use Rattle.dict_core.specs.Numbered.{IsNumbered};

    ghost Value = { List QuadParts };

    ghost view = { λ piece. quads_at piece.dict piece.quads.items };

    ghost invariant = { λ piece. IsNumbered (quads_at piece.dict piece.quads.items) piece.dict piece.quads.items };
}

impl LocalPiece {
    /// Returns the dictionary of the piece.
    pub fn dict(&self) -> &Dict
        ensures terms { result.now ≡ first_appearances (terms_of self.now) }
    {
        &self.dict
    }

    /// Returns the quads of the piece, as numbers of its dictionary.
    pub fn quads(&self) -> &[NumQuad]
        ensures numbered { IsNumbered self.now (first_appearances (terms_of self.now)) result.now }
    {
        self.quads.as_slice()
    }
}

/// Numbers the quads of a piece by a dictionary of their own, in order, with repeats. The terms are
/// moved, not copied. The number of lines of the piece is dropped.
///
/// # Errors
/// `AllocError` if an allocation fails. The piece is dropped.
pub fn number_piece(
    alloc: Global,
    state: RandomState,
    piece: Piece,
) -> Result<LocalPiece, AllocError>
    ensures quads { IfOk result (λ local. local ≡ map parts_of piece.quads.items) }
{
    let Piece { quads, .. } = piece;
    let mut dict = Dict::new(alloc, state)?;
    let mut numbered = Vec::with_capacity(alloc, quads.len())?;
    number_all(&mut dict, &mut numbered, quads)?;
    Ok(LocalPiece {
        dict,
        quads: numbered,
    })
}

/// Numbers the quads, one after the other.
fn number_all(
    dict: &mut Dict,
    numbered: &mut Vec<NumQuad>,
    quads: Vec<Quad>,
) -> Result<(), AllocError>
    requires no_terms { dict.old ≡ [] }
    requires no_quads { numbered.old.items ≡ [] }
    requires room { vec_len quads ≤ vec_capacity numbered.old }
    ensures numbered { OnOk result (IsNumbered (map parts_of quads.items) dict.new numbered.new.items) }
{
    for quad in quads {
        numbered.push_reserved(number_quad(dict, quad)?);
    }
    Ok(())
}

/// Numbers the terms of a quad. It numbers all of them before the first `?`, so no exit drops a term (docs/PROOF.md, "Two
/// idioms of the code").
fn number_quad(dict: &mut Dict, quad: Quad) -> Result<NumQuad, AllocError>
    ensures terms { OnOk result
        (dict.new ≡ insert_all term_eq dict.old (terms_of_quad (parts_of quad))) }
    ensures below { IfOk result (λ n. IsBelow (length dict.new) n) }
    ensures quad { IfOk result (λ n. quad_at dict.new n ≡ parts_of quad) }
{
    let Quad { s, p, o, g } = quad;
    let s = number_term(dict, s);
    let p = number_term(dict, p);
    let o = number_term(dict, o);
    let g = number_name(dict, g);
    Ok(NumQuad {
        g: g?,
        s: s?,
        p: p?,
        o: o?,
    })
}

/// Returns the number of a graph name, or None for the default graph.
fn number_name(dict: &mut Dict, name: Option<Term>) -> Result<Option<u64>, AllocError>
    ensures terms { OnOk result (dict.new ≡ insert_all term_eq dict.old (option_to_list name)) }
    ensures number { IfOk result (λ g. MatchOption name (g ≡ None)
        (λ t. (n : _) × (g ≡ Some n) × (slice_get dict.new n ≡ Some t))) }
{
    match name {
        Some(name) => Ok(Some(number_term(dict, name)?)),
        None => Ok(None),
    }
}

/// Returns the number of a term. A new term is appended.
fn number_term(dict: &mut Dict, term: Term) -> Result<u64, AllocError>
    ensures terms { OnOk result (dict.new ≡ insert_key term_eq dict.old term) }
    ensures number { IfOk result (λ n. slice_get dict.new n ≡ Some term) }
{
    match dict.intern(term) {
        Ok(n) => Ok(n),
        Err(_) => Err(AllocError),
    }
}
