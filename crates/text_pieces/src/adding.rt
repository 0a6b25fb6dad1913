//! Pieces that were read against a dictionary, added in order.
ghost use Rattle.std.specs.Prelude.{◌≡◌, ◌++◌, ℕ, List, true, map, OnErr, IfOk};
ghost use Rattle.keyed_hash.specs.Hashing.{hash_of};
ghost use Rattle.rdf_core.specs.QuadParts.{QuadParts};
ghost use Rattle.dict_core.specs.declared.num_quad.NumQuad.{NumQuad};
ghost use Rattle.text_pieces.specs.Forms.{AreNumberedBy};
ghost use Rattle.text_pieces.specs.Pieces.{AreAdded, AreGrown, IsPieceOf};

use crate::hashes::{count_lacking, text_hashes};
use crate::new_texts::NewTexts;
use crate::renumbering::renumbered_list;
use crate::text_piece::TextPiece;
use dict_core::NumQuad;
use keyed_hash::HashState;
use std::alloc::{AllocError, Global};
use text_dict::TextDict;

/// Adds a piece after those that were added before. Appends its new texts to the dictionary. Returns its quads, in order,
/// with the numbers of the dictionary.
///
/// The piece may have been read against an earlier state of the dictionary. The quads that were numbered before, followed
/// by these, are numbered by the dictionary.
///
/// # Errors
/// `AllocError` if an allocation fails. The dictionary is unchanged.
pub fn add_piece(
    alloc: Global,
    dict: &mut TextDict,
    piece: TextPiece,
) -> Result<Vec<NumQuad>, AllocError>
    ensures grown { AreGrown dict.old.texts dict.new.texts }
    ensures numbered { IfOk result (λ added. (earlier : List (List ℕ))
        → AreGrown earlier dict.old.texts
        → (done quads : List QuadParts) → IsPieceOf earlier quads piece
        → (before : List NumQuad) → AreNumberedBy done dict.old.texts before
        → AreNumberedBy (done ++ quads) dict.new.texts (before ++ added.items)) }
    ensures unchanged { OnErr result (dict.new.texts ≡ dict.old.texts) }
{
    let TextPiece {
        base,
        new,
        quads,
        ..
    } = piece;
    let numbers = add_all(alloc, dict, &new)?;
    Ok(renumbered_list(quads, base as u64, numbers.as_slice()))
}

/// Adds texts, in order. Returns their numbers. On error the dictionary is unchanged.
fn add_all(alloc: Global, dict: &mut TextDict, new: &NewTexts) -> Result<Vec<u64>, AllocError>
    ensures grown { AreGrown dict.old.texts dict.new.texts }
    ensures added { IfOk result
        (λ v. AreAdded dict.old.texts new.now.texts dict.new.texts v.items) }
    ensures unchanged { OnErr result (dict.new.texts ≡ dict.old.texts) }
{
    let before = dict.len();
    match add_new(alloc, dict, new) {
        Ok(numbers) => Ok(numbers),
        Err(fault) => {
            dict.truncate(before);
            Err(fault)
        }
    }
}

/// Adds texts, in order. Returns their numbers. Their hashes are those that were computed with them, unless the dictionary has
/// another state of the hash function.
fn add_new(alloc: Global, dict: &mut TextDict, new: &NewTexts) -> Result<Vec<u64>, AllocError>
    ensures grown { AreGrown dict.old.texts dict.new.texts }
    ensures added { IfOk result
        (λ v. AreAdded dict.old.texts new.now.texts dict.new.texts v.items) }
{
    let texts = new.texts();
    if is_same_state(texts.state(), dict.state()) {
        return add_texts(alloc, dict, texts, new.hashes());
    }
    let hashes = text_hashes(alloc, dict.state(), texts)?;
    add_texts(alloc, dict, texts, hashes.as_slice())
}

/// Returns whether two states of the hash function are the same.
fn is_same_state(a: HashState, b: HashState) -> bool
    ensures same { result ≡ true → a ≡ b }
{
    a == b
}

/// Adds texts with these hashes, in order. Returns their numbers.
fn add_texts(
    alloc: Global,
    dict: &mut TextDict,
    new: &TextDict,
    hashes: &[u64],
) -> Result<Vec<u64>, AllocError>
    requires hashed { hashes.now ≡ map (hash_of dict.old.state) new.now.texts }
    ensures grown { AreGrown dict.old.texts dict.new.texts }
    ensures added { IfOk result
        (λ v. AreAdded dict.old.texts new.now.texts dict.new.texts v.items) }
{
    dict.reserve(count_lacking(dict, hashes))?;
    let mut numbers = Vec::with_capacity(alloc, new.len())?;
    for n in 0..new.len() as u64 {
        numbers.push_reserved(dict.intern_hashed(hashes[n as usize], new.text(n))?);
    }
    Ok(numbers)
}
