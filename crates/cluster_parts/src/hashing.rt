//! Hashes without a key.
ghost use Rattle.std.specs.Prelude.{◌≡◌, ◌∷◌, [], length, map, IfOk};
ghost use Rattle.dict_core.specs.NumQuad.{IsBelow};
ghost use Rattle.cluster_parts.specs.Hash.{hash, hash_numbers};
ghost use Rattle.cluster_parts.specs.Numbered.{hash_by_numbers};

use dict_core::NumQuad;
use std::alloc::{AllocError, Global};
use std::hash::{FoldHasher, Hasher};
use text_dict::TextDict;

/// Returns the hash of a text. All workers compute the same.
pub fn hash_of(text: &[u8]) -> u64
    ensures value { result ≡ hash text.now }
{
    let mut hasher = FoldHasher::default();
    hasher.write(text);
    hasher.finish()
}

/// The number of hashes that a quad can have.
const QUAD_HASHES: u64 = 1 << 60;

/// Returns the hash of a quad, from those of its terms.
fn hash_of_four(s: u64, p: u64, o: u64, g: u64) -> u64
    ensures value { result ≡ hash_numbers (s ∷ p ∷ o ∷ g ∷ []) }
{
    let mut hasher = FoldHasher::default();
    hasher.write_u64(s);
    hasher.write_u64(p);
    hasher.write_u64(o);
    hasher.write_u64(g);
    hasher.finish() % QUAD_HASHES
}

/// Returns the hash of a quad of numbers. `terms` are the hashes of the terms.
pub(crate) fn hash_of_quad(terms: &[u64], quad: &NumQuad) -> u64
    requires below { IsBelow (length terms.now) quad.now }
    ensures value { result ≡ hash_by_numbers terms.now quad.now }
{
    let graph = match quad.g {
        Some(g) => terms[g as usize],
        None => 0,
    };
    hash_of_four(
        terms[quad.s as usize],
        terms[quad.p as usize],
        terms[quad.o as usize],
        graph,
    )
}

/// Returns the hash of each text of a dictionary, by number.
///
/// # Errors
/// `AllocError` if an allocation fails.
pub(crate) fn text_hashes(alloc: Global, texts: &TextDict) -> Result<Vec<u64>, AllocError>
    ensures hashes { IfOk result (λ hashes. hashes.items ≡ map hash texts.now.texts) }
{
    let mut hashes = Vec::with_capacity(alloc, texts.len())?;
    for n in 0..texts.len() as u64 {
        hashes.push(hash_of(texts.text(n)))?;
    }
    Ok(hashes)
}
