//! The texts that are new in a piece, with their hashes.
ghost use Rattle.std.specs.Prelude.{◌≡◌, map, IfOk};
ghost use Rattle.keyed_hash.specs.Hashing.{hash_of};

use crate::hashes::text_hashes;
use std::alloc::{AllocError, Global};
use std::marker::Model;
use text_dict::TextDict;

/// The texts of a piece that the dictionary lacks, and the hash of each. The worker that reads a piece computes them, so the
/// thread that adds the pieces does not. In contracts this type is the dictionary of the texts.
pub(crate) struct NewTexts {
    dict: TextDict,
    hashes: Vec<u64>,
}

impl Drop for NewTexts {
    /// Frees the texts and the hashes. Written by hand (docs/PROOF.md).
    fn drop(self) {
        let NewTexts { dict: _, hashes: _ } = self;
    }
}

impl Model for NewTexts {
    ghost use Rattle.std.specs.Prelude.{◌≡◌, map};
    ghost use Rattle.keyed_hash.specs.Hashing.{hash_of};
    ghost use Rattle.text_dict.specs.TextDict.{TextDictView};

    ghost Value = { TextDictView };

    ghost view = { λ n. n.dict };

    ghost invariant = { λ n. n.hashes.items ≡ map (hash_of n.dict.state) n.dict.texts };
}

impl NewTexts {
    /// Hashes the texts of a dictionary.
    ///
    /// # Errors
    /// `AllocError` if an allocation fails.
    pub(crate) fn of(alloc: Global, dict: TextDict) -> Result<NewTexts, AllocError>
        ensures same { IfOk result (λ new. new ≡ dict) }
    {
        let hashes = text_hashes(alloc, dict.state(), &dict)?;
        Ok(NewTexts { dict, hashes })
    }

    /// Returns the dictionary of the texts.
    #[inline(always)]
    pub(crate) fn texts(&self) -> &TextDict
        ensures value { result.now ≡ self.now }
    {
        &self.dict
    }

    /// Returns the hash of each text, under the state of their dictionary.
    #[inline(always)]
    pub(crate) fn hashes(&self) -> &[u64]
        ensures value { result.now ≡ map (hash_of self.now.state) self.now.texts }
    {
        self.hashes.as_slice()
    }
}
