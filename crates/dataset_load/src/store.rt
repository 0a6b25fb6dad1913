//! A loaded dataset.
ghost use Rattle.std.specs.Prelude.{◌≡◌, length};
ghost use Rattle.dict_core.specs.NumQuad.{AreBelow};
ghost use Rattle.dataset_load.specs.Store.{names_in};

use dict_core::Dict;
use quad_index::Index;
use std::marker::Model;

/// A dataset: its terms, numbered by first appearance, and an index of its quads of numbers. In
/// contracts this type is its terms and its numbered quads. Each number in the index is the number of
/// a term.
pub struct Store {
    dict: Dict,
    index: Index,
}

impl Drop for Store {
    /// Drops the terms and the index. Written by hand (docs/PROOF.md).
    fn drop(self) {
        let Store { dict: _, index: _ } = self;
    }
}

impl Model for Store {
    ghost use Rattle.std.specs.Prelude.{length};
    ghost use Rattle.dict_core.specs.NumQuad.{AreBelow};
    ghost use Rattle.dataset_load.specs.Store.{StoreView};

    ghost Value = { StoreView };

    ghost view = { λ store. record { dict = store.dict; index = store.index } };

    ghost invariant = { λ store. AreBelow (length store.dict) store.index };
}

impl Store {
    /// Creates a store of a dictionary and an index.
    pub(crate) fn of_parts(dict: Dict, index: Index) -> Store
        requires below { AreBelow (length dict) index }
        ensures parts { result ≡ record { dict = dict; index = index } }
    {
        Store { dict, index }
    }

    /// Returns the terms by number.
    pub fn dict(&self) -> &Dict
        ensures terms { result.now ≡ self.now.dict }
    {
        &self.dict
    }

    /// Returns the index of the quads.
    pub fn index(&self) -> &Index
        ensures quads { result.now ≡ self.now.index }
        ensures below { AreBelow (length self.now.dict) self.now.index }
    {
        &self.index
    }

    /// Returns the dictionary and the index from which the store was made.
    pub fn into_parts(self) -> (Dict, Index)
        ensures dict { result.0 ≡ self.dict }
        ensures index { result.1 ≡ self.index }
        ensures below { AreBelow (length result.0) result.1 }
    {
        let Store { dict, index } = self;
        (dict, index)
    }

    /// Returns the number of distinct quads.
    pub fn quads(&self) -> u64
        ensures count { result ≡ length self.now.index }
    {
        self.index.quads()
    }

    /// Returns the number of distinct terms.
    pub fn terms(&self) -> u64
        ensures count { result ≡ length self.now.dict }
    {
        self.dict.len() as u64
    }

    /// Returns the number of distinct graph names.
    pub fn graphs(&self) -> u64
        ensures count { result ≡ length (names_in self.now.index) }
    {
        self.index.graphs().len() as u64
    }
}
