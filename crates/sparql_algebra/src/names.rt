//! Distinct names, numbered in the order in which they were added.
ghost use Rattle.std.specs.Prelude.{◌≡◌, ◌<◌, ◌^◌, [], length, IfOk, OnErr, OnOk};
ghost use Rattle.std.specs.Str.{bytes_eq};
ghost use Rattle.indexmap.specs.IndexSet.{insert_key};
ghost use Rattle.sparql_algebra.specs.Names.{is_name_among, number_of};

use indexmap::IndexSet;
use rdf_core::Text;
use std::alloc::{AllocError, Global};
use std::marker::Model;

/// A list of distinct names, numbered from 0 in the order in which they were added. In contracts it
/// is their list.
pub struct Names {
    set: IndexSet<Text>,
}

impl Drop for Names {
    /// Written by hand (docs/PROOF.md).
    fn drop(self) {
        let Names { set: _ } = self;
    }
}

impl Model for Names {
    ghost use Rattle.std.specs.Prelude.{ℕ, List};

    ghost Value = { List (List ℕ) };

    ghost view = { λ n. n.set.keys };
}

impl Names {
    /// Creates an empty list. Allocates nothing.
    pub fn new(alloc: Global) -> Names
        ensures empty { result ≡ [] }
    {
        Names {
            set: IndexSet::new(alloc),
        }
    }

    /// Returns the number of names.
    pub fn len(&self) -> usize
        ensures value { result ≡ length self.now }
        ensures small { result < 2 ^ 63 }
    {
        self.set.len()
    }

    /// Appends the name if the list lacks it. Only then is it copied.
    ///
    /// # Errors
    /// `AllocError` if an allocation fails. The names are unchanged.
    pub fn note(&mut self, name: &Text) -> Result<(), AllocError>
        ensures noted { OnOk result (self.new ≡ insert_key bytes_eq self.old name.now) }
        ensures unchanged { OnErr result (self.new ≡ self.old) }
    {
        if !self.set.contains(name) {
            let alloc = *self.set.allocator();
            self.set.insert(name.copy(alloc)?)?;
        }
        Ok(())
    }

    /// Returns whether the name is in the list.
    pub fn contains(&self, name: &Text) -> bool
        ensures among { result ≡ is_name_among name.now self.now }
    {
        self.set.contains(name)
    }

    /// Returns the number of the name, or the number of names if the list lacks it.
    pub fn number(&self, name: &Text) -> usize
        ensures number { result ≡ number_of self.now name.now }
    {
        match self.set.get_index_of(name) {
            Some(number) => number,
            None => self.set.len(),
        }
    }

    /// Borrows the names as a slice.
    pub fn as_slice(&self) -> &[Text]
        ensures names { result.now ≡ self.now }
    {
        self.set.as_slice()
    }

    /// Moves the names into a list.
    ///
    /// # Errors
    /// `AllocError` if an allocation fails. The names are dropped.
    pub fn into_list(self, alloc: Global) -> Result<Vec<Text>, AllocError>
        ensures names { IfOk result (λ list. list.items ≡ self) }
    {
        let Names { set } = self;
        set.into_iter().collect(alloc)
    }
}
