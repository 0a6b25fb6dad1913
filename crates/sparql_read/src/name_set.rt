//! Sets of names.

ghost use Rattle.std.specs.Prelude.{◌≡◌, [], ◌∷◌, ◌++◌, OnOk};
ghost use Rattle.sparql_read.specs.NameSet.{HaveSame, is_among};

use rdf_core::Text;
use std::alloc::{AllocError, Global};
use std::collections::BTreeSet;
use std::marker::Model;

/// A set of names. A contract views it as a list without repeats.
pub(crate) struct NameSet {
    names: BTreeSet<Text>,
}

impl Drop for NameSet {
    /// Drops the names. Written by hand (docs/PROOF.md).
    fn drop(self) {
        let NameSet { names: _ } = self;
    }
}

impl Model for NameSet {
    ghost use Rattle.std.specs.Prelude.{ℕ, List};

    ghost Value = { List (List ℕ) };

    ghost view = { λ s. s.names.keys };
}

impl NameSet {
    /// Returns the empty set. Allocates nothing.
    pub(crate) fn new(alloc: Global) -> NameSet
        ensures value { result ≡ [] }
    {
        NameSet {
            names: BTreeSet::new(alloc),
        }
    }

    /// Returns whether the name is in the set.
    pub(crate) fn has(&self, name: &Text) -> bool
        ensures value { result ≡ is_among name.now self.now }
    {
        self.names.contains(name)
    }

    /// Adds a name.
    ///
    /// # Errors
    /// `AllocError` if an allocation fails. The contents of the set are then unspecified.
    pub(crate) fn add(&mut self, name: Text) -> Result<(), AllocError>
        ensures names { OnOk result (HaveSame self.new (self.old ++ name ∷ [])) }
    {
        self.names.insert(name)?;
        Ok(())
    }

    /// Adds the names of another set.
    ///
    /// # Errors
    /// `AllocError` if an allocation fails. The contents of the set are then unspecified.
    pub(crate) fn absorb(&mut self, other: NameSet) -> Result<(), AllocError>
        ensures names { OnOk result (HaveSame self.new (self.old ++ other)) }
    {
        let NameSet { mut names } = other;
        self.names.append(&mut names)
    }
}
