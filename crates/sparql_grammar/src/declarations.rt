//! Prefix declarations.

ghost use Rattle.std.specs.Prelude.{◌≡◌, [], ◌∷◌, MatchOption, None, OnErr, OnOk, Some};
ghost use Rattle.sparql_grammar.specs.Values.{declaration_of};

use rdf_core::Text;
use std::alloc::{AllocError, Global};
use std::collections::BTreeMap;
use std::marker::Model;

/// A prefix declaration, `PREFIX prefix: <iri>` ([6] PrefixDecl).
#[derive(Drop)]
pub struct Declaration {
    /// The prefix, without its colon.
    pub prefix: Text,
    /// The IRI of the prefix.
    pub iri: Text,
}

/// The prefix declarations of a text. A contract views them as their list, the last one of the text
/// first. A map finds the declaration of a prefix without a search through the list.
pub struct Declarations {
    /// The declarations in the order of the text.
    list: Vec<Declaration>,
    /// The place in `list` of the last declaration of each prefix.
    places: BTreeMap<String, usize>,
}

impl Drop for Declarations {
    /// Drops the list and the places. Written by hand (docs/PROOF.md).
    fn drop(self) {
        let Declarations { list: _, places: _ } = self;
    }
}

impl Model for Declarations {
    ghost use Rattle.std.specs.Prelude.{List, reverse};
    ghost use Rattle.sparql_grammar.specs.declared.declarations.Declaration.{Declaration};
    ghost use Rattle.sparql_grammar.specs.DeclarationPlaces.{AreDeclarationPlaces};

    ghost Value = { List Declaration };

    ghost view = { λ ds. reverse ds.list.items };

    ghost invariant = { λ ds. AreDeclarationPlaces ds.list.items ds.places };
}

impl Declarations {
    /// Returns an empty list of declarations. Allocates nothing.
    pub fn new(alloc: Global) -> Declarations
        ensures names { result ≡ [] }
    {
        Declarations {
            list: Vec::new(alloc),
            places: BTreeMap::new(alloc),
        }
    }

    /// Adds the next declaration of the text. It replaces an earlier one of the same prefix in
    /// searches.
    ///
    /// # Errors
    /// `AllocError` if an allocation fails. The declarations are unchanged.
    pub fn add(&mut self, declaration: Declaration) -> Result<(), AllocError>
        ensures names { OnOk result (self.new ≡ declaration ∷ self.old) }
        ensures kept { OnErr result (self.new ≡ self.old) }
    {
        let alloc = *self.list.allocator();
        let prefix = String::from_str(alloc, declaration.prefix.as_str())?;
        self.list.reserve(1)?;
        self.places.insert(prefix, self.list.len())?;
        self.list.push(declaration)?;
        Ok(())
    }

    /// Returns the last declaration of a prefix in the text, or None if the prefix has none.
    pub fn find(&self, prefix: &str) -> Option<&Declaration>
        ensures declaration { MatchOption result (declaration_of self.now prefix.now ≡ None) (λ d. declaration_of self.now prefix.now ≡ Some d.now) }
    {
        let place = self.places.get(prefix)?;
        Some(&self.list[*place])
    }
}
