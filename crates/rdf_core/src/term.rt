//! RDF terms (RDF 1.1 Concepts, section 3).
ghost use Rattle.std.specs.Prelude.{◌≡◌, IfOk};

use crate::text::Text;
use std::alloc::{AllocError, Global};

/// An RDF term (RDF 1.1 Concepts, sections 3.1 to 3.4).
///
/// Two terms are equal if and only if all their parts are equal (the law
/// [`equality_is_identity`](crate::laws::equality_is_identity)). Blank nodes are before IRIs, and
/// IRIs before literals (the law [`order_is_by_parts`](crate::laws::order_is_by_parts)). Terms of
/// one kind are ordered by the bytes of their texts. Literals are ordered by lexical form, then
/// datatype, then tag; no tag is before any tag.
#[derive(Debug, PartialEq, Eq, PartialOrd, Ord, Hash)]
pub enum Term {
    /// A blank node by its label, without `_:`.
    Blank(Text),
    /// An IRI by its text, without angle brackets.
    Iri(Text),
    /// A literal. The readers of N-Quads and SPARQL give a literal with a language tag the datatype
    /// `rdf:langString`, and its tag in lower case.
    Literal {
        lexical: Text,
        datatype: Text,
        tag: Option<Text>,
    },
}

impl Drop for Term {
    /// Drops the texts. Written by hand (docs/PROOF.md).
    fn drop(self) {
        match self {
            Term::Blank(_)
            | Term::Iri(_)
            | Term::Literal {
                lexical: _,
                datatype: _,
                tag: _,
            } => {}
        }
    }
}

impl Term {
    /// Returns an equal term that owns its texts.
    ///
    /// # Errors
    /// `AllocError` if an allocation fails. The term is unchanged.
    pub fn copy(&self, alloc: Global) -> Result<Term, AllocError>
        ensures equal { IfOk result (λ term. term ≡ self.now) }
    {
        match self {
            Term::Blank(label) => Ok(Term::Blank(label.copy(alloc)?)),
            Term::Iri(text) => Ok(Term::Iri(text.copy(alloc)?)),
            Term::Literal {
                lexical,
                datatype,
                tag,
            } => {
                let lexical = lexical.copy(alloc)?;
                let datatype = datatype.copy(alloc)?;
                let tag = match tag {
                    Some(tag) => Some(tag.copy(alloc)?),
                    None => None,
                };
                Ok(Term::Literal {
                    lexical,
                    datatype,
                    tag,
                })
            }
        }
    }
}
