//! RDF quads (RDF 1.1 Concepts, sections 3.1 and 4).
ghost use Rattle.std.specs.Prelude.{◌≡◌, IfOk, Some, None, true, MatchOption};
ghost use Rattle.rdf_core.specs.QuadFacts.{is_node, is_iri, is_graph_name};

use crate::term::Term;
use std::alloc::{AllocError, Global};

/// A statement: subject, predicate, object, and the name of its graph unless it is in the default
/// graph.
///
/// Every value of the type satisfies an invariant: the subject and the graph name are not literals,
/// and the predicate is an IRI (RDF 1.1 Concepts, sections 3.1 and 4).
#[derive(Drop, PartialEq, Eq)]
pub struct Quad {
    /// The subject.
    pub s: Term,
    /// The predicate.
    pub p: Term,
    /// The object.
    pub o: Term,
    /// The graph name, or None for the default graph.
    pub g: Option<Term>,
    pub ghost subject: { is_node s ≡ true },
    pub ghost predicate: { is_iri p ≡ true },
    pub ghost graph: { is_graph_name g ≡ true },
}

impl Quad {
    /// Returns the quad of these terms. Returns None and drops the terms if the subject or the
    /// graph name is a literal, or if the predicate is not an IRI.
    pub fn of(s: Term, p: Term, o: Term, g: Option<Term>) -> Option<Quad>
        ensures quad { MatchOption result
            (((is_node s ≡ true) × (is_iri p ≡ true) × (is_graph_name g ≡ true)) → ⊥)
            (λ q. (q.s ≡ s) × (q.p ≡ p) × (q.o ≡ o) × (q.g ≡ g)) }
    {
        if !is_node(&s) || !is_iri(&p) {
            return None;
        }
        if let Some(name) = &g
            && !is_node(name)
        {
            return None;
        }
        Some(Quad { s, p, o, g })
    }

    /// Returns an equal quad that owns its texts.
    ///
    /// # Errors
    /// `AllocError` if an allocation fails. The quad is unchanged.
    pub fn copy(&self, alloc: Global) -> Result<Quad, AllocError>
        ensures equal { IfOk result (λ q. q ≡ self.now) }
    {
        let s = self.s.copy(alloc)?;
        let p = self.p.copy(alloc)?;
        let o = self.o.copy(alloc)?;
        let g = match &self.g {
            Some(g) => Some(g.copy(alloc)?),
            None => None,
        };
        Ok(Quad { s, p, o, g })
    }
}

/// Returns whether a term may be a subject or a graph name, that is, whether it is not a literal.
pub fn is_node(term: &Term) -> bool
    ensures value { result ≡ is_node term.now }
{
    !matches!(term, Term::Literal { .. })
}

/// Returns whether a term may be a predicate, that is, whether it is an IRI.
pub fn is_iri(term: &Term) -> bool
    ensures value { result ≡ is_iri term.now }
{
    matches!(term, Term::Iri(_))
}
