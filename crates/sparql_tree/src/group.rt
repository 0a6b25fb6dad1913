//! The tree of a group of patterns (SPARQL 1.1 Query Language, section 19.8,
//! [53] `GroupGraphPattern`).

use crate::expression::Expression;
use rdf_core::{Term, Text};

/// One position of a triple pattern ([106] `VarOrTerm`).
pub enum VarOrTerm {
    /// `?name` or `$name`, by the name without its first character
    Variable(Text),
    /// `_:label`, by the label without `_:`, or `[]`, by a label that occurs nowhere in the text
    Blank(Text),
    /// An IRI or a literal
    Term(Term),
}

impl Drop for VarOrTerm {
    /// Written by hand (docs/PROOF.md).
    fn drop(self) {
        match self {
            VarOrTerm::Variable(_) | VarOrTerm::Blank(_) | VarOrTerm::Term(_) => {}
        }
    }
}

/// A triple pattern. In the trees that `sparql_read` makes, its predicate is a variable or an IRI.
#[derive(Drop)]
pub struct Triple {
    /// The subject.
    pub subject: VarOrTerm,
    /// The predicate.
    pub predicate: VarOrTerm,
    /// The object.
    pub object: VarOrTerm,
}

/// The name after GRAPH ([107] `VarOrIri`).
pub enum VarOrIri {
    /// By the name without `?` or `$`
    Variable(Text),
    /// By its text
    Iri(Text),
}

impl Drop for VarOrIri {
    /// Implemented by hand, like the `Drop` of [`VarOrTerm`].
    fn drop(self) {
        match self {
            VarOrIri::Variable(_) | VarOrIri::Iri(_) => {}
        }
    }
}

/// An element of a group. A group is the list of its elements, in the order of the text.
pub enum Element {
    /// A sequence of triple patterns without another element between them ([55] `TriplesBlock`),
    /// with `;` and `,` expanded
    Triples(Vec<Triple>),
    /// `{ .. }` ([53] `GroupGraphPattern`)
    Group(Vec<Element>),
    /// `left UNION { .. }`, where the left side is a group or a union
    /// ([67] `GroupOrUnionGraphPattern`)
    Union(Box<Element>, Vec<Element>),
    /// `OPTIONAL { .. }` ([57] `OptionalGraphPattern`)
    Optional(Vec<Element>),
    /// `MINUS { .. }` ([66] `MinusGraphPattern`)
    Minus(Vec<Element>),
    /// `GRAPH name { .. }` ([58] `GraphGraphPattern`)
    Graph(VarOrIri, Vec<Element>),
    /// `FILTER (..)`, or a call without parentheses around it ([68] `Filter`)
    Filter(Expression),
    /// `BIND (.. AS ?name)` ([60] `Bind`)
    Bind(Expression, Text),
    /// `VALUES (?name ..) { (..) .. }` ([61] `InlineData`): the names, and rows with one cell for
    /// each name; None is UNDEF
    Values(Vec<Text>, Vec<Vec<Option<Term>>>),
}

impl Drop for Element {
    /// Drops the left sides of UNION in a loop, so that a long chain needs no deep stack.
    fn drop(mut self) {
        loop {
            match self {
                Element::Union(left, _right) => self = Box::into_inner(left),
                Element::Triples(_)
                | Element::Group(_)
                | Element::Optional(_)
                | Element::Minus(_)
                | Element::Graph(_, _)
                | Element::Filter(_)
                | Element::Bind(_, _)
                | Element::Values(_, _) => return,
            }
        }
    }
}
