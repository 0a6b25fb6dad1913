//! A statement as slices of a document. No term is decoded, and none is checked.

/// The slices of a statement, one for each term, without the blanks around it.
///
/// A slice may denote no term (an invalid escape, an IRI without a scheme), or a term that is not allowed at its place.
/// [`read_term`](crate::read_term) reads the term of a slice.
#[derive(Clone, Copy)]
pub struct RawStatement<'a> {
    /// The subject, an IRI or a blank node label.
    pub subject: &'a str,
    /// The predicate, an IRI.
    pub predicate: &'a str,
    /// The object, an IRI, a blank node label or a literal with its language tag or datatype.
    pub object: &'a str,
    /// The graph label, an IRI or a blank node label, or `None` in the default graph.
    pub graph: Option<&'a str>,
}
