//! Triple patterns of numbers.

/// One position of a triple pattern: the number of a variable, of a blank node label or of a term.
#[derive(Clone, Copy, Debug, PartialEq, Eq)]
pub enum PatternNumber {
    /// A variable of the query.
    Variable(usize),
    /// A blank node label of the pattern. It is bound like a variable, but it is not part of a
    /// solution.
    Label(usize),
    /// The number of a term.
    Term(u64),
}

/// A triple pattern of numbers (SPARQL 1.1 Query Language, section 18.1.5).
#[derive(Clone, Copy, Debug, PartialEq, Eq)]
pub struct NumberedTriple {
    /// The subject.
    pub subject: PatternNumber,
    /// The predicate.
    pub predicate: PatternNumber,
    /// The object.
    pub object: PatternNumber,
}
