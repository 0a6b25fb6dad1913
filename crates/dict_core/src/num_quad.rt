//! Quads of numbers.

/// A quad as numbers of a dictionary: its graph name, None for the default graph, and its subject,
/// predicate and object.
#[derive(Clone, Copy, PartialEq, Eq)]
pub struct NumQuad {
    /// The number of the graph name.
    pub g: Option<u64>,
    /// The number of the subject.
    pub s: u64,
    /// The number of the predicate.
    pub p: u64,
    /// The number of the object.
    pub o: u64,
}
