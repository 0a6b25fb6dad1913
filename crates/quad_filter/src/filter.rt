//! A filter of quads.

/// The terms that are wanted at a position of a quad.
pub enum Wanted {
    /// Every term.
    Any,
    /// The terms with these N-Quads forms.
    OneOf(Vec<Vec<u8>>),
}

impl Drop for Wanted {
    /// Frees the forms. Written by hand (docs/PROOF.md).
    fn drop(self) {
        match self {
            Wanted::Any | Wanted::OneOf(_) => {}
        }
    }
}

/// The graphs that are wanted.
pub enum WantedGraph {
    /// The default graph.
    Default,
    /// The named graphs with these names.
    Named(Wanted),
}

impl Drop for WantedGraph {
    /// Frees the names. Written by hand (docs/PROOF.md).
    fn drop(self) {
        match self {
            WantedGraph::Default | WantedGraph::Named(_) => {}
        }
    }
}

/// The shape of quads: what is wanted at each position.
pub struct Shape {
    /// The subjects that are wanted.
    pub subject: Wanted,
    /// The predicates that are wanted.
    pub predicate: Wanted,
    /// The objects that are wanted.
    pub object: Wanted,
    /// The graphs that are wanted.
    pub graph: WantedGraph,
}

impl Drop for Shape {
    /// Frees the forms. Written by hand (docs/PROOF.md).
    fn drop(self) {
        let Shape {
            subject: _,
            predicate: _,
            object: _,
            graph: _,
        } = self;
    }
}

/// A filter of quads.
pub enum QuadFilter {
    /// Keeps every quad.
    All,
    /// Keeps the quads that have one of these shapes.
    AnyOf(Vec<Shape>),
}

impl Drop for QuadFilter {
    /// Frees the shapes. Written by hand (docs/PROOF.md).
    fn drop(self) {
        match self {
            QuadFilter::All | QuadFilter::AnyOf(_) => {}
        }
    }
}
