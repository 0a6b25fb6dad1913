//! How a dataset is split into parts.

/// How a dataset is split into parts.
#[derive(Clone, Copy)]
pub enum Split {
    /// No quad is in two parts.
    Lines,
    /// No subject is in two parts.
    Subject,
    /// No named graph is in two parts.
    Graph,
    /// No named graph is in two parts, and each part has the whole default graph.
    GraphWithDefault,
}
