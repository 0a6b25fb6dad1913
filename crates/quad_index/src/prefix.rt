//! The beginnings of the three orders: the places that a scan compares.

/// The graph, and the other places that are compared after it.
#[derive(Clone, Copy)]
pub(crate) enum Prefix {
    G,
    Gs,
    Gsp,
    Gspo,
    Gp,
    Gpo,
    Go,
    Gos,
}
