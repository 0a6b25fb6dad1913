//! The result of the parser.

use sparql_tree::{Element, Selection};

/// A query as in its text, without the list of all its variables.
#[derive(Drop)]
pub struct Select {
    /// Whether the query has DISTINCT.
    pub distinct: bool,
    /// The variables after SELECT, or `*`.
    pub selection: Selection,
    /// The elements of the query's outermost group.
    pub group: Vec<Element>,
    /// The number of LIMIT. A number above 18446744073709551615 is replaced by that number.
    pub limit: Option<u64>,
    /// The number of OFFSET. It has the same bound.
    pub offset: Option<u64>,
}
