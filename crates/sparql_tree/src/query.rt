//! The tree of a query (SPARQL 1.1 Query Language, section 19.8, [7] `SelectQuery`).

use crate::group::Element;
use rdf_core::Text;

/// The projection of a query ([9] `SelectClause`).
pub enum Selection {
    /// `*`: the variables that are in scope
    All,
    /// The listed variables by their names, in their order; a name may occur twice
    Variables(Vec<Text>),
}

impl Drop for Selection {
    /// Written by hand (docs/PROOF.md).
    fn drop(self) {
        match self {
            Selection::All | Selection::Variables(_) => {}
        }
    }
}

/// A SELECT query as its text has it ([7] `SelectQuery`).
#[derive(Drop)]
pub struct Query {
    /// Whether the query has DISTINCT.
    pub distinct: bool,
    /// The variables after SELECT, or `*`.
    pub selection: Selection,
    /// The elements of the query's outermost group.
    pub group: Vec<Element>,
    /// The number of LIMIT. A number above 18446744073709551615 is replaced by that number.
    pub limit: Option<u64>,
    /// The number of OFFSET. It has the same bound.
    pub offset: Option<u64>,
    /// The name of each variable occurrence, in the order of the text. The occurrences in SELECT,
    /// FILTER, MINUS, VALUES and BIND are among them.
    pub mentioned: Vec<Text>,
}
