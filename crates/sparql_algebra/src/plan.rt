//! A plan: the names of the variables, and the tree of operators over their numbers.
ghost use Rattle.std.specs.Prelude.{◌≡◌, length, true};
ghost use Rattle.algebra_model.specs.Algebra.{is_within};
ghost use Rattle.sparql_algebra.specs.AlgebraOf.{algebra_of};
ghost use Rattle.sparql_algebra.specs.Projected.{projected, top_projected};

use crate::operator::Operator;
use rdf_core::Text;

/// A translated query (SPARQL 1.1 Query Language, section 18.2).
///
/// A variable is a number, and `names` has its name at that index, without `?` or `$`. Every
/// variable that the tree binds or lists has a name. Every blank node label of a pattern is below
/// the pattern's number of labels.
#[derive(Drop)]
pub struct Plan {
    /// The name of each variable, without `?` or `$`.
    pub names: Vec<Text>,
    /// The operators over the numbers of the variables.
    pub tree: Operator,
    pub ghost within: { is_within (length names.items) (algebra_of tree) ≡ true },
}

impl Plan {
    /// Returns the projected variables, in the order of the results.
    ///
    /// They are those of the Project at the root, or of the one directly below a Distinct at the
    /// root. A tree without one there has none.
    pub fn projected(&self) -> &[usize]
        ensures listed { result.now ≡ projected (algebra_of self.now.tree) }
    {
        match &self.tree {
            Operator::Distinct { inner } => top_projected(inner),
            Operator::Pattern { .. }
            | Operator::Join { .. }
            | Operator::LeftJoin { .. }
            | Operator::Union { .. }
            | Operator::Minus { .. }
            | Operator::Graph { .. }
            | Operator::Filter { .. }
            | Operator::Extend { .. }
            | Operator::Project { .. }
            | Operator::Table { .. } => top_projected(&self.tree),
        }
    }
}

/// Returns the variables of a Project at the root, and none for another operator.
fn top_projected(tree: &Operator) -> &[usize]
    ensures listed { result.now ≡ top_projected (algebra_of tree.now) }
{
    match tree {
        Operator::Project { variables, .. } => variables.as_slice(),
        Operator::Pattern { .. }
        | Operator::Join { .. }
        | Operator::LeftJoin { .. }
        | Operator::Union { .. }
        | Operator::Minus { .. }
        | Operator::Graph { .. }
        | Operator::Filter { .. }
        | Operator::Extend { .. }
        | Operator::Distinct { .. }
        | Operator::Table { .. } => &[],
    }
}
