//! Trees whose solutions do not depend on the active graph.
ghost use Rattle.std.specs.Prelude.{◌≡◌, ◌<◌, ◌&&◌, not};
ghost use Rattle.algebra_model.specs.Closed.{is_closed};
ghost use Rattle.sparql_algebra.specs.AlgebraOf.{algebra_of};
ghost use Rattle.sparql_eval.specs.Mentions.{may_bind};

use crate::mentions::may_bind;
use sparql_algebra::Operator;

/// Returns whether no triple pattern of the tree is outside of a GRAPH. The tree then has the same
/// solutions for every active graph.
pub(crate) fn is_closed(tree: &Operator) -> bool
    ensures value { result ≡ is_closed (algebra_of tree.now) }
{
    match tree {
        Operator::Pattern { triples, .. } => triples.is_empty(),
        Operator::Join { left, right } => is_closed(right) && is_closed(left),
        Operator::LeftJoin { left, right, .. } => is_closed(right) && is_closed(left),
        Operator::Union { left, right } => is_closed(right) && is_closed(left),
        Operator::Minus { left, right } => is_closed(right) && is_closed(left),
        Operator::Graph { .. } => true,
        Operator::Filter { inner, .. } => is_closed(inner),
        Operator::Extend { inner, .. } => is_closed(inner),
        Operator::Project { inner, .. } => is_closed(inner),
        Operator::Distinct { inner } => is_closed(inner),
        Operator::Table { .. } => true,
    }
}

/// Returns whether the solutions of the tree do not depend on the active graph, and do not bind the
/// variable.
pub(crate) fn is_apart(tree: &Operator, width: usize, variable: usize) -> bool
    requires variable { variable < width }
    ensures value { result ≡ (is_closed (algebra_of tree.now)
        && not (may_bind width (algebra_of tree.now) variable)) }
{
    is_closed(tree) && !may_bind(tree, width, variable)
}
