//! Forms of trees, by which the evaluator chooses how to evaluate a tree. Each way gives the same solutions.
use crate::closed::is_closed;
use sparql_algebra::Operator;

/// Returns whether the tree is a basic graph pattern without triple patterns, with which each group
/// begins.
pub(crate) fn is_empty_pattern(tree: &Operator) -> bool {
    match tree {
        Operator::Pattern { triples, .. } => triples.is_empty(),
        _ => false,
    }
}

/// Returns whether a part of a group does not depend on the active graph, and can be evaluated once for all
/// graphs: either side of a join, the right side of an OPTIONAL or MINUS. Joins, unions, filters and
/// assignments after it do not count.
pub(crate) fn is_partly_closed(tree: &Operator) -> bool {
    match tree {
        Operator::Join { left, right } => {
            is_closed(right)
                || is_closed(left) && !is_empty_pattern(left)
                || is_partly_closed(left)
                || is_partly_closed(right)
        }
        Operator::LeftJoin { right, .. } => is_closed(right),
        Operator::Minus { right, .. } => is_closed(right),
        Operator::Union { left, right } => is_partly_closed(left) || is_partly_closed(right),
        Operator::Filter { inner, .. } => is_partly_closed(inner),
        Operator::Extend { inner, .. } => is_partly_closed(inner),
        _ => false,
    }
}
