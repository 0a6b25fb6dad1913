//! What the trees of a plan have: triples that all solutions need, and expressions.
ghost use Rattle.std.specs.Prelude.{◌≡◌};
ghost use Rattle.sparql_algebra.specs.AlgebraOf.{algebra_of};
ghost use Rattle.needed_quads.specs.Needed.{needs_triples};

use sparql_algebra::{Expr, Operator};
use term_values::truth;

/// Returns whether no solution of the tree comes of a graph without triples.
pub(crate) fn needs_triples(tree: &Operator) -> bool
    ensures value { result ≡ needs_triples (algebra_of tree.now) }
{
    match tree {
        Operator::Pattern { triples, .. } => !triples.is_empty(),
        Operator::Join { left, right } => needs_triples(left) || needs_triples(right),
        Operator::Union { left, right } => needs_triples(left) && needs_triples(right),
        Operator::LeftJoin { left, .. } | Operator::Minus { left, .. } => needs_triples(left),
        Operator::Filter { inner, .. }
        | Operator::Extend { inner, .. }
        | Operator::Project { inner, .. }
        | Operator::Distinct { inner } => needs_triples(inner),
        Operator::Graph { .. } | Operator::Table { .. } => false,
    }
}

/// Returns whether the value of an expression can be an error. It cannot be that of an OPTIONAL without FILTER, a constant.
fn can_be_error(expression: &Expr) -> bool {
    match expression {
        Expr::Constant(term) => truth(term).is_none(),
        _ => true,
    }
}

/// Returns whether the tree has an expression whose errors a note may count.
pub(crate) fn has_expression(tree: &Operator) -> bool {
    match tree {
        Operator::Pattern { .. } | Operator::Table { .. } => false,
        Operator::Filter { .. } | Operator::Extend { .. } => true,
        Operator::LeftJoin {
            left,
            right,
            condition,
        } => can_be_error(condition) || has_expression(left) || has_expression(right),
        Operator::Join { left, right }
        | Operator::Union { left, right }
        | Operator::Minus { left, right } => has_expression(left) || has_expression(right),
        Operator::Graph { inner, .. }
        | Operator::Project { inner, .. }
        | Operator::Distinct { inner } => has_expression(inner),
    }
}

/// Returns whether no expression of the tree is evaluated over a row that comes of a graph without triples.
pub(crate) fn expressions_need_triples(tree: &Operator) -> bool {
    match tree {
        Operator::Pattern { .. } | Operator::Graph { .. } | Operator::Table { .. } => true,
        Operator::Filter { inner, .. } | Operator::Extend { inner, .. } => {
            needs_triples(inner) && expressions_need_triples(inner)
        }
        Operator::LeftJoin {
            left,
            right,
            condition,
        } => {
            (needs_triples(left) || needs_triples(right) || !can_be_error(condition))
                && expressions_need_triples(left)
                && expressions_need_triples(right)
        }
        Operator::Join { left, right }
        | Operator::Union { left, right }
        | Operator::Minus { left, right } => {
            expressions_need_triples(left) && expressions_need_triples(right)
        }
        Operator::Project { inner, .. } | Operator::Distinct { inner } => {
            expressions_need_triples(inner)
        }
    }
}
