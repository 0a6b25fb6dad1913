//! The filter of a plan.
ghost use Rattle.std.specs.Prelude.{◌≡◌, All, List, true, false, [], None, IfOk, OnOk};
ghost use Rattle.std.specs.Option.{option_eq};
ghost use Rattle.rdf_core.specs.QuadParts.{QuadParts};
ghost use Rattle.rdf_core.specs.Equality.{term_eq};
ghost use Rattle.quad_filter.specs.Filter.{keeps};
ghost use Rattle.sparql_algebra.specs.AlgebraOf.{algebra_of};
ghost use Rattle.needed_quads.specs.Needed.{is_needed, needs_triples};
ghost use Rattle.needed_quads.specs.Restriction.{Restriction, restrictions};
ghost use Rattle.needed_quads.specs.Building.{AllowsOnly, AreAdded, AreRestricted, Covers, HasGraph, are_some};

use crate::restricted::{Restricted, add_restricted};
use crate::shapes::{ShapeFault, add_graph, add_triples, wanted_graph};
use crate::trees::{expressions_need_triples, has_expression, needs_triples};
use quad_filter::{QuadFilter, Shape, WantedGraph};
use sparql_algebra::{Operator, Plan};
use std::alloc::{AllocError, Global};

/// Returns a filter that keeps each quad that the solutions of a plan need.
///
/// It may keep others: if a query has many triple patterns, or VALUES many terms, the filter keeps every quad, or every term at
/// a position. It also keeps the quads of rows over which an expression is evaluated, since notes count its errors.
///
/// # Errors
/// `AllocError` if an allocation fails.
pub fn filter_of(alloc: Global, plan: &Plan) -> Result<QuadFilter, AllocError>
    ensures needed { IfOk result (λ filter. (q : QuadParts)
        → is_needed q (option_eq term_eq q.g None) [] (algebra_of plan.now.tree) ≡ true
        → keeps filter q ≡ true) }
{
    let graph = WantedGraph::Default;
    let mut known = Vec::new(alloc);
    let mut shapes = Vec::new(alloc);
    match add_tree(alloc, &plan.tree, &graph, &mut known, false, &mut shapes) {
        Ok(()) => Ok(QuadFilter::AnyOf(shapes)),
        Err(ShapeFault::TooMany) => Ok(QuadFilter::All),
        Err(ShapeFault::Memory) => Err(AllocError),
    }
}

/// Adds the shapes of the quads that a tree needs in these graphs, and in those that it names.
///
/// The solutions that fit what is known of variables are those that matter. Nothing is known if an expression is in the tree,
/// but for a GRAPH, whose names alone are then restricted. `is_known` is whether `known` has the variables that the tree restricts
/// already, as an input of a Join.
fn add_tree(
    alloc: Global,
    tree: &Operator,
    graph: &WantedGraph,
    known: &mut Vec<Restricted>,
    is_known: bool,
    shapes: &mut Vec<Shape>,
) -> Result<(), ShapeFault>
    ensures added { OnOk result (AreAdded (λ q here R. is_needed q here R (algebra_of tree.now))
        graph.now known.old.items shapes.old.items shapes.new.items) }
    ensures known { OnOk result (known.new.items ≡ known.old.items) }
{
    match tree {
        Operator::Pattern { triples, .. } => {
            add_triples(alloc, triples.as_slice(), graph, known.as_slice(), shapes)
        }
        Operator::Join { left, right } => {
            let outer = known.len();
            let are_known = add_unless(is_known, alloc, tree, known)?;
            add_tree(alloc, left, graph, known, are_known, shapes)?;
            add_before(are_known, alloc, left, right, known)?;
            add_tree(alloc, right, graph, known, are_known, shapes)?;
            known.truncate(outer);
            Ok(())
        }
        Operator::LeftJoin { left, right, .. } | Operator::Minus { left, right } => {
            add_tree(alloc, left, graph, known, false, shapes)?;
            let mut inner = restricted_before(alloc, left, right)?;
            add_tree(alloc, right, graph, &mut inner, false, shapes)
        }
        Operator::Union { left, right } => {
            add_tree(alloc, left, graph, known, false, shapes)?;
            add_tree(alloc, right, graph, known, false, shapes)
        }
        Operator::Graph { name, inner } => {
            let names = wanted_graph(alloc, name, known.as_slice())?;
            add_whole(alloc, inner, &names, shapes)?;
            if !known.is_empty() && has_expression(inner) {
                let mut none = Vec::new(alloc);
                return add_tree(alloc, inner, &names, &mut none, false, shapes);
            }
            add_tree(alloc, inner, &names, known, false, shapes)
        }
        Operator::Filter { inner, .. } | Operator::Extend { inner, .. } => {
            add_tree(alloc, inner, graph, known, false, shapes)
        }
        Operator::Project { inner, .. } | Operator::Distinct { inner } => {
            let mut none = Vec::new(alloc);
            add_tree(alloc, inner, graph, &mut none, false, shapes)
        }
        Operator::Table { .. } => Ok(()),
    }
}

/// Adds the variables that a tree restricts, unless they are known already or an expression is in the tree.
///
/// Returns whether `known` has all of them.
fn add_unless(
    are_known: bool,
    alloc: Global,
    tree: &Operator,
    known: &mut Vec<Restricted>,
) -> Result<bool, AllocError>
    ensures restricted { OnOk result
        (AreRestricted (restrictions (algebra_of tree.now)) known.old.items known.new.items) }
{
    if are_known {
        return Ok(true);
    }
    let outer = known.len();
    add_restricted(alloc, tree, known)?;
    if known.len() > outer && has_expression(tree) {
        known.truncate(outer);
        return Ok(false);
    }
    Ok(true)
}

/// Adds the variables that a tree restricts for another one that is evaluated after it, unless they are known already.
///
/// If an expression is in the other tree, it is evaluated over rows that the first tree excludes, too. So nothing is added then,
/// but for a GRAPH, which goes over the names alone that the rows of the first tree have.
fn add_before(
    are_known: bool,
    alloc: Global,
    first: &Operator,
    second: &Operator,
    known: &mut Vec<Restricted>,
) -> Result<(), AllocError>
    ensures restricted { OnOk result
        (AreRestricted (restrictions (algebra_of first.now)) known.old.items known.new.items) }
{
    if are_known {
        return Ok(());
    }
    let outer = known.len();
    add_restricted(alloc, first, known)?;
    if known.len() > outer && !is_graph(second) && has_expression(second) {
        known.truncate(outer);
    }
    Ok(())
}

/// Returns the variables that a tree restricts for another one that is evaluated after it.
fn restricted_before(
    alloc: Global,
    first: &Operator,
    second: &Operator,
) -> Result<Vec<Restricted>, AllocError>
    ensures covered { IfOk result (λ known. (R : List Restriction)
        → AllowsOnly (restrictions (algebra_of first.now)) R → All (Covers R) known.items) }
{
    let mut known = Vec::new(alloc);
    add_before(false, alloc, first, second, &mut known)?;
    Ok(known)
}

/// Adds the shape of all quads of these graphs, if a solution of the tree, or a row of one of its expressions, may come of a
/// graph without triples.
fn add_whole(
    alloc: Global,
    tree: &Operator,
    graph: &WantedGraph,
    shapes: &mut Vec<Shape>,
) -> Result<(), ShapeFault>
    ensures kept { OnOk result ((q : QuadParts)
        → are_some shapes.old.items q ≡ true → are_some shapes.new.items q ≡ true) }
    ensures added { OnOk result (needs_triples (algebra_of tree.now) ≡ false
        → HasGraph graph.now shapes.new.items) }
{
    if needs_triples(tree) && expressions_need_triples(tree) {
        return Ok(());
    }
    add_graph(alloc, graph, shapes)
}

/// Returns whether a tree is a GRAPH.
fn is_graph(tree: &Operator) -> bool {
    matches!(tree, Operator::Graph { .. })
}
