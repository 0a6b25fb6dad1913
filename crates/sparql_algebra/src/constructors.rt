//! Operators in boxes. Each input is in a box of its own, so the code that builds a tree owns one
//! box at a time.
ghost use Rattle.std.specs.Prelude.{◌≡◌, IfOk};
ghost use Rattle.algebra_model.specs.Algebra.{Distinct, Graph, Project};
ghost use Rattle.sparql_algebra.specs.AlgebraOf.{algebra_of, graph_name_of};
ghost use Rattle.sparql_algebra.specs.Translation.{empty_pattern};

use crate::operator::{GraphName, Operator};
use std::alloc::{AllocError, Global};

/// Puts a tree into a box.
///
/// # Errors
/// `AllocError` if an allocation fails. The tree is dropped.
pub fn boxed(alloc: Global, tree: Operator) -> Result<Box<Operator>, AllocError>
    ensures tree { IfOk result (λ made. made.value ≡ tree) }
{
    Ok(Box::new(alloc, tree)?)
}

/// Creates the empty basic graph pattern.
pub fn empty_pattern(alloc: Global) -> Result<Box<Operator>, AllocError>
    ensures operator { IfOk result (λ made. algebra_of made.value ≡ empty_pattern) }
{
    let tree = Operator::Pattern {
        labels: 0,
        triples: Vec::new(alloc),
    };
    boxed(alloc, tree)
}

pub fn project(
    alloc: Global,
    variables: Vec<usize>,
    inner: Box<Operator>,
) -> Result<Box<Operator>, AllocError>
    ensures operator { IfOk result
        (λ made. algebra_of made.value ≡ Project variables.items (algebra_of inner.value)) }
{
    boxed(alloc, Operator::Project { variables, inner })
}

pub fn distinct(alloc: Global, inner: Box<Operator>) -> Result<Box<Operator>, AllocError>
    ensures operator { IfOk result (λ made. algebra_of made.value ≡ Distinct (algebra_of inner.value)) }
{
    boxed(alloc, Operator::Distinct { inner })
}

pub fn graph(
    alloc: Global,
    name: GraphName,
    inner: Box<Operator>,
) -> Result<Box<Operator>, AllocError>
    ensures operator { IfOk result
        (λ made. algebra_of made.value ≡ Graph (graph_name_of name) (algebra_of inner.value)) }
{
    boxed(alloc, Operator::Graph { name, inner })
}
