//! The shapes of quads that triple patterns can match.
ghost use Rattle.std.specs.Prelude.{◌≡◌, ◌&&◌, ◌∷◌, ◌++◌, [], Some, true, map, IfOk, OnOk};
ghost use Rattle.std.specs.List.{list_any};
ghost use Rattle.rdf_core.specs.QuadParts.{QuadParts};
ghost use Rattle.sparql_algebra.specs.AlgebraOf.{graph_name_of, pattern_term_of, triple_pattern_of};
ghost use Rattle.needed_quads.specs.Needed.{may_be, may_match, may_name};
ghost use Rattle.needed_quads.specs.Building.{AreAdded, AreNamesWanted, AreWanted, HasGraph, IsShapeOf, are_some};

use crate::forms::{copy_graph, only};
use crate::restricted::{Restricted, wanted_variable};
use quad_filter::{Shape, Wanted, WantedGraph};
use sparql_algebra::{GraphName, PatternTerm, TriplePattern};
use std::alloc::{AllocError, AllocFailed, Global};

/// The most shapes of a filter. A quad is compared with each of them.
const MOST_SHAPES: usize = 64;

/// Why no list of shapes was made.
#[derive(Clone, Copy)]
pub(crate) enum ShapeFault {
    /// There are too many shapes.
    TooMany,
    /// Out of memory.
    Memory,
}

impl From<AllocError> for ShapeFault {
    fn from(_failed: AllocError) -> ShapeFault {
        ShapeFault::Memory
    }
}

impl<T: Drop> From<AllocFailed<T>> for ShapeFault {
    fn from(_failed: AllocFailed<T>) -> ShapeFault {
        ShapeFault::Memory
    }
}

/// Adds the shapes of quads that triple patterns can match in these graphs.
pub(crate) fn add_triples(
    alloc: Global,
    triples: &[TriplePattern],
    graph: &WantedGraph,
    known: &[Restricted],
    shapes: &mut Vec<Shape>,
) -> Result<(), ShapeFault>
    ensures added { OnOk result (AreAdded
        (λ q here R. here && list_any (may_match R q) (map triple_pattern_of triples.now))
        graph.now known.now shapes.old.items shapes.new.items) }
{
    for triple in triples {
        let shape = shape_of(alloc, triple, graph, known)?;
        push_shape(shapes, shape)?;
    }
    Ok(())
}

/// Returns the shape of the quads that a triple pattern can match in these graphs.
fn shape_of(
    alloc: Global,
    triple: &TriplePattern,
    graph: &WantedGraph,
    known: &[Restricted],
) -> Result<Shape, AllocError>
    ensures shape { IfOk result (λ shape. IsShapeOf graph.now known.now triple.now shape) }
{
    let subject = wanted_place(alloc, &triple.subject, known)?;
    let predicate = wanted_place(alloc, &triple.predicate, known)?;
    let object = wanted_place(alloc, &triple.object, known)?;
    let graph = copy_graph(alloc, graph)?;
    Ok(Shape {
        subject,
        predicate,
        object,
        graph,
    })
}

/// Returns the terms that a place of a triple pattern can match.
fn wanted_place(
    alloc: Global,
    place: &PatternTerm,
    known: &[Restricted],
) -> Result<Wanted, AllocError>
    ensures wanted { IfOk result (λ wanted.
        AreWanted known.now (λ R t. may_be R (pattern_term_of place.now) t) wanted) }
{
    match place {
        PatternTerm::Variable(variable) => wanted_variable(alloc, known, *variable),
        PatternTerm::Label(_) => Ok(Wanted::Any),
        PatternTerm::Term(term) => only(alloc, term),
    }
}

/// Returns the graphs that a name after GRAPH can name.
pub(crate) fn wanted_graph(
    alloc: Global,
    name: &GraphName,
    known: &[Restricted],
) -> Result<WantedGraph, AllocError>
    ensures wanted { IfOk result (λ graph. AreNamesWanted known.now (graph_name_of name.now) graph) }
{
    Ok(WantedGraph::Named(wanted_names(alloc, name, known)?))
}

/// Returns the names that a name after GRAPH can be.
fn wanted_names(alloc: Global, name: &GraphName, known: &[Restricted]) -> Result<Wanted, AllocError>
    ensures wanted { IfOk result (λ wanted.
        AreWanted known.now (λ R t. may_name R (graph_name_of name.now) (Some t)) wanted) }
{
    match name {
        GraphName::Variable(variable) => wanted_variable(alloc, known, *variable),
        GraphName::Iri(iri) => only(alloc, iri),
    }
}

/// Adds the shape of all quads of these graphs.
pub(crate) fn add_graph(
    alloc: Global,
    graph: &WantedGraph,
    shapes: &mut Vec<Shape>,
) -> Result<(), ShapeFault>
    ensures kept { OnOk result ((q : QuadParts)
        → are_some shapes.old.items q ≡ true → are_some shapes.new.items q ≡ true) }
    ensures added { OnOk result (HasGraph graph.now shapes.new.items) }
{
    let graph = copy_graph(alloc, graph)?;
    push_shape(
        shapes,
        Shape {
            subject: Wanted::Any,
            predicate: Wanted::Any,
            object: Wanted::Any,
            graph,
        },
    )
}

/// Appends a shape.
fn push_shape(shapes: &mut Vec<Shape>, shape: Shape) -> Result<(), ShapeFault>
    ensures pushed { OnOk result (shapes.new.items ≡ shapes.old.items ++ shape ∷ []) }
{
    if shapes.len() >= MOST_SHAPES {
        return Err(ShapeFault::TooMany);
    }
    shapes.push(shape)?;
    Ok(())
}
