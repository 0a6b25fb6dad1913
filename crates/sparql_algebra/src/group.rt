//! The translation of a group graph pattern, element by element (SPARQL 1.1 Query Language, section
//! 18.2.2).
ghost use Rattle.std.specs.Prelude.{◌≡◌, IfOk};
ghost use Rattle.sparql_tree.specs.GroupTree.{element_of, group_of, optional};
ghost use Rattle.algebra_model.specs.Algebra.{Graph, Union};
ghost use Rattle.sparql_algebra.specs.Added.{added};
ghost use Rattle.sparql_algebra.specs.AlgebraOf.{algebra_of, graph_name_of};
ghost use Rattle.sparql_algebra.specs.PartOf.{part_of};
ghost use Rattle.sparql_algebra.specs.Translation.{Part as GroupPart, add_element, group_part, translate_graph_name, translate_group, translate_side};

use crate::addition::{Addition, with_addition};
use crate::constructors::{boxed, empty_pattern, graph};
use crate::conversion::convert_boxed;
use crate::names::Names;
use crate::operation::Operation;
use crate::operator::{self, Operator};
use crate::part::Part;
use crate::table::convert_table;
use rdf_core::Term;
use sparql_tree::{Element, VarOrIri};
use std::alloc::{AllocError, Global};

/// Translates a group ([53] `GroupGraphPattern`) into its operator.
///
/// # Errors
/// `AllocError` if an allocation fails.
#[cycle(group)]
pub fn convert_group(
    alloc: Global,
    names: &Names,
    group: &[Element],
) -> Result<Box<Operator>, AllocError>
    ensures operator { IfOk result
        (λ made. algebra_of made.value ≡ translate_group names.now (group_of group.now)) }
{
    read_group(alloc, names, group)?.finish(alloc, names)
}

#[cycle(group)]
fn read_group<'a>(
    alloc: Global,
    names: &Names,
    group: &'a [Element],
) -> Result<Part<'a>, AllocError>
    ensures part { IfOk result
        (λ part. part_of part ≡ group_part names.now (group_of group.entry.now)) }
{
    let mut part = Part::new(alloc)?;
    for element in group {
        let addition = read_element(alloc, names, element)?;
        part = with_addition(alloc, names, part, addition)?;
    }
    Ok(part)
}

/// Translates an element of a group into its addition to the group. Elements are triples ([55]
/// `TriplesBlock`), filters ([68] `Filter`) and the other patterns ([56] `GraphPatternNotTriples`).
#[cycle(group)]
fn read_element<'a>(
    alloc: Global,
    names: &Names,
    element: &'a Element,
) -> Result<Addition<'a>, AllocError>
    ensures addition { IfOk result (λ addition. (p : GroupPart) →
        added names.now p addition ≡ add_element names.now p (element_of element.entry.now)) }
{
    match element {
        Element::Triples(triples) => Ok(Addition::Triples(triples)),
        Element::Filter(filter) => Ok(Addition::Filter(convert_boxed(alloc, names, filter)?)),
        Element::Bind(value, variable) => {
            let value = convert_boxed(alloc, names, value)?;
            Ok(Addition::Operation(Operation::Extend(names.number(variable), value)))
        }
        Element::Optional(group) => read_optional(alloc, names, group),
        Element::Minus(group) => {
            let right = convert_group(alloc, names, group)?;
            Ok(Addition::Operation(Operation::Minus(right)))
        }
        Element::Group(_) | Element::Union(_, _) => {
            let right = convert_side(alloc, names, element)?;
            Ok(Addition::Operation(Operation::Join(right)))
        }
        Element::Graph(name, group) => {
            let right = convert_graph(alloc, names, name, group)?;
            Ok(Addition::Operation(Operation::Join(right)))
        }
        Element::Values(variables, rows) => {
            let right = convert_table(alloc, names, variables, rows)?;
            Ok(Addition::Operation(Operation::Join(right)))
        }
    }
}

/// Translates an OPTIONAL ([57] `OptionalGraphPattern`): its group's pattern is the right side, and
/// the filters of the group are the condition.
#[cycle(group)]
fn read_optional<'a>(
    alloc: Global,
    names: &Names,
    group: &[Element],
) -> Result<Addition<'a>, AllocError>
    ensures addition { IfOk result (λ addition. (p : GroupPart) →
        added names.now p addition ≡ add_element names.now p (optional (group_of group.now))) }
{
    let operation = read_group(alloc, names, group)?.into_optional(alloc, names)?;
    Ok(Addition::Operation(operation))
}

/// Translates a side of a UNION ([67] `GroupOrUnionGraphPattern`), which is a group or a UNION
/// itself.
#[cycle(group)]
fn convert_side(alloc: Global, names: &Names, side: &Element) -> Result<Box<Operator>, AllocError>
    ensures operator { IfOk result
        (λ made. algebra_of made.value ≡ translate_side names.now (element_of side.now)) }
{
    match side {
        Element::Group(group) => convert_group(alloc, names, group),
        Element::Union(left, right) => {
            let left = convert_side(alloc, names, left)?;
            convert_union(alloc, names, right, left)
        }
        Element::Triples(_)
        | Element::Optional(_)
        | Element::Minus(_)
        | Element::Graph(_, _)
        | Element::Filter(_)
        | Element::Bind(_, _)
        | Element::Values(_, _) => empty_pattern(alloc),
    }
}

/// Translates `left UNION { right }`; the left side is translated already.
#[cycle(group)]
fn convert_union(
    alloc: Global,
    names: &Names,
    right: &[Element],
    left: Box<Operator>,
) -> Result<Box<Operator>, AllocError>
    ensures operator { IfOk result (λ made. algebra_of made.value
        ≡ Union (algebra_of left.value) (translate_group names.now (group_of right.now))) }
{
    let right = convert_group(alloc, names, right)?;
    boxed(alloc, Operator::Union { left, right })
}

/// Translates `GRAPH name { group }` ([58] `GraphGraphPattern`).
#[cycle(group)]
fn convert_graph(
    alloc: Global,
    names: &Names,
    name: &VarOrIri,
    group: &[Element],
) -> Result<Box<Operator>, AllocError>
    ensures operator { IfOk result (λ made. algebra_of made.value
        ≡ Graph (translate_graph_name names.now name.now) (translate_group names.now (group_of group.now))) }
{
    let name = convert_graph_name(alloc, names, name)?;
    let inner = convert_group(alloc, names, group)?;
    graph(alloc, name, inner)
}

fn convert_graph_name(
    alloc: Global,
    names: &Names,
    name: &VarOrIri,
) -> Result<operator::GraphName, AllocError>
    ensures name { IfOk result
        (λ made. graph_name_of made ≡ translate_graph_name names.now name.now) }
{
    match name {
        VarOrIri::Variable(variable) => {
            Ok(operator::GraphName::Variable(names.number(variable)))
        }
        VarOrIri::Iri(iri) => Ok(operator::GraphName::Iri(Term::Iri(iri.copy(alloc)?))),
    }
}
