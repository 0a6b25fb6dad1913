//! Blank node labels, and the basic graph patterns in which they occur (SPARQL 1.1 Query Language,
//! section 5.1.1).

ghost use Rattle.std.specs.Prelude.{◌≡◌, [], ◌∷◌, IfOk};
ghost use Rattle.sparql_tree.specs.GroupTree.{element_of, group_of};
ghost use Rattle.sparql_tree.specs.BlankReuse.{basic_patterns, ends_run, labels_of, patterns_inside, place_labels, reuses_blank, triple_labels};
ghost use Rattle.sparql_read.specs.LabelSteps.{AddsElement, AddsLabels, AddsPatterns, run_of};

use crate::name_set::NameSet;
use sparql_tree::{Element, Triple, VarOrTerm};
use std::alloc::{AllocError, Global};
use std::mem::replace;

/// Adds the label at one position of a triple to those of its pattern. Returns false if it occurs
/// in an earlier pattern.
fn add_place(
    alloc: Global,
    earlier: &NameSet,
    labels: &mut NameSet,
    place: &VarOrTerm,
) -> Result<bool, AllocError>
    ensures labels { IfOk result (λ fits. AddsLabels earlier.now (place_labels place.now) fits labels.old labels.new) }
{
    match place {
        VarOrTerm::Blank(label) => {
            if earlier.has(label) {
                return Ok(false);
            }
            labels.add(label.copy(alloc)?)?;
            Ok(true)
        }
        _ => Ok(true),
    }
}

fn add_triple(
    alloc: Global,
    earlier: &NameSet,
    labels: &mut NameSet,
    triple: &Triple,
) -> Result<bool, AllocError>
    ensures labels { IfOk result (λ fits. AddsLabels earlier.now (triple_labels triple.now) fits labels.old labels.new) }
{
    if !add_place(alloc, earlier, labels, &triple.subject)? {
        return Ok(false);
    }
    if !add_place(alloc, earlier, labels, &triple.predicate)? {
        return Ok(false);
    }
    add_place(alloc, earlier, labels, &triple.object)
}

/// Adds the labels of triples to those of their pattern. Returns false if one occurs in an earlier
/// pattern.
fn add_triples(
    alloc: Global,
    earlier: &NameSet,
    labels: &mut NameSet,
    triples: &[Triple],
) -> Result<bool, AllocError>
    ensures labels { IfOk result (λ fits. AddsLabels earlier.now (labels_of triples.now) fits labels.old labels.new) }
{
    for triple in triples {
        if !add_triple(alloc, earlier, labels, triple)? {
            return Ok(false);
        }
    }
    Ok(true)
}

/// Adds the labels of one basic graph pattern. Returns false if one of them occurs in an earlier
/// pattern.
fn add_pattern(alloc: Global, earlier: &mut NameSet, triples: &[Triple]) -> Result<bool, AllocError>
    ensures labels { IfOk result (λ fits. AddsPatterns (triples.now ∷ []) fits earlier.old earlier.new) }
{
    let mut labels = NameSet::new(alloc);
    if !add_triples(alloc, earlier, &mut labels, triples)? {
        return Ok(false);
    }
    earlier.absorb(labels)?;
    Ok(true)
}

/// Adds the labels of the basic graph patterns on the left side of a UNION. Returns false if one
/// occurs in two patterns. A loop adds the groups of a chain from the last to the first, so that a
/// long chain needs no deeper stack.
#[cycle(labels)]
fn add_left(alloc: Global, earlier: &mut NameSet, left: &Element) -> Result<bool, AllocError>
    ensures labels { IfOk result (λ fits. AddsPatterns (patterns_inside (element_of left.now)) fits earlier.old earlier.new) }
{
    let mut rest = left;
    'groups: while let Element::Union(left, right) = rest {
        if !add_group(alloc, earlier, right)? {
            return Ok(false);
        }
        rest = left;
    }
    add_inside(alloc, earlier, rest)
}

/// Adds the labels of the basic graph patterns inside an element. Returns false if one occurs in
/// two patterns.
#[cycle(labels)]
fn add_inside(alloc: Global, earlier: &mut NameSet, element: &Element) -> Result<bool, AllocError>
    ensures labels { IfOk result (λ fits. AddsPatterns (patterns_inside (element_of element.now)) fits earlier.old earlier.new) }
{
    match element {
        Element::Triples(triples) => add_pattern(alloc, earlier, triples),
        Element::Group(elements) => add_group(alloc, earlier, elements),
        Element::Union(left, right) => {
            if !add_group(alloc, earlier, right)? {
                return Ok(false);
            }
            add_left(alloc, earlier, left)
        }
        Element::Optional(elements) => add_group(alloc, earlier, elements),
        Element::Minus(elements) => add_group(alloc, earlier, elements),
        Element::Graph(_, elements) => add_group(alloc, earlier, elements),
        Element::Filter(_) => Ok(true),
        Element::Bind(_, _) => Ok(true),
        Element::Values(_, _) => Ok(true),
    }
}

/// Returns whether the element ends the run of triples before it. Every element except FILTER and
/// triples does.
fn ends_run(element: &Element) -> bool
    ensures value { result ≡ ends_run (element_of element.now) }
{
    match element {
        Element::Triples(_) => false,
        Element::Filter(_) => false,
        _ => true,
    }
}

/// Adds the labels of triples that continue the run before them.
fn add_run(
    alloc: Global,
    earlier: &NameSet,
    labels: &mut NameSet,
    element: &Element,
) -> Result<bool, AllocError>
    ensures labels { IfOk result (λ fits. AddsLabels earlier.now (labels_of (run_of (element_of element.now))) fits labels.old labels.new) }
{
    match element {
        Element::Triples(triples) => add_triples(alloc, earlier, labels, triples),
        _ => Ok(true),
    }
}

/// Adds the labels of an element, given the labels of the run before it. Returns false if one
/// occurs in two patterns.
#[cycle(labels)]
fn add_element(
    alloc: Global,
    earlier: &mut NameSet,
    labels: &mut NameSet,
    element: &Element,
) -> Result<bool, AllocError>
    ensures labels { IfOk result (λ fits. AddsElement (element_of element.now) fits earlier.old labels.old earlier.new labels.new) }
{
    if ends_run(element) {
        let run = replace(labels, NameSet::new(alloc));
        earlier.absorb(run)?;
        return add_inside(alloc, earlier, element);
    }
    add_run(alloc, earlier, labels, element)
}

/// Adds the labels of the basic graph patterns of a group. Returns false if one occurs in two
/// patterns.
#[cycle(labels)]
fn add_group(alloc: Global, earlier: &mut NameSet, elements: &[Element]) -> Result<bool, AllocError>
    ensures labels { IfOk result (λ fits. AddsPatterns (basic_patterns (group_of elements.now)) fits earlier.old earlier.new) }
{
    let mut labels = NameSet::new(alloc);
    for element in elements {
        if !add_element(alloc, earlier, &mut labels, element)? {
            return Ok(false);
        }
    }
    earlier.absorb(labels)?;
    Ok(true)
}

/// Returns whether a blank node label occurs in two basic graph patterns of the group, at any
/// depth.
///
/// # Errors
/// `AllocError` if an allocation fails.
pub fn reuses_blank(alloc: Global, group: &[Element]) -> Result<bool, AllocError>
    ensures value { IfOk result (λ reuses. reuses ≡ reuses_blank (group_of group.now)) }
{
    let mut labels = NameSet::new(alloc);
    Ok(!add_group(alloc, &mut labels, group)?)
}
