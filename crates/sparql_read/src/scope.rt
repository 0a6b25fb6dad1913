//! Variables in scope (SPARQL 1.1 Query Language, section 18.2.1).

ghost use Rattle.std.specs.Prelude.{◌≡◌, ◌++◌, IfOk, OnOk, flat_map};
ghost use Rattle.sparql_tree.specs.GroupTree.{element_of, group, group_of};
ghost use Rattle.sparql_tree.specs.Scope.{graph_names, place_names, triple_names};
ghost use Rattle.sparql_read.specs.NameSet.{HaveSame, is_among};
ghost use Rattle.sparql_read.specs.BindScope.{binds_among, breaks_bind_scope};
ghost use Rattle.sparql_read.specs.ScopeSteps.{AddsScope, IsScopeOf};

use crate::name_set::NameSet;
use rdf_core::Text;
use sparql_tree::{Element, Triple, VarOrIri, VarOrTerm};
use std::alloc::{AllocError, Global};

/// Adds the variable at one position of a triple.
fn add_place(alloc: Global, scope: &mut NameSet, place: &VarOrTerm) -> Result<(), AllocError>
    ensures names { OnOk result (HaveSame scope.new (scope.old ++ place_names place.now)) }
{
    match place {
        VarOrTerm::Variable(name) => scope.add(name.copy(alloc)?),
        _ => Ok(()),
    }
}

fn add_triple(alloc: Global, scope: &mut NameSet, triple: &Triple) -> Result<(), AllocError>
    ensures names { OnOk result (HaveSame scope.new (scope.old ++ triple_names triple.now)) }
{
    add_place(alloc, scope, &triple.subject)?;
    add_place(alloc, scope, &triple.predicate)?;
    add_place(alloc, scope, &triple.object)
}

fn add_triples(alloc: Global, scope: &mut NameSet, triples: &[Triple]) -> Result<(), AllocError>
    ensures names { OnOk result (HaveSame scope.new (scope.old ++ flat_map triple_names triples.now)) }
{
    for triple in triples {
        add_triple(alloc, scope, triple)?;
    }
    Ok(())
}

fn add_graph_name(alloc: Global, scope: &mut NameSet, name: &VarOrIri) -> Result<(), AllocError>
    ensures names { OnOk result (HaveSame scope.new (scope.old ++ graph_names name.now)) }
{
    match name {
        VarOrIri::Variable(name) => scope.add(name.copy(alloc)?),
        VarOrIri::Iri(_) => Ok(()),
    }
}

fn add_names(alloc: Global, scope: &mut NameSet, names: &[Text]) -> Result<(), AllocError>
    ensures names { OnOk result (HaveSame scope.new (scope.old ++ names.now)) }
{
    for name in names {
        scope.add(name.copy(alloc)?)?;
    }
    Ok(())
}

/// Returns whether the element is a BIND to a variable that is in scope.
fn binds_among(scope: &NameSet, element: &Element) -> bool
    ensures value { result ≡ binds_among scope.now (element_of element.now) }
{
    match element {
        Element::Bind(_, name) => scope.has(name),
        _ => false,
    }
}

/// Adds the names of an inner group. Returns false if it breaks the rule.
#[cycle(scope)]
fn add_group(alloc: Global, scope: &mut NameSet, elements: &[Element]) -> Result<bool, AllocError>
    ensures scope { IfOk result (λ fits. AddsScope (group (group_of elements.now)) fits scope.old scope.new) }
{
    match scope_of(alloc, elements)? {
        Some(inner) => {
            scope.absorb(inner)?;
            Ok(true)
        }
        None => Ok(false),
    }
}

/// Adds the names of the left side of a UNION. Returns false if something inside it breaks the
/// rule. A loop adds the groups of a chain from the last to the first, so that a long chain needs
/// no deeper stack.
#[cycle(scope)]
fn add_left(alloc: Global, scope: &mut NameSet, left: &Element) -> Result<bool, AllocError>
    ensures scope { IfOk result (λ fits. AddsScope (element_of left.now) fits scope.old scope.new) }
{
    let mut rest = left;
    'groups: while let Element::Union(left, right) = rest {
        if !add_group(alloc, scope, right)? {
            return Ok(false);
        }
        rest = left;
    }
    add_element(alloc, scope, rest)
}

/// Adds the names that an element binds. Returns false if something inside it breaks the rule.
#[cycle(scope)]
fn add_element(alloc: Global, scope: &mut NameSet, element: &Element) -> Result<bool, AllocError>
    ensures scope { IfOk result (λ fits. AddsScope (element_of element.now) fits scope.old scope.new) }
{
    match element {
        Element::Triples(triples) => {
            add_triples(alloc, scope, triples)?;
            Ok(true)
        }
        Element::Group(elements) => add_group(alloc, scope, elements),
        Element::Union(left, right) => {
            if !add_group(alloc, scope, right)? {
                return Ok(false);
            }
            add_left(alloc, scope, left)
        }
        Element::Optional(elements) => add_group(alloc, scope, elements),
        Element::Minus(elements) => Ok(scope_of(alloc, elements)?.is_some()),
        Element::Graph(name, elements) => {
            add_graph_name(alloc, scope, name)?;
            add_group(alloc, scope, elements)
        }
        Element::Filter(_) => Ok(true),
        Element::Bind(_, name) => {
            scope.add(name.copy(alloc)?)?;
            Ok(true)
        }
        Element::Values(names, _) => {
            add_names(alloc, scope, names)?;
            Ok(true)
        }
    }
}

/// Returns the variables in scope after the elements. Returns None if a BIND, at any depth, is to a
/// variable that is already in scope from the elements before it in its group.
#[cycle(scope)]
fn scope_of(alloc: Global, elements: &[Element]) -> Result<Option<NameSet>, AllocError>
    ensures scope { IfOk result (λ scope. IsScopeOf (group_of elements.now) scope) }
{
    let mut scope = NameSet::new(alloc);
    for element in elements {
        if binds_among(&scope, element) {
            return Ok(None);
        }
        if !add_element(alloc, &mut scope, element)? {
            return Ok(None);
        }
    }
    Ok(Some(scope))
}

/// Returns whether a BIND in the group, at any depth, is to a variable that is already in scope
/// from the elements before it in its own group.
///
/// # Errors
/// `AllocError` if an allocation fails.
pub fn breaks_bind_scope(alloc: Global, group: &[Element]) -> Result<bool, AllocError>
    ensures value { IfOk result (λ breaks. breaks ≡ breaks_bind_scope (group_of group.now)) }
{
    match scope_of(alloc, group)? {
        Some(_) => Ok(false),
        None => Ok(true),
    }
}
