//! The names that the syntax tree of a query mentions, in order (SPARQL 1.1 Query Language, section
//! 18.2.1). If an allocation fails, some of the first names to add have been added, and no other
//! name.
ghost use Rattle.std.specs.Prelude.{◌≡◌, [], IfOk, OnErr, OnOk, flat_map};
ghost use Rattle.std.specs.Str.{bytes_eq};
ghost use Rattle.indexmap.specs.IndexSet.{insert_all};
ghost use Rattle.sparql_tree.specs.GroupTree.{element_of, group_of};
ghost use Rattle.sparql_tree.specs.QueryTree.{query_of, selection_of};
ghost use Rattle.sparql_tree.specs.Scope.{element_names, graph_names, group_names, group_scope, place_names, triple_names};
ghost use Rattle.sparql_algebra.specs.Names.{IsNotedInPart, listed_names, names_of};

use crate::names::Names;
use rdf_core::Text;
use sparql_tree::{Element, Query, Selection, Triple, VarOrIri, VarOrTerm};
use std::alloc::{AllocError, Global};

/// Returns the names of a query by their numbers. First come the names in the order in which the
/// text mentions them. A tree that no parser made may list or bind further names; they follow.
///
/// # Errors
/// `AllocError` if an allocation fails.
pub fn query_names(alloc: Global, query: &Query) -> Result<Names, AllocError>
    ensures names { IfOk result (λ names. names ≡ names_of (query_of query.now)) }
{
    let mut names = Names::new(alloc);
    note_list(&mut names, &query.mentioned)?;
    note_selection(&mut names, &query.selection)?;
    note_group(&mut names, true, &query.group)?;
    Ok(names)
}

/// Returns the names of the variables in scope in a group.
///
/// # Errors
/// `AllocError` if an allocation fails.
pub fn scope(alloc: Global, group: &[Element]) -> Result<Names, AllocError>
    ensures names { IfOk result (λ names. names ≡ insert_all bytes_eq [] (group_scope (group_of group.now))) }
{
    let mut names = Names::new(alloc);
    note_group(&mut names, false, group)?;
    Ok(names)
}

/// Adds each name of a list.
///
/// # Errors
/// `AllocError` if an allocation fails. Some of the first names of the list have been added.
pub fn note_list(names: &mut Names, list: &[Text]) -> Result<(), AllocError>
    ensures noted { OnOk result (names.new ≡ insert_all bytes_eq names.old list.now) }
    ensures in_part { OnErr result (IsNotedInPart names.old list.now names.new) }
{
    for name in list {
        names.note(name)?;
    }
    Ok(())
}

fn note_selection(names: &mut Names, selection: &Selection) -> Result<(), AllocError>
    ensures noted { OnOk result
        (names.new ≡ insert_all bytes_eq names.old (listed_names (selection_of selection.now))) }
    ensures in_part { OnErr result
        (IsNotedInPart names.old (listed_names (selection_of selection.now)) names.new) }
{
    match selection {
        Selection::All => Ok(()),
        Selection::Variables(listed) => note_list(names, listed),
    }
}

/// Adds the names that the elements of a group bind. If `all` is set, it adds those in the right
/// sides of MINUS too. On error, some of the first of these names have been added.
#[cycle(naming)]
fn note_group(names: &mut Names, all: bool, group: &[Element]) -> Result<(), AllocError>
    ensures noted { OnOk result
        (names.new ≡ insert_all bytes_eq names.old (group_names all (group_of group.now))) }
    ensures in_part { OnErr result
        (IsNotedInPart names.old (group_names all (group_of group.now)) names.new) }
{
    for element in group {
        note_element(names, all, element)?;
    }
    Ok(())
}

#[cycle(naming)]
fn note_element(names: &mut Names, all: bool, element: &Element) -> Result<(), AllocError>
    ensures noted { OnOk result
        (names.new ≡ insert_all bytes_eq names.old (element_names all (element_of element.now))) }
    ensures in_part { OnErr result
        (IsNotedInPart names.old (element_names all (element_of element.now)) names.new) }
{
    match element {
        Element::Triples(triples) => note_triples(names, triples),
        Element::Group(group) => note_group(names, all, group),
        Element::Union(left, right) => {
            note_element(names, all, left)?;
            note_group(names, all, right)
        }
        Element::Optional(group) => note_group(names, all, group),
        Element::Minus(group) => {
            if all {
                note_group(names, all, group)
            } else {
                Ok(())
            }
        }
        Element::Graph(name, group) => {
            note_graph_name(names, name)?;
            note_group(names, all, group)
        }
        Element::Filter(_) => Ok(()),
        Element::Bind(_, variable) => names.note(variable),
        Element::Values(variables, _) => note_list(names, variables),
    }
}

fn note_graph_name(names: &mut Names, name: &VarOrIri) -> Result<(), AllocError>
    ensures noted { OnOk result (names.new ≡ insert_all bytes_eq names.old (graph_names name.now)) }
    ensures in_part { OnErr result (IsNotedInPart names.old (graph_names name.now) names.new) }
{
    match name {
        VarOrIri::Variable(variable) => names.note(variable),
        VarOrIri::Iri(_) => Ok(()),
    }
}

fn note_triples(names: &mut Names, triples: &[Triple]) -> Result<(), AllocError>
    ensures noted { OnOk result
        (names.new ≡ insert_all bytes_eq names.old (flat_map triple_names triples.now)) }
    ensures in_part { OnErr result
        (IsNotedInPart names.old (flat_map triple_names triples.now) names.new) }
{
    for triple in triples {
        note_triple(names, triple)?;
    }
    Ok(())
}

fn note_triple(names: &mut Names, triple: &Triple) -> Result<(), AllocError>
    ensures noted { OnOk result (names.new ≡ insert_all bytes_eq names.old (triple_names triple.now)) }
    ensures in_part { OnErr result (IsNotedInPart names.old (triple_names triple.now) names.new) }
{
    note_place(names, &triple.subject)?;
    note_place(names, &triple.predicate)?;
    note_place(names, &triple.object)
}

fn note_place(names: &mut Names, place: &VarOrTerm) -> Result<(), AllocError>
    ensures noted { OnOk result (names.new ≡ insert_all bytes_eq names.old (place_names place.now)) }
    ensures in_part { OnErr result (IsNotedInPart names.old (place_names place.now) names.new) }
{
    match place {
        VarOrTerm::Variable(variable) => names.note(variable),
        VarOrTerm::Blank(_) | VarOrTerm::Term(_) => Ok(()),
    }
}
