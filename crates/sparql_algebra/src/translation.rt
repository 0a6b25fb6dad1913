//! The translation of a query (SPARQL 1.1 Query Language, section 18.2).
ghost use Rattle.std.specs.Prelude.{◌≡◌, IfOk, filter, map};
ghost use Rattle.sparql_tree.specs.GroupTree.{group_of};
ghost use Rattle.sparql_tree.specs.QueryTree.{query_of};
ghost use Rattle.algebra_model.specs.Algebra.{Project};
ghost use Rattle.sparql_algebra.specs.AlgebraOf.{algebra_of};
ghost use Rattle.sparql_algebra.specs.Names.{is_name_among, names_of, number_of};
ghost use Rattle.sparql_algebra.specs.Translation.{distinct_where, projection, translate, translate_group};

use crate::constructors;
use crate::group::convert_group;
use crate::names::Names;
use crate::naming::{note_list, query_names, scope};
use crate::operator::Operator;
use crate::plan::Plan;
use crate::table::numbers;
use sparql_tree::{Query, Selection};
use std::alloc::{AllocError, Global};

/// Translates a query into its plan (SPARQL 1.1 Query Language, section 18.2).
///
/// Variables are numbered in the order of their first occurrence in the text. Texts and terms are
/// copied, and the query is unchanged.
///
/// # Errors
/// `AllocError` if an allocation fails.
pub fn translate(alloc: Global, query: &Query) -> Result<Plan, AllocError>
    ensures names { IfOk result (λ plan. plan.names.items ≡ names_of (query_of query.now)) }
    ensures tree { IfOk result
        (λ plan. algebra_of plan.tree ≡ (translate (query_of query.now)).algebra) }
{
    let names = query_names(alloc, query)?;
    let boxed = convert_query(alloc, &names, query)?;
    let names = names.into_list(alloc)?;
    let tree = Box::into_inner(boxed);
    Ok(Plan { names, tree })
}

/// Creates the tree of the plan: the group, its projection, and Distinct if the query has DISTINCT.
fn convert_query(alloc: Global, names: &Names, query: &Query) -> Result<Box<Operator>, AllocError>
    requires names { names.now ≡ names_of (query_of query.now) }
    ensures tree { IfOk result
        (λ made. algebra_of made.value ≡ (translate (query_of query.now)).algebra) }
{
    let variables = projected_numbers(alloc, names, query)?;
    let inner = convert_group(alloc, names, &query.group)?;
    let projected = constructors::project(alloc, variables, inner)?;
    if query.distinct {
        constructors::distinct(alloc, projected)
    } else {
        Ok(projected)
    }
}

/// Returns the numbers of the selected variables, in the order of the results.
fn projected_numbers(alloc: Global, names: &Names, query: &Query) -> Result<Vec<usize>, AllocError>
    requires names { names.now ≡ names_of (query_of query.now) }
    ensures numbers { IfOk result (λ numbers. numbers.items ≡ projection (query_of query.now)) }
{
    match &query.selection {
        Selection::All => {
            let scope = scope(alloc, &query.group)?;
            numbers_in_scope(alloc, names, &scope)
        }
        Selection::Variables(listed) => {
            let mut selected = Names::new(alloc);
            note_list(&mut selected, listed)?;
            numbers(alloc, names, selected.as_slice())
        }
    }
}

fn numbers_in_scope(alloc: Global, names: &Names, scope: &Names) -> Result<Vec<usize>, AllocError>
    ensures numbers { IfOk result (λ numbers. numbers.items
        ≡ map (number_of names.now) (filter (λ x. is_name_among x scope.now) names.now)) }
{
    let mut numbers = Vec::new(alloc);
    for name in names.as_slice() {
        if scope.contains(name) {
            numbers.push(names.number(name))?;
        }
    }
    Ok(numbers)
}
