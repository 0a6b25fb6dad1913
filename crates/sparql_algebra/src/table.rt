//! VALUES as a table (SPARQL 1.1 Query Language, section 18.2.2.6).
ghost use Rattle.std.specs.Prelude.{◌≡◌, IfOk, map};
ghost use Rattle.algebra_model.specs.Algebra.{Table};
ghost use Rattle.sparql_algebra.specs.AlgebraOf.{algebra_of};
ghost use Rattle.sparql_algebra.specs.Names.{number_of};

use crate::constructors::boxed;
use crate::names::Names;
use crate::operator::Operator;
use rdf_core::{Term, Text};
use std::alloc::{AllocError, Global};

/// Translates VALUES ([61] `InlineData`) into a table over the numbers of its variables. Its cells
/// are copied.
///
/// # Errors
/// `AllocError` if an allocation fails.
pub fn convert_table(
    alloc: Global,
    names: &Names,
    variables: &[Text],
    rows: &[Vec<Option<Term>>],
) -> Result<Box<Operator>, AllocError>
    ensures table { IfOk result (λ made. algebra_of made.value
        ≡ Table (map (number_of names.now) variables.now) (map (λ row. row.items) rows.now)) }
{
    let tree = Operator::Table {
        variables: numbers(alloc, names, variables)?,
        rows: copy_rows(alloc, rows)?,
    };
    boxed(alloc, tree)
}

/// Returns the numbers of the names of a list, in order.
///
/// # Errors
/// `AllocError` if an allocation fails.
pub fn numbers(alloc: Global, names: &Names, list: &[Text]) -> Result<Vec<usize>, AllocError>
    ensures numbers { IfOk result
        (λ numbers. numbers.items ≡ map (number_of names.now) list.now) }
{
    let mut numbers = Vec::new(alloc);
    for name in list {
        numbers.push(names.number(name))?;
    }
    Ok(numbers)
}

fn copy_rows(
    alloc: Global,
    rows: &[Vec<Option<Term>>],
) -> Result<Vec<Vec<Option<Term>>>, AllocError>
    ensures rows { IfOk result
        (λ copy. map (λ row. row.items) copy.items ≡ map (λ row. row.items) rows.now) }
{
    let mut copy = Vec::with_capacity(alloc, rows.len())?;
    for row in rows {
        copy.push(copy_row(alloc, row)?)?;
    }
    Ok(copy)
}

fn copy_row(alloc: Global, row: &[Option<Term>]) -> Result<Vec<Option<Term>>, AllocError>
    ensures cells { IfOk result (λ copy. copy.items ≡ row.now) }
{
    let mut copy = Vec::with_capacity(alloc, row.len())?;
    for cell in row {
        copy.push(copy_cell(alloc, cell)?)?;
    }
    Ok(copy)
}

fn copy_cell(alloc: Global, cell: &Option<Term>) -> Result<Option<Term>, AllocError>
    ensures cell { IfOk result (λ copy. copy ≡ cell.now) }
{
    match cell {
        Some(term) => Ok(Some(term.copy(alloc)?)),
        None => Ok(None),
    }
}
