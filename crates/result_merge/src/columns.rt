//! The columns of results.
ghost use Rattle.std.specs.Prelude.{◌≡◌, [], ◌∷◌, ◌++◌, get_or, length, map, IfOk};
ghost use Rattle.result_json.specs.Results.{columns, numbered, string_text};
ghost use Rattle.result_json.specs.Texts.{column_of};
ghost use Rattle.result_merge.specs.Reading.{AreColumns, HavePlaces};

use crate::rows::Column;
use crate::strings::printed_string;
use rdf_core::Text;
use std::alloc::{AllocError, Global};

/// Returns the name at a place, or the empty text past the end.
fn name_at(names: &[Text], place: usize) -> &str
    ensures value { result.now ≡ get_or names.now place [] }
{
    if place < names.len() {
        names[place].as_str()
    } else {
        ""
    }
}

/// Returns the columns in the order of the list: the name of each variable, and its place in a row.
fn numbered<'a>(alloc: Global, names: &'a [Text]) -> Result<Vec<(&'a str, usize)>, AllocError>
    ensures columns { IfOk result (λ c. map column_of c.items ≡ numbered 0 names.now) }
{
    let mut columns = Vec::with_capacity(alloc, names.len())?;
    for place in 0..names.len() {
        columns.push((name_at(names, place), place))?;
    }
    Ok(columns)
}

/// Returns the columns in byte order of their names.
fn columns_of<'a>(alloc: Global, names: &'a [Text]) -> Result<Vec<(&'a str, usize)>, AllocError>
    ensures columns { IfOk result (λ c. map column_of c.items ≡ columns names.now) }
{
    let mut columns = numbered(alloc, names)?;
    columns.sort()?;
    Ok(columns)
}

/// Prints the beginning of a member: the name as a string, and a colon.
fn member_start(alloc: Global, name: &str) -> Result<Vec<u8>, AllocError>
    ensures text { IfOk result (λ text. text.items ≡ string_text name.now ++ 58 ∷ []) }
{
    let mut text = printed_string(alloc, name)?;
    text.push(b':')?;
    Ok(text)
}

/// Returns the columns in byte order of their names, printed.
fn printed_columns(alloc: Global, names: &[Text]) -> Result<Vec<Column>, AllocError>
    ensures columns { IfOk result (λ made. AreColumns names.now made.items) }
{
    let columns = columns_of(alloc, names)?;
    let mut made = Vec::with_capacity(alloc, columns.len())?;
    for (name, place) in &columns {
        made.push((member_start(alloc, name)?, *place))?;
    }
    Ok(made)
}

/// Returns the columns in byte order of their names. Each has the printed beginning of its members, and its place.
///
/// # Errors
/// `AllocError` if an allocation fails.
pub(crate) fn begun_columns(alloc: Global, names: &[Text]) -> Result<Vec<Column>, AllocError>
    ensures columns { IfOk result (λ made. AreColumns names.now made.items) }
    ensures places { IfOk result (λ made. HavePlaces (length names.now) made.items) }
{
    let made = printed_columns(alloc, names)?;
    Ok(made)
}
