//! The columns of the results.
ghost use Rattle.std.specs.Prelude.{◌≡◌, [], ◌∷◌, ◌++◌, get_or, map, IfOk};
ghost use Rattle.result_json.specs.Results.{columns, listed_names, numbered, string_text};
ghost use Rattle.result_json.specs.Texts.{begun, begun_column, column_of};

use crate::values::put_string;
use rdf_core::Text;
use std::alloc::{AllocError, Global};

/// Returns the name of a variable, or the empty text if it has none.
pub(crate) fn name_of(names: &[Text], variable: usize) -> &str
    ensures value { result.now ≡ get_or names.now variable [] }
{
    if variable < names.len() {
        names[variable].as_str()
    } else {
        ""
    }
}

/// Returns the columns in the order of the list: the name of each variable, and its place in a row.
fn numbered<'a>(
    alloc: Global,
    names: &'a [Text],
    listed: &[usize],
) -> Result<Vec<(&'a str, usize)>, AllocError>
    ensures columns { IfOk result
        (λ c. map column_of c.items ≡ numbered 0 (listed_names names.now listed.now)) }
{
    let mut columns = Vec::new(alloc);
    for place in 0..listed.len() {
        columns.push((name_of(names, listed[place]), place))?;
    }
    Ok(columns)
}

/// Returns the columns in byte order of their names.
fn columns_of<'a>(
    alloc: Global,
    names: &'a [Text],
    listed: &[usize],
) -> Result<Vec<(&'a str, usize)>, AllocError>
    ensures columns { IfOk result
        (λ c. map column_of c.items ≡ columns (listed_names names.now listed.now)) }
{
    let mut columns = numbered(alloc, names, listed)?;
    columns.sort()?;
    Ok(columns)
}

/// Prints the beginning of a member: the name as a string, and a colon.
fn member_start(alloc: Global, name: &str) -> Result<Vec<u8>, AllocError>
    ensures text { IfOk result (λ text. text.items ≡ string_text name.now ++ 58 ∷ []) }
{
    let mut text = Vec::new(alloc);
    put_string(alloc, &mut text, name)?;
    text.push(b':')?;
    Ok(text)
}

/// Returns the columns in byte order of their names. Each has the printed beginning of its members,
/// and its place.
///
/// # Errors
/// `AllocError` if an allocation fails.
pub(crate) fn begun_columns(
    alloc: Global,
    names: &[Text],
    listed: &[usize],
) -> Result<Vec<(Vec<u8>, usize)>, AllocError>
    ensures columns { IfOk result (λ made. map begun_column made.items
        ≡ map begun (columns (listed_names names.now listed.now))) }
{
    let columns = columns_of(alloc, names, listed)?;
    let mut made = Vec::new(alloc);
    for (name, place) in &columns {
        made.push((member_start(alloc, name)?, *place))?;
    }
    Ok(made)
}
