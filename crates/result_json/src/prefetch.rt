//! Looks up the texts of several rows before they are copied, column by column. The loads of
//! different rows do not depend on each other, so the processor can overlap them.
ghost use Rattle.std.specs.Prelude.{◌≡◌, [], get_or, IfOk};
ghost use Rattle.result_json.specs.RankedRows.{ranks_of};
ghost use Rattle.result_json.specs.Texts.{all_texts, borrowed_texts, places_of, AreAhead, IsAhead, IsColumnAhead};

use crate::ranked_row::RankedRow;
use crate::text_pieces::TextPieces;
use std::alloc::{AllocError, Global};

/// Returns the text of a rank's term. It is empty if the rank has no term or the term is not
/// printed yet.
fn text_ahead<'a>(texts: &'a TextPieces<'_>, rank: u64) -> &'a [u8]
    ensures ahead { IsAhead texts.now rank result.now }
{
    match texts.place(rank) {
        Some(place) => texts.printed(place),
        None => &[],
    }
}

/// Returns whether each text is empty or begins with `{`. This loads all texts into the cache.
fn are_objects(texts: &[&[u8]]) -> bool {
    texts.iter().all(|text| text.is_empty() || text[0] == b'{')
}

/// Looks up the texts of the cells at one place of the rows. A text is empty if the cell is unbound
/// or its term is not printed. The list is empty if some text is not that of an object.
fn look_up<'a>(
    alloc: Global,
    place: usize,
    texts: &'a TextPieces<'_>,
    rows: &[RankedRow<'_>],
) -> Result<Vec<&'a [u8]>, AllocError>
    ensures ahead { IfOk result
        (λ made. IsColumnAhead texts.now place (ranks_of rows.now) (borrowed_texts made.items)) }
{
    let mut ahead = Vec::with_capacity(alloc, rows.len())?;
    for row in rows {
        ahead.push(text_ahead(texts, row.rank(place)))?;
    }
    if !are_objects(&ahead) {
        ahead.clear();
    }
    Ok(ahead)
}

/// Looks up the texts of the rows for each column. The texts of terms that are not printed yet are
/// empty.
///
/// # Errors
/// `AllocError` if an allocation fails.
pub(crate) fn looked_up<'a>(
    alloc: Global,
    columns: &[(Vec<u8>, usize)],
    texts: &'a TextPieces<'_>,
    rows: &[RankedRow<'_>],
) -> Result<Vec<Vec<&'a [u8]>>, AllocError>
    ensures ahead { IfOk result (λ made.
        AreAhead texts.now (places_of columns.now) (ranks_of rows.now) (all_texts made.items)) }
{
    let mut ahead = Vec::with_capacity(alloc, columns.len())?;
    for (_prefix, place) in columns {
        ahead.push(look_up(alloc, *place, texts, rows)?)?;
    }
    Ok(ahead)
}

/// Returns the text of a column for a row, or an empty text if none was looked up.
pub(crate) fn text_at<'a>(ahead: &[Vec<&'a [u8]>], column: usize, row: usize) -> &'a [u8]
    ensures value { result.now ≡ get_or (get_or (all_texts ahead.now) column []) row [] }
{
    if column < ahead.len() && row < ahead[column].len() {
        ahead[column][row]
    } else {
        &[]
    }
}
