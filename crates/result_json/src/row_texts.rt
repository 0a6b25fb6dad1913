//! Rows as JSON, made by appends.
//!
//! A row consists of the beginnings of its members, each printed once for a column, and of the
//! texts of terms, each printed once. Rows are printed in groups: the texts of all rows of a group
//! are looked up first.
ghost use Rattle.std.specs.Prelude.{◌≡◌, ◌++◌, ◌||◌, is_some, map, IfOk, OnOk};
ghost use Rattle.result_json.specs.Ranks.{ranked_cell};
ghost use Rattle.result_json.specs.Texts.{all_texts, begun_column, begun_member, begun_row, comma_texts, places_of, row_texts, IsAhead, IsRowAhead};

use crate::pieces::following;
use crate::prefetch::{looked_up, text_at};
use crate::ranked_row::RankedRow;
use crate::text_pieces::TextPieces;
use std::alloc::{AllocError, Global};

/// The number of rows whose texts are looked up at once. It is large enough for the loads to
/// overlap, and small enough for the loaded bytes to be in the cache when they are copied.
const GROUP: usize = 32;

/// Appends the member of a cell if it is bound, with a comma if another member precedes it. Returns
/// whether the row now has a member. If the text looked up for the cell is empty, the term is
/// printed directly.
fn put_member(
    alloc: Global,
    out: &mut Vec<u8>,
    prefix: &[u8],
    texts: &TextPieces<'_>,
    rank: u64,
    text: &[u8],
    later: bool,
) -> Result<bool, AllocError>
    requires ahead { IsAhead texts.now rank text.now }
    ensures text { OnOk result
        (out.new.items ≡ out.old.items
        ++ comma_texts later (begun_member prefix.now (ranked_cell texts.now rank))) }
    ensures later { IfOk result (λ b. b ≡ (later || is_some (ranked_cell texts.now rank))) }
{
    let Some(place) = texts.place(rank) else {
        return Ok(later);
    };
    if later {
        out.push(b',')?;
    }
    out.extend_from_slice(prefix)?;
    if text.is_empty() {
        texts.put(alloc, out, place)?;
    } else {
        out.extend_from_slice(text)?;
    }
    Ok(true)
}

/// Appends the object of a row. `number` is its place among the rows whose texts were looked up.
fn put_row(
    alloc: Global,
    out: &mut Vec<u8>,
    columns: &[(Vec<u8>, usize)],
    texts: &TextPieces<'_>,
    row: &RankedRow<'_>,
    ahead: &[Vec<&[u8]>],
    number: usize,
) -> Result<(), AllocError>
    requires ahead { IsRowAhead texts.now (places_of columns.now) row.now.ranks.now number (all_texts ahead.now) }
    ensures text { OnOk result
        (out.new.items ≡ out.old.items
        ++ begun_row texts.now (map begun_column columns.now) row.now.ranks.now) }
{
    out.push(b'{')?;
    let mut later = false;
    for (k, (prefix, place)) in columns.iter().enumerate() {
        let text = text_at(ahead, k, number);
        later = put_member(alloc, out, prefix, texts, row.rank(*place), text, later)?;
    }
    out.push(b'}')?;
    Ok(())
}

/// Appends a group of rows, with a comma before each, or before each except the first. The texts of
/// all of them are looked up before one is copied.
fn put_group(
    alloc: Global,
    out: &mut Vec<u8>,
    columns: &[(Vec<u8>, usize)],
    texts: &TextPieces<'_>,
    rows: &[RankedRow<'_>],
    mut later: bool,
) -> Result<(), AllocError>
    ensures text { OnOk result
        (out.new.items ≡ out.old.items
        ++ comma_texts later (row_texts texts.now columns.now rows.now)) }
{
    let ahead = looked_up(alloc, columns, texts, rows)?;
    for i in 0..rows.len() {
        if later {
            out.push(b',')?;
        }
        put_row(alloc, out, columns, texts, &rows[i], &ahead, i)?;
        later = true;
    }
    Ok(())
}

/// Appends rows, with a comma before each, or before each except the first, group by group.
///
/// # Errors
/// `AllocError` if an allocation fails. Some rows may have been appended then.
pub(crate) fn put_rows(
    alloc: Global,
    out: &mut Vec<u8>,
    columns: &[(Vec<u8>, usize)],
    texts: &TextPieces<'_>,
    rows: &[RankedRow<'_>],
    mut later: bool,
) -> Result<(), AllocError>
    ensures text { OnOk result
        (out.new.items ≡ out.old.items
        ++ comma_texts later (row_texts texts.now columns.now rows.now)) }
{
    let mut rest = rows;
    while !rest.is_empty() {
        let group = &rest[..rest.len().min(GROUP)];
        put_group(alloc, out, columns, texts, group, later)?;
        later = true;
        rest = following(rest, group.len());
    }
    Ok(())
}
