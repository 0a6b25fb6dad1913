//! The text of the query for the parts of a query with OFFSET.
//!
//! It has the terminals of the query, with other numbers after LIMIT and OFFSET, and no comments between them. It is read again,
//! and accepted if it has the same terminals but for those of LIMIT and OFFSET.
ghost use Rattle.std.specs.Prelude.{◌≡◌, ◌-◌, ◌≤◌, [], List, ℕ, true, false, Some, if◌then◌else◌, is_none, length, take, IfErr, IfOk};
ghost use Rattle.std.specs.Str.{chars};
ghost use Rattle.sparql_lexer.specs.Scan.{Scans};
ghost use Rattle.sparql_lexer.specs.Terminal.{Terminal, terminal_of, terminals};
ghost use Rattle.sparql_tree.specs.QueryTree.{query_of};
ghost use Rattle.sparql_read.specs.Rejection.{IsValidQuery};
ghost use Rattle.query_split.specs.ForParts.{for_parts};
ghost use Rattle.query_plan.specs.Refused.{IsTextFault};

use crate::planning::PlanFault;
use itoa::Buffer;
use sparql_lexer::{Token, characters_of, one_scan, scan_text, text_of};
use sparql_read::{Query, QueryFault, one_tree, read_query};
use std::alloc::{AllocError, Global};

/// Appends the characters of a terminal, and a space.
fn push_terminal(alloc: Global, made: &mut Vec<u8>, token: &Token<'_>) -> Result<(), AllocError> {
    let text = text_of(alloc, token.text)?;
    made.extend_from_slice(text.as_bytes())?;
    made.push(b' ')?;
    Ok(())
}

/// Returns the text of a query without this many terminals at the end, and without comments.
fn front_of(alloc: Global, text: &str, others: usize) -> Result<Vec<u8>, AllocError> {
    let characters = characters_of(alloc, text)?;
    let scan = scan_text(alloc, &characters)?;
    let front = scan.tokens.len().saturating_sub(others);
    let mut made = Vec::new(alloc);
    for token in &scan.tokens[..front] {
        push_terminal(alloc, &mut made, token)?;
    }
    Ok(made)
}

/// Returns the text of a query with other numbers: LIMIT, if there is a number, and OFFSET 0.
fn with_numbers(
    alloc: Global,
    text: &str,
    others: usize,
    limit: Option<u64>,
) -> Result<Vec<u8>, AllocError> {
    let mut made = front_of(alloc, text, others)?;
    if let Some(limit) = limit {
        let mut buffer = Buffer::new();
        made.extend_from_slice(b"LIMIT ")?;
        made.extend_from_slice(buffer.format(limit).as_bytes())?;
        made.push(b' ')?;
    }
    made.extend_from_slice(b"OFFSET 0\n")?;
    Ok(made)
}

/// Returns whether two terminals are the same.
fn is_same(a: &Token<'_>, b: &Token<'_>) -> bool
    ensures same { result ≡ true → terminal_of a.now ≡ terminal_of b.now }
{
    a.kind == b.kind && a.text == b.text
}

/// Returns whether two lists have the same terminals, except for this many at the end of each.
fn have_same_front(a: &[Token<'_>], b: &[Token<'_>], others: usize) -> bool
    ensures same { result ≡ true
        → take (length a.now - others) (terminals a.now) ≡ take (length b.now - others) (terminals b.now) }
{
    if a.len() != b.len() || a.len() < others {
        return false;
    }
    for i in 0..a.len() - others {
        if !is_same(&a[i], &b[i]) {
            return false;
        }
    }
    true
}

/// Returns whether two texts have the same terminals, except for this many at the end of each.
fn differ_at_end(alloc: Global, text: &str, other: &str, others: usize) -> Result<bool, AllocError>
    ensures same { IfOk result (λ same. same ≡ true → (ts us : List Terminal)
        → Scans (chars text.now) ts [] → Scans (chars other.now) us []
        → take (length ts - others) ts ≡ take (length us - others) us) }
{
    one_scan();
    let characters = characters_of(alloc, text)?;
    let scan = scan_text(alloc, &characters)?;
    let other_characters = characters_of(alloc, other)?;
    let other_scan = scan_text(alloc, &other_characters)?;
    Ok(have_same_front(&scan.tokens, &other_scan.tokens, others))
}

/// Returns whether the numbers of a query for the parts are right: OFFSET 0 for an OFFSET, and this LIMIT for a LIMIT.
fn has_numbers(query: &Query, parts: &Query, kept: Option<u64>) -> bool
    ensures has_offset { result ≡ true → is_none query.now.offset ≡ false }
    ensures offset { result ≡ true → parts.now.offset ≡ Some 0 }
    ensures limit { result ≡ true → parts.now.limit ≡ kept }
    ensures alike { result ≡ true → is_none kept ≡ is_none query.now.limit }
{
    query.offset.is_some()
        && parts.offset == Some(0)
        && parts.limit == kept
        && kept.is_none() == query.limit.is_none()
}

/// Returns the number of the terminals of OFFSET, and of LIMIT if there is one.
fn last_terminals(limit: Option<u64>) -> usize
    ensures value { result ≡ (if is_none limit then 2 else 4) }
{
    match limit {
        Some(_) => 4,
        None => 2,
    }
}

/// Returns whether a text that is read as `parts` is the query for the parts of a text that is read as `query`.
fn is_for_parts(
    alloc: Global,
    text: &str,
    query: &Query,
    other: &str,
    parts: &Query,
    kept: Option<u64>,
) -> Result<bool, AllocError>
    requires read { IsValidQuery (chars text.now) (query_of query.now) }
    requires other_read { IsValidQuery (chars other.now) (query_of parts.now) }
    ensures same { IfOk result (λ same. same ≡ true → query_of parts.now ≡ for_parts kept (query_of query.now)) }
{
    one_tree();
    if !has_numbers(query, parts, kept) {
        return Ok(false);
    }
    let others = last_terminals(query.limit);
    let same = differ_at_end(alloc, text, other, others)?;
    Ok(same)
}

/// Reads a text, and returns whether it is the query for the parts.
fn reads_for_parts(
    alloc: Global,
    text: &str,
    query: &Query,
    other: &str,
    kept: Option<u64>,
) -> Result<bool, AllocError>
    requires read { IsValidQuery (chars text.now) (query_of query.now) }
    ensures read { IfOk result
        (λ found. found ≡ true → IsValidQuery (chars other.now) (for_parts kept (query_of query.now))) }
{
    match read_query(alloc, other) {
        Ok(parts) => {
            let same = is_for_parts(alloc, text, query, other, &parts, kept);
            drop(parts);
            same
        }
        Err(QueryFault::Memory) => Err(AllocError),
        Err(_rejected) => Ok(false),
    }
}

/// Returns the text of the query for the parts of a query with OFFSET.
///
/// # Errors
/// - `Offset` if the text that was made is not read as the query for the parts.
/// - `Memory` if an allocation fails.
pub(crate) fn query_without_offset(
    alloc: Global,
    text: &str,
    query: &Query,
    kept: Option<u64>,
) -> Result<Vec<u8>, PlanFault>
    requires read { IsValidQuery (chars text.now) (query_of query.now) }
    requires has_offset { is_none query.now.offset ≡ false }
    ensures read { IfOk result (λ made. IsValidQuery (chars made.items) (for_parts kept (query_of query.now))) }
    ensures fault { IfErr result (IsTextFault (query_of query.now)) }
{
    let made = with_numbers(alloc, text, last_terminals(query.limit), kept)?;
    let Ok(other) = str::from_utf8(made.as_slice()) else {
        return Err(PlanFault::Offset);
    };
    if !reads_for_parts(alloc, text, query, other, kept)? {
        return Err(PlanFault::Offset);
    }
    Ok(made)
}
