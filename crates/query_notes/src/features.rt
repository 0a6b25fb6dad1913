//! The notes on parts of a query that find nothing, whatever the rows are.
ghost use Rattle.std.specs.Prelude.{All, IfOk, OnOk, string_bytes};
ghost use Rattle.query_notes.specs.Notes.{IsNote};

use crate::outline::Outline;
use crate::texts::Text;
use sparql_lexer::{Keyword, Kind, Sign};
use std::alloc::{AllocError, Global};

/// Returns the number of terminals before the query's group.
fn group_start(text: &Text) -> usize {
    for at in 0..text.terminals.len() {
        if text.terminals[at].kind == Kind::Sign(Sign::OpenBrace) {
            return at;
        }
    }
    text.terminals.len()
}

/// Returns the note with these words.
fn note(alloc: Global, words: &str) -> Result<String, AllocError>
    ensures note { IfOk result (λ note. IsNote (string_bytes note)) }
{
    format!(in alloc; "spq: note: {words}\n")
}

/// Appends a note for each variable that occurs only in expressions, and for each selected variable
/// that occurs nowhere in the group. They are in the order of the text.
///
/// # Errors
/// `AllocError` if an allocation fails.
pub fn push_variables(
    notes: &mut Vec<String>,
    alloc: Global,
    outline: &Outline,
) -> Result<(), AllocError>
    requires notes { All (λ note. IsNote (string_bytes note)) notes.old.items }
    ensures notes { OnOk result (All (λ note. IsNote (string_bytes note)) notes.new.items) }
{
    let unbound = unbound_variables(alloc, outline)?;
    for (at, reason) in &unbound {
        notes.push(unbound_note(alloc, &outline.text, *at, *reason)?)?;
    }
    Ok(())
}

/// Returns the first places of the variables that are never bound, in the order of the text, with the reasons.
fn unbound_variables(
    alloc: Global,
    outline: &Outline,
) -> Result<Vec<(usize, &'static str)>, AllocError> {
    let start = group_start(&outline.text);
    let mut unbound = Vec::new(alloc);
    for places in &outline.text.places_by_name(alloc)? {
        if let Some(variable) = unbound_at(places, outline, start) {
            unbound.push(variable)?;
        }
    }
    unbound.sort()?;
    Ok(unbound)
}

/// Returns whether the variable at a place is one of a pattern, VALUES or BIND, in the query's group, which begins at
/// `start`.
fn is_bound_at(at: usize, outline: &Outline, start: usize) -> bool {
    at > start && outline.variables.binary_search(&at).is_err()
}

/// Returns the first of these places in the query's group.
fn first_after(places: &[usize], start: usize) -> Option<usize> {
    for at in places {
        if *at > start {
            return Some(*at);
        }
    }
    None
}

/// Returns the first of a variable's places in the group, or its first place if none is there, with
/// the reason why the variable is never bound. Returns None if a pattern, VALUES or BIND has it.
fn unbound_at(places: &[usize], outline: &Outline, start: usize) -> Option<(usize, &'static str)> {
    for at in places {
        if is_bound_at(*at, outline, start) {
            return None;
        }
    }
    match first_after(places, start) {
        Some(at) if places.len() == 1 => Some((at, "occurs nowhere else, so it is never bound")),
        Some(at) => Some((at, "occurs only in expressions, so it is never bound")),
        None => Some((
            *places.first()?,
            "is selected and occurs nowhere in the pattern",
        )),
    }
}

/// Returns the note on a variable that is never bound.
fn unbound_note(alloc: Global, text: &Text, at: usize, reason: &str) -> Result<String, AllocError>
    ensures note { IfOk result (λ note. IsNote (string_bytes note)) }
{
    let variable = text.written(alloc, at)?;
    let place = text.position(at);
    let words = format!(in alloc; "{variable} at {place} {reason}")?;
    note(alloc, words.as_str())
}

/// Appends the note on patterns outside of GRAPH over an empty default graph.
///
/// # Errors
/// `AllocError` if an allocation fails.
pub fn push_graphs(
    notes: &mut Vec<String>,
    alloc: Global,
    outline: &Outline,
    is_named_only: bool,
) -> Result<(), AllocError>
    requires notes { All (λ note. IsNote (string_bytes note)) notes.old.items }
    ensures notes { OnOk result (All (λ note. IsNote (string_bytes note)) notes.new.items) }
{
    if let Some(at) = outline.pattern {
        if is_named_only {
            notes.push(pattern_note(alloc, &outline.text, at)?)?;
        }
    }
    Ok(())
}

/// Returns the note on the first pattern outside of GRAPH.
fn pattern_note(alloc: Global, text: &Text, at: usize) -> Result<String, AllocError>
    ensures note { IfOk result (λ note. IsNote (string_bytes note)) }
{
    let place = text.position(at);
    let words = format!(in alloc;
        "the pattern at {place} finds nothing: it is outside of GRAPH, and all quads are in named graphs"
    )?;
    note(alloc, words.as_str())
}

fn is_keyword(text: &Text, at: usize, keyword: Keyword) -> bool {
    text.kind_at(at) == Some(Kind::Keyword(keyword))
}

fn is_sign(text: &Text, at: usize, sign: Sign) -> bool {
    text.kind_at(at) == Some(Kind::Sign(sign))
}

fn is_equality(text: &Text, at: usize) -> bool {
    is_sign(text, at, Sign::Equal) || is_sign(text, at, Sign::NotEqual)
}

/// Returns whether the terminal is a short string with a capital letter.
fn is_capital(text: &Text, at: usize) -> bool {
    text.kind_at(at) == Some(Kind::ShortString)
        && text
            .characters_at(at)
            .iter()
            .any(|c| c.is_ascii_uppercase())
}

/// An operand of a comparison, by the places of its first and its last terminal.
#[derive(Clone, Copy)]
struct Operand {
    first: usize,
    last: usize,
}

/// Returns the place of a string with capitals that an operand is compared with.
fn capital_tag(text: &Text, operand: Operand) -> Option<usize> {
    let after = operand.last.saturating_add(1);
    let string = after.saturating_add(1);
    if is_equality(text, after) && is_capital(text, string) {
        return Some(string);
    }
    let string = operand.first.checked_sub(2)?;
    if is_equality(text, string.saturating_add(1)) && is_capital(text, string) {
        return Some(string);
    }
    None
}

/// Returns the place of the list of IN or NOT IN that an operand is looked up in.
fn list_after(text: &Text, operand: Operand) -> Option<usize> {
    let after = operand.last.saturating_add(1);
    let member = if is_keyword(text, after, Keyword::Not) {
        after.saturating_add(1)
    } else {
        after
    };
    if is_keyword(text, member, Keyword::In) {
        Some(member.saturating_add(1))
    } else {
        None
    }
}

/// Adds the places of the language tags with capitals in the list at a place.
fn add_listed_tags(tags: &mut Vec<usize>, text: &Text, list: usize) -> Result<(), AllocError> {
    for at in list..text.terminals.len() {
        if is_sign(text, at, Sign::CloseParenthesis) {
            break;
        }
        if is_capital(text, at) {
            tags.push(at)?;
        }
    }
    Ok(())
}

/// Adds the places of the language tags with capitals that an operand is compared with.
fn add_tags(tags: &mut Vec<usize>, text: &Text, operand: Operand) -> Result<(), AllocError> {
    if let Some(string) = capital_tag(text, operand) {
        tags.push(string)?;
    }
    match list_after(text, operand) {
        Some(list) => add_listed_tags(tags, text, list),
        None => Ok(()),
    }
}

/// Returns the operand that begins with the LANG at a place.
fn call_at(text: &Text, lang: usize) -> Operand {
    let last = lang.saturating_add(3);
    let is_short = is_sign(text, last, Sign::CloseParenthesis);
    Operand {
        first: lang,
        last: if is_short { last } else { text.terminals.len() },
    }
}

/// Returns whether the terminals before a place are `BIND(LANG(?v) AS`, with some variable.
fn is_bound_to_tag(text: &Text, at: usize) -> bool {
    let Some(bind) = at.checked_sub(7) else {
        return false;
    };
    is_keyword(text, bind, Keyword::Bind)
        && is_keyword(text, bind.saturating_add(2), Keyword::Lang)
        && is_sign(text, bind.saturating_add(5), Sign::CloseParenthesis)
        && is_keyword(text, bind.saturating_add(6), Keyword::As)
}

/// Returns whether a variable with these places is bound only by BIND, to a LANG.
fn is_tag(places: &[usize], outline: &Outline, start: usize) -> bool {
    let mut is_bound = false;
    for at in places {
        if is_bound_at(*at, outline, start) {
            if !is_bound_to_tag(&outline.text, *at) {
                return false;
            }
            is_bound = true;
        }
    }
    is_bound
}

/// Appends a note for each language tag with capitals that LANG is compared with, by `=`, `!=`, IN or NOT IN, or
/// that a variable is compared with that is bound to a LANG. They are in the order of the text.
///
/// # Errors
/// `AllocError` if an allocation fails.
pub fn push_tags(
    notes: &mut Vec<String>,
    alloc: Global,
    outline: &Outline,
) -> Result<(), AllocError>
    requires notes { All (λ note. IsNote (string_bytes note)) notes.old.items }
    ensures notes { OnOk result (All (λ note. IsNote (string_bytes note)) notes.new.items) }
{
    let tags = all_tags(alloc, outline)?;
    for tag in &tags {
        notes.push(tag_note(alloc, &outline.text, *tag)?)?;
    }
    Ok(())
}

/// Returns the places of the language tags with capitals that LANG is compared with, or a variable that is
/// bound to a LANG, in the order of the text.
fn all_tags(alloc: Global, outline: &Outline) -> Result<Vec<usize>, AllocError> {
    let mut tags = Vec::new(alloc);
    add_called_tags(&mut tags, &outline.text)?;
    add_bound_tags(&mut tags, alloc, outline)?;
    tags.sort()?;
    Ok(tags)
}

/// Adds the places of the language tags with capitals that LANG is compared with.
fn add_called_tags(tags: &mut Vec<usize>, text: &Text) -> Result<(), AllocError> {
    for at in 0..text.terminals.len() {
        if is_keyword(text, at, Keyword::Lang) {
            add_tags(tags, text, call_at(text, at))?;
        }
    }
    Ok(())
}

/// Adds the places of the language tags with capitals that variables are compared with that are bound to a LANG.
fn add_bound_tags(
    tags: &mut Vec<usize>,
    alloc: Global,
    outline: &Outline,
) -> Result<(), AllocError> {
    let start = group_start(&outline.text);
    for places in &outline.text.places_by_name(alloc)? {
        if is_tag(places, outline, start) {
            add_tags_of(tags, &outline.text, places)?;
        }
    }
    Ok(())
}

/// Adds the places of the language tags with capitals that a variable with these places is compared with.
fn add_tags_of(tags: &mut Vec<usize>, text: &Text, places: &[usize]) -> Result<(), AllocError> {
    for at in places {
        let operand = Operand {
            first: *at,
            last: *at,
        };
        add_tags(tags, text, operand)?;
    }
    Ok(())
}

/// Returns the note on a language tag with capitals.
fn tag_note(alloc: Global, text: &Text, at: usize) -> Result<String, AllocError>
    ensures note { IfOk result (λ note. IsNote (string_bytes note)) }
{
    let tag = text.written(alloc, at)?;
    let place = text.position(at);
    let lower = lower_case(alloc, text.characters_at(at))?;
    let words = format!(in alloc;
        "{tag} at {place} is never a value of LANG: tags are in lower case (write {lower})"
    )?;
    note(alloc, words.as_str())
}

/// Returns characters, the ASCII letters in lower case.
fn lower_case(alloc: Global, characters: &[char]) -> Result<String, AllocError> {
    let mut text = String::new(alloc);
    for c in characters {
        text.push(c.to_ascii_lowercase())?;
    }
    Ok(text)
}
