//! The statements of a piece without those that a filter does not keep.
//!
//! A statement may be left out only if it is valid. A slice is seen to be valid if it is the N-Quads form of the term that it
//! denotes. A statement with another slice is kept, so the code that numbers it checks it.
ghost use Rattle.std.specs.Prelude.{◌≡◌, ⊤, true, IfOk, IfSome};
ghost use Rattle.rdf_core.specs.QuadFacts.{is_iri};
ghost use Rattle.text_pieces.specs.Relevance.{AreRelevant, IsFormOf, IsInForm, IsNodeForm, IsNodeFormIfAny, IsUnneeded};

use crate::naming::{first_byte, is_same};
use nquads_core::RawStatement;
use nquads_scan::{Form, canonical};
use quad_filter::QuadFilter;
use std::alloc::{AllocError, Global};

/// Returns whether a slice is the N-Quads form of the term that it denotes. `form` is a buffer.
fn is_form(alloc: Global, form: &mut Vec<u8>, raw: &str) -> Result<bool, AllocError>
    ensures same { IfOk result (λ holds. holds ≡ true → IsFormOf (λ _. ⊤) raw.now) }
{
    form.clear();
    match canonical(alloc, raw, form)? {
        Some(Form::Same) => Ok(true),
        Some(Form::Other) | None => Ok(false),
    }
}

/// Returns whether a slice is the N-Quads form of an IRI.
fn is_iri(alloc: Global, form: &mut Vec<u8>, raw: &str) -> Result<bool, AllocError>
    ensures iri { IfOk result (λ holds. holds ≡ true → IsFormOf (λ t. is_iri t ≡ true) raw.now) }
{
    if first_byte(raw.as_bytes()) != b'<' {
        return Ok(false);
    }
    is_form(alloc, form, raw)
}

/// Returns whether a slice is the N-Quads form of an IRI or a blank node. `before` is such a form. If both are the same, the
/// slice is not read.
fn is_node(
    alloc: Global,
    form: &mut Vec<u8>,
    before: Option<&str>,
    raw: &str,
) -> Result<bool, AllocError>
    requires before { IsNodeFormIfAny before }
    ensures node { IfOk result (λ holds. holds ≡ true → IsNodeForm raw.now) }
{
    if let Some(before) = before {
        if is_same(before, raw) {
            return Ok(true);
        }
    }
    if first_byte(raw.as_bytes()) == b'"' {
        return Ok(false);
    }
    is_form(alloc, form, raw)
}

/// Returns whether a graph label is the N-Quads form of an IRI or a blank node, or there is none.
fn is_label(
    alloc: Global,
    form: &mut Vec<u8>,
    before: Option<&str>,
    label: Option<&str>,
) -> Result<bool, AllocError>
    requires before { IsNodeFormIfAny before }
    ensures label { IfOk result (λ holds. holds ≡ true → IsNodeFormIfAny label.entry) }
{
    match label {
        Some(label) => is_node(alloc, form, before, label),
        None => Ok(true),
    }
}

/// Returns the subject of a statement.
fn subject_of<'d>(last: &Option<RawStatement<'d>>) -> Option<&'d str>
    requires valid { IfSome last.now IsInForm }
    ensures node { IsNodeFormIfAny result }
{
    match last {
        Some(raw) => Some(raw.subject),
        None => None,
    }
}

/// Returns the graph label of a statement.
fn label_of<'d>(last: &Option<RawStatement<'d>>) -> Option<&'d str>
    requires valid { IfSome last.now IsInForm }
    ensures node { IsNodeFormIfAny result }
{
    match last {
        Some(raw) => raw.graph,
        None => None,
    }
}

/// Returns whether a statement is valid, and its slices are the N-Quads forms of its terms. `last` is such a statement.
fn is_in_form(
    alloc: Global,
    form: &mut Vec<u8>,
    last: &Option<RawStatement<'_>>,
    raw: &RawStatement<'_>,
) -> Result<bool, AllocError>
    requires last { IfSome last.now IsInForm }
    ensures valid { IfOk result (λ holds. holds ≡ true → IsInForm raw.now) }
{
    if !is_node(alloc, form, subject_of(last), raw.subject)? {
        return Ok(false);
    }
    if !is_iri(alloc, form, raw.predicate)? {
        return Ok(false);
    }
    if !is_form(alloc, form, raw.object)? {
        return Ok(false);
    }
    is_label(alloc, form, label_of(last), raw.graph)
}

/// Returns whether a statement may be left out: it is valid, and the filter does not keep its quad. `last` is a valid
/// statement.
fn is_unneeded(
    alloc: Global,
    filter: &QuadFilter,
    form: &mut Vec<u8>,
    last: &Option<RawStatement<'_>>,
    raw: &RawStatement<'_>,
) -> Result<bool, AllocError>
    requires last { IfSome last.now IsInForm }
    ensures unneeded { IfOk result (λ holds. holds ≡ true → IsUnneeded filter.now raw.now) }
{
    if filter.wants(raw) {
        return Ok(false);
    }
    is_in_form(alloc, form, last, raw)
}

/// Returns the statements of a piece, in order, without those that may be left out.
///
/// # Errors
/// `AllocError` if an allocation fails.
pub(crate) fn relevant_statements<'d>(
    alloc: Global,
    filter: &QuadFilter,
    raws: &[RawStatement<'d>],
) -> Result<Vec<RawStatement<'d>>, AllocError>
    ensures relevant { IfOk result (λ kept. AreRelevant filter.now raws.now kept.items) }
{
    let mut kept = Vec::new(alloc);
    let mut form = Vec::new(alloc);
    let mut last = None;
    for raw in raws {
        if is_unneeded(alloc, filter, &mut form, &last, raw)? {
            last = Some(*raw);
        } else {
            kept.push(*raw)?;
        }
    }
    Ok(kept)
}
