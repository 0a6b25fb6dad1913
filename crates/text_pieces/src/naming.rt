//! The number of the term that a slice denotes.
ghost use Rattle.std.specs.Prelude.{◌≡◌, ◌<◌, ◌++◌, ⊤, true, IfOk, IfSome, MatchOption, get_or, length, slice_get, Some};
ghost use Rattle.rdf_core.specs.QuadFacts.{is_iri, is_node};
ghost use Rattle.keyed_hash.specs.Hashing.{hash_of};
ghost use Rattle.text_dict.specs.Forms.{IsForm};
ghost use Rattle.text_dict.specs.TextDict.{Has};
ghost use Rattle.text_pieces.specs.Slices.{IsKnownName, IsKnownNode, IsNumberOf, IsPlaced};

use nquads_core::RawStatement;
use nquads_scan::{Form, canonical};
use std::alloc::{AllocError, AllocFailed};
use text_dict::TextDict;

/// Why a slice is not numbered.
#[derive(Clone, Copy)]
pub(crate) enum NamingFault {
    /// A slice denotes no term, or none that is allowed at its place. This decides nothing.
    NeedsFullReader,
    /// Out of memory.
    Memory,
}

impl From<AllocError> for NamingFault {
    fn from(_failed: AllocError) -> NamingFault {
        NamingFault::Memory
    }
}

impl<T: Drop> From<AllocFailed<T>> for NamingFault {
    fn from(_failed: AllocFailed<T>) -> NamingFault {
        NamingFault::Memory
    }
}

/// Returns the number of a text with this hash, in the dictionary or among the new texts.
#[inline(always)]
fn known(dict: &TextDict, new: &TextDict, hash: u64, text: &[u8]) -> Option<u64>
    requires hashed { hash ≡ hash_of dict.now.state text.now }
    requires state { new.now.state ≡ dict.now.state }
    ensures number { MatchOption result (¬ (Has dict.now.texts text.now))
        (λ n. (slice_get (dict.now.texts ++ new.now.texts) n ≡ Some text.now) × IsForm text.now) }
{
    if let Some(n) = dict.number_hashed(hash, text) {
        return Some(n);
    }
    match new.number_hashed(hash, text) {
        Some(n) => Some(dict.len() as u64 + n),
        None => None,
    }
}

/// Returns the number of a text with this hash that the dictionary lacks. If it is new in the piece, it is appended.
fn number_lacking(
    dict: &TextDict,
    new: &mut TextDict,
    hash: u64,
    text: &[u8],
) -> Result<u64, AllocError>
    requires hashed { hash ≡ hash_of dict.now.state text.now }
    requires state { new.old.state ≡ dict.now.state }
    requires lacking { ¬ (Has dict.now.texts text.now) }
    requires form { IsForm text.now }
    ensures state { new.new.state ≡ dict.now.state }
    ensures number { IfOk result (IsPlaced dict.now.texts new.old.texts new.new.texts text.now) }
{
    let n = new.intern_hashed(hash, text)?;
    Ok(dict.len() as u64 + n)
}

/// Returns the number of a text. If the dictionary lacks it and it is new in the piece, it is appended.
pub(crate) fn number_text(
    dict: &TextDict,
    new: &mut TextDict,
    text: &[u8],
) -> Result<u64, AllocError>
    requires state { new.old.state ≡ dict.now.state }
    requires form { IsForm text.now }
    ensures state { new.new.state ≡ dict.now.state }
    ensures number { IfOk result (IsPlaced dict.now.texts new.old.texts new.new.texts text.now) }
{
    let hash = dict.state().hash_of(text);
    match dict.number_hashed(hash, text) {
        Some(n) => Ok(n),
        None => number_lacking(dict, new, hash, text),
    }
}

/// Returns the number of the term that a slice with this hash denotes. A slice that has no number is checked, and rewritten
/// to the N-Quads form of its term. `form` is a buffer for that.
pub(crate) fn number_slice(
    dict: &TextDict,
    new: &mut TextDict,
    form: &mut Vec<u8>,
    hash: u64,
    raw: &str,
) -> Result<u64, NamingFault>
    requires hashed { hash ≡ hash_of dict.now.state raw.now }
    requires state { new.old.state ≡ dict.now.state }
    ensures state { new.new.state ≡ dict.now.state }
    ensures number { IfOk result
        (IsNumberOf (λ _. ⊤) dict.now.texts new.old.texts new.new.texts raw.now) }
{
    match known(dict, new, hash, raw.as_bytes()) {
        Some(n) => Ok(n),
        None => number_new(dict, new, form, hash, raw),
    }
}

/// Returns the number of the term that a slice denotes. The slice has this hash, and the dictionary lacks it.
fn number_new(
    dict: &TextDict,
    new: &mut TextDict,
    form: &mut Vec<u8>,
    hash: u64,
    raw: &str,
) -> Result<u64, NamingFault>
    requires hashed { hash ≡ hash_of dict.now.state raw.now }
    requires state { new.old.state ≡ dict.now.state }
    requires lacking { ¬ (Has dict.now.texts raw.now) }
    ensures state { new.new.state ≡ dict.now.state }
    ensures number { IfOk result
        (IsNumberOf (λ _. ⊤) dict.now.texts new.old.texts new.new.texts raw.now) }
{
    let alloc = *form.allocator();
    form.clear();
    match canonical(alloc, raw, form)? {
        Some(Form::Same) => Ok(number_lacking(dict, new, hash, raw.as_bytes())?),
        Some(Form::Other) => Ok(number_text(dict, new, form.as_slice())?),
        None => Err(NamingFault::NeedsFullReader),
    }
}

/// Returns the text with this number.
#[inline(always)]
fn text_at<'a>(dict: &'a TextDict, new: &'a TextDict, n: u64) -> &'a [u8]
    requires known { n < length (dict.now.texts ++ new.now.texts) }
    ensures value { slice_get (dict.now.texts ++ new.now.texts) n ≡ Some result.now }
    ensures form { IsForm result.now }
{
    let base = dict.len() as u64;
    if n < base {
        dict.text(n)
    } else {
        new.text(n - base)
    }
}

/// Returns the first byte of a text, or 0 if it is empty.
pub(crate) fn first_byte(text: &[u8]) -> u8
    ensures value { result ≡ get_or text.now 0 0 }
{
    if text.is_empty() { 0 } else { text[0] }
}

/// Returns the number of the IRI or blank node that a slice denotes.
pub(crate) fn number_node(
    dict: &TextDict,
    new: &mut TextDict,
    form: &mut Vec<u8>,
    hash: u64,
    raw: &str,
) -> Result<u64, NamingFault>
    requires hashed { hash ≡ hash_of dict.now.state raw.now }
    requires state { new.old.state ≡ dict.now.state }
    ensures state { new.new.state ≡ dict.now.state }
    ensures number { IfOk result (IsNumberOf (λ t. is_node t ≡ true)
        dict.now.texts new.old.texts new.new.texts raw.now) }
{
    let n = number_slice(dict, new, form, hash, raw)?;
    if first_byte(text_at(dict, new, n)) == b'"' {
        return Err(NamingFault::NeedsFullReader);
    }
    Ok(n)
}

/// Returns whether two slices are the same text.
#[inline(always)]
pub(crate) fn is_same(a: &str, b: &str) -> bool
    ensures same { result ≡ true → a.now ≡ b.now }
{
    a == b
}

/// Returns the number of the IRI or blank node that a slice denotes. `last` is the number of the slice `before`. If both slices
/// are the same, nothing is looked up.
pub(crate) fn number_again(
    dict: &TextDict,
    new: &mut TextDict,
    form: &mut Vec<u8>,
    before: &str,
    last: Option<u64>,
    hash: u64,
    raw: &str,
) -> Result<u64, NamingFault>
    requires hashed { hash ≡ hash_of dict.now.state raw.now }
    requires state { new.old.state ≡ dict.now.state }
    requires known { IfSome last (IsKnownNode dict.now.texts new.old.texts before.now) }
    ensures state { new.new.state ≡ dict.now.state }
    ensures number { IfOk result (IsNumberOf (λ t. is_node t ≡ true)
        dict.now.texts new.old.texts new.new.texts raw.now) }
{
    if let Some(n) = last {
        if is_same(before, raw) {
            return Ok(n);
        }
    }
    number_node(dict, new, form, hash, raw)
}

/// Returns the number of the graph name that a slice denotes. `last` is the number of the graph label of the statement before.
pub(crate) fn number_name(
    dict: &TextDict,
    new: &mut TextDict,
    form: &mut Vec<u8>,
    before: &RawStatement<'_>,
    last: Option<u64>,
    hash: u64,
    name: &str,
) -> Result<u64, NamingFault>
    requires hashed { hash ≡ hash_of dict.now.state name.now }
    requires state { new.old.state ≡ dict.now.state }
    requires known { IfSome last
        (IsKnownName dict.now.texts new.old.texts before.now.graph) }
    ensures state { new.new.state ≡ dict.now.state }
    ensures number { IfOk result (IsNumberOf (λ t. is_node t ≡ true)
        dict.now.texts new.old.texts new.new.texts name.now) }
{
    match before.graph {
        Some(label) => number_again(dict, new, form, label, last, hash, name),
        None => number_node(dict, new, form, hash, name),
    }
}

/// Returns the number of the IRI that a slice denotes.
pub(crate) fn number_iri(
    dict: &TextDict,
    new: &mut TextDict,
    form: &mut Vec<u8>,
    hash: u64,
    raw: &str,
) -> Result<u64, NamingFault>
    requires hashed { hash ≡ hash_of dict.now.state raw.now }
    requires state { new.old.state ≡ dict.now.state }
    ensures state { new.new.state ≡ dict.now.state }
    ensures number { IfOk result (IsNumberOf (λ t. is_iri t ≡ true)
        dict.now.texts new.old.texts new.new.texts raw.now) }
{
    let n = number_slice(dict, new, form, hash, raw)?;
    if first_byte(text_at(dict, new, n)) != b'<' {
        return Err(NamingFault::NeedsFullReader);
    }
    Ok(n)
}
