//! The canonical text of a term: its N-Quads form.

ghost use Rattle.std.specs.Prelude.{◌≡◌, false, IfOk, OnErr};
ghost use Rattle.rdf_core.specs.declared.term.Term.{Term};
ghost use Rattle.nquads_core.specs.Slices.{Denotes};
ghost use Rattle.nquads_scan.specs.Canonical.{IsComplete, IsFound};
ghost use Rattle.nquads_scan.specs.Rewriting.{IsPut};

use crate::plain::is_plain_form;
use crate::rewriting::rewrite;
use nquads_core::read_term;
use rdf_core::write_term;
use std::alloc::{AllocError, Global};

/// How a slice relates to the canonical text of the term that it denotes.
#[derive(Clone, Copy)]
pub enum Form {
    /// The slice is this text.
    Same,
    /// The slice is another text.
    Other,
}

/// Appends the canonical text of the term that a slice denotes. Returns `false` if it denotes no term, and appends nothing.
fn put_canonical(alloc: Global, raw: &str, out: &mut Vec<u8>) -> Result<bool, AllocError>
    ensures put { IfOk result (IsPut raw.now out.old.items out.new.items) }
    ensures complete { IfOk result (λ put. put ≡ false → (t : Term) → Denotes raw.now t → ⊥) }
    ensures err { OnErr result (out.new.items ≡ out.old.items) }
{
    if rewrite(raw, out)? {
        return Ok(true);
    }
    let Some(term) = read_term(alloc, raw)? else {
        return Ok(false);
    };
    write_term(&term, out)?;
    Ok(true)
}

/// Finds the canonical text of the term that a slice denotes: its N-Quads form, as `write_term` of rdf_core writes it.
///
/// If the slice is that text, returns `Same` and appends nothing. If it is not, returns `Other` and appends that text.
/// Returns `None` if the slice denotes no term, and appends nothing.
///
/// # Errors
/// `AllocError` if an allocation fails. `out` is unchanged.
pub fn canonical(alloc: Global, raw: &str, out: &mut Vec<u8>) -> Result<Option<Form>, AllocError>
    ensures found { IfOk result (IsFound raw.now out.old.items out.new.items) }
    ensures complete { IfOk result (IsComplete raw.now) }
    ensures err { OnErr result (out.new.items ≡ out.old.items) }
{
    if is_plain_form(raw) {
        return Ok(Some(Form::Same));
    }
    let start = out.len();
    if !put_canonical(alloc, raw, out)? {
        return Ok(None);
    }
    if &out[start..] == raw.as_bytes() {
        out.truncate(start);
        return Ok(Some(Form::Same));
    }
    Ok(Some(Form::Other))
}
