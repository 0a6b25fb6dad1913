//! The terms of texts.
ghost use Rattle.std.specs.Prelude.{◌≡◌, ◌≤◌, length, slice_range, Some, IfOk};
ghost use Rattle.std.specs.Str.{IsUtf8};
ghost use Rattle.text_dict.specs.Forms.{IsForm};
ghost use Rattle.dict_core.specs.Appearances.{first_appearances};
ghost use Rattle.text_pieces.specs.Forms.{AreFormsOf, IsTermOf};

use dict_core::Dict;
use nquads_core::read_term;
use rdf_core::Term;
use std::alloc::{AllocError, Global};
use std::hash::RandomState;
use text_dict::TextDict;

/// Reads the term with this N-Quads form.
///
/// # Errors
/// `AllocError` if an allocation fails.
fn term_of(alloc: Global, text: &[u8]) -> Result<Term, AllocError>
    requires form { IsForm text.now }
    ensures term { IfOk result (IsTermOf text.now) }
{
    let Ok(text) = str::from_utf8(text) else {
        unreachable!();
    };
    match read_term(alloc, text)? {
        Some(term) => Ok(term),
        None => unreachable!(),
    }
}

/// Returns a dictionary of the terms with the numbers from `from` on and below `to`.
///
/// # Requires
/// `from` is at most `to`, and `to` is at most the number of texts.
///
/// # Errors
/// `AllocError` if an allocation fails.
pub fn terms_between(
    alloc: Global,
    state: RandomState,
    texts: &TextDict,
    from: u64,
    to: u64,
) -> Result<Dict, AllocError>
    requires rising { from ≤ to }
    requires within { to ≤ length texts.now.texts }
    ensures terms { IfOk result (λ dict. (terms : _) → AreFormsOf terms texts.now.texts
        → dict ≡ first_appearances (slice_range terms from to)) }
{
    let mut dict = Dict::new(alloc, state)?;
    for n in from..to {
        let Ok(_) = dict.intern(term_of(alloc, texts.text(n))?) else {
            return Err(AllocError);
        };
    }
    Ok(dict)
}
