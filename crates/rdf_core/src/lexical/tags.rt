//! Language tags.

ghost use Rattle.std.specs.Prelude.{◌≡◌, IfOk, map};
ghost use Rattle.std.specs.Char.{to_ascii_lowercase};

use crate::text::Text;
use std::alloc::{AllocError, Global};

/// Returns a language tag as a term holds it, in ASCII lower case. This is a choice of this
/// project: RDF 1.1 Concepts, section 3.3, allows it and does not require it.
///
/// # Errors
/// `AllocError` if an allocation fails.
pub fn lower_tag(alloc: Global, tag: &str) -> Result<Text, AllocError>
    ensures value { IfOk result (λ text. text ≡ map to_ascii_lowercase tag.now) }
{
    let mut lower = String::from_str(alloc, tag)?;
    lower.make_ascii_lowercase();
    Ok(Text::from_string(lower))
}
