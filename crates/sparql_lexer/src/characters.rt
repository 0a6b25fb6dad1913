//! Conversion between a text and its characters.

ghost use Rattle.std.specs.Prelude.{◌≡◌, IfOk, string_bytes};
ghost use Rattle.std.specs.Str.{chars};
ghost use lib.Utf8.{encodes};

use std::alloc::{AllocError, Global};

/// Returns the characters of a text, in order.
///
/// # Errors
/// `AllocError` if an allocation fails.
pub fn characters_of(alloc: Global, text: &str) -> Result<Vec<char>, AllocError>
    ensures { IfOk result (λ v. v.items ≡ chars text.now) }
{
    text.chars().collect(alloc)
}

/// Returns the text of these characters.
///
/// # Errors
/// `AllocError` if an allocation fails.
pub fn text_of(alloc: Global, characters: &[char]) -> Result<String, AllocError>
    ensures { IfOk result (λ s. string_bytes s ≡ encodes characters.now) }
{
    characters.iter().copied().collect(alloc)
}
