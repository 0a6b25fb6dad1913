//! The values of IRIs and strings.

ghost use Rattle.std.specs.Prelude.{◌≡◌, IfOk};
ghost use Rattle.sparql_lexer.specs.Values.{between, iri_value, quotes_of, string_value};

use crate::characters::text_of;
use crate::token::Kind;
use rdf_core::Text;
use rdf_core::lexical::{unescape_iri, unescape_string};
use std::alloc::{AllocError, Global};

/// Returns the text without its first and last `count` characters.
fn between(text: &[char], count: usize) -> &[char]
    ensures { result.now ≡ between count text.now }
{
    let (_, remaining) = text.split_at(count.min(text.len()));
    let (inside, _) = remaining.split_at(remaining.len().saturating_sub(count));
    inside
}

/// Decodes the IRI of an [139] IRIREF, given with its angle brackets.
///
/// Returns None if an escape is not the number of a Unicode scalar value, or if its character may
/// not occur unescaped in an IRI. Does not check whether the IRI has a scheme.
///
/// # Errors
/// `AllocError` if an allocation fails.
pub fn iri_value(alloc: Global, text: &[char]) -> Result<Option<Text>, AllocError>
    ensures { IfOk result (λ found. found ≡ iri_value text.now) }
{
    let inside = text_of(alloc, between(text, 1))?;
    unescape_iri(alloc, inside.as_str())
}

fn quotes_of(kind: Kind) -> usize
    ensures { result ≡ quotes_of kind }
{
    match kind {
        Kind::LongString => 3,
        _ => 1,
    }
}

/// Decodes the string of a terminal in quotes, given with its kind and its quotes.
///
/// Returns None if an escape is not the number of a Unicode scalar value.
///
/// # Errors
/// `AllocError` if an allocation fails.
pub fn string_value(alloc: Global, kind: Kind, text: &[char]) -> Result<Option<Text>, AllocError>
    ensures { IfOk result (λ found. found ≡ string_value kind text.now) }
{
    let inside = text_of(alloc, between(text, quotes_of(kind)))?;
    unescape_string(alloc, inside.as_str())
}
