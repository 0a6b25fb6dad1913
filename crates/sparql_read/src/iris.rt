//! Relative IRIs.

ghost use Rattle.std.specs.Prelude.{◌≡◌, IfOk};
ghost use Rattle.sparql_lexer.specs.Terminal.{terminal_of, terminals};
ghost use Rattle.sparql_read.specs.RelativeIri.{has_relative_iri, is_relative};

use rdf_core::lexical::has_scheme;
use sparql_lexer::{Kind, Token, iri_value};
use std::alloc::{AllocError, Global};

/// Returns whether the terminal is an [139] IRIREF without a scheme.
///
/// # Errors
/// `AllocError` if an allocation fails.
fn is_relative(alloc: Global, token: Token<'_>) -> Result<bool, AllocError>
    ensures value { IfOk result (λ found. found ≡ is_relative (terminal_of token.entry)) }
{
    match token.kind {
        Kind::IriRef => match iri_value(alloc, token.text)? {
            Some(iri) => Ok(!has_scheme(iri.as_str())),
            None => Ok(false),
        },
        _ => Ok(false),
    }
}

/// Returns whether some [139] IRIREF among the terminals has no scheme, once its escapes are
/// decoded. The IRIs of declarations count, too.
///
/// # Errors
/// `AllocError` if an allocation fails.
pub fn has_relative_iri(alloc: Global, tokens: &[Token<'_>]) -> Result<bool, AllocError>
    ensures value { IfOk result (λ found. found ≡ has_relative_iri (terminals tokens.now)) }
{
    for token in tokens {
        if is_relative(alloc, *token)? {
            return Ok(true);
        }
    }
    Ok(false)
}
