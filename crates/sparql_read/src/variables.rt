//! The variables of a text.

ghost use Rattle.std.specs.Prelude.{◌≡◌, IfOk};
ghost use Rattle.sparql_lexer.specs.Terminal.{terminals};
ghost use Rattle.sparql_grammar.specs.Class.{variable_of};
ghost use Rattle.sparql_grammar.specs.Mentioned.{mentioned};

use rdf_core::Text;
use sparql_lexer::{Kind, Token, text_of};
use std::alloc::{AllocError, Global};

/// Returns the name of a variable without its `?` or `$`, or None if the terminal is not a
/// variable.
///
/// # Errors
/// `AllocError` if an allocation fails.
fn variable_of(alloc: Global, token: Token<'_>) -> Result<Option<Text>, AllocError>
    ensures value { IfOk result (λ found. found ≡ variable_of token.entry.kind token.entry.text.now) }
{
    match token.kind {
        Kind::Variable => {
            let (_, name) = token.text.split_at(token.text.len().min(1));
            Ok(Some(Text::from_string(text_of(alloc, name)?)))
        }
        _ => Ok(None),
    }
}

/// Returns the names of the variables among the terminals, each time that one occurs, in the order
/// of the text.
///
/// # Errors
/// `AllocError` if an allocation fails.
pub fn mentioned(alloc: Global, tokens: &[Token<'_>]) -> Result<Vec<Text>, AllocError>
    ensures value { IfOk result (λ v. v.items ≡ mentioned (terminals tokens.now)) }
{
    let mut names = Vec::new(alloc);
    for token in tokens {
        if let Some(name) = variable_of(alloc, *token)? {
            names.push(name)?;
        }
    }
    Ok(names)
}
