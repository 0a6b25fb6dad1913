//! The term that a slice denotes.

ghost use Rattle.std.specs.Prelude.{◌≡◌, Some, IfOk, IfSome};
ghost use Rattle.std.specs.Str.{chars};
ghost use Rattle.nquads_core.specs.LineParser.{Gives, alone, is_over, suffix_alone, literal_alone, object_alone, term_at};
ghost use Rattle.nquads_core.specs.Slices.{Denotes};
ghost use Rattle.nquads_core.specs.Views.{token_view};

use crate::fault::LineFault;
use crate::statement::{iri_of, string_literal, tagged_literal};
use crate::token::{Token, token_at};
use rdf_core::lexical::first_char;
use rdf_core::{Term, Text};
use std::alloc::{AllocError, Global};

fn is_over(text: &str) -> bool
    ensures { result ≡ is_over (chars text.now) }
{
    match first_char(text) {
        Some(_) => false,
        None => true,
    }
}

/// Returns the term if nothing follows it.
fn alone(term: Term, rest: &str) -> Result<Term, LineFault>
    ensures { Gives (λ t. t) result (alone term (chars rest.now)) }
{
    if is_over(rest) {
        Ok(term)
    } else {
        Err(LineFault::Bad)
    }
}

/// Builds the literal of a string and its suffix. The first terminal of the suffix is given.
fn suffix_alone(alloc: Global, lexical: Text, token: Token, rest: &str) -> Result<Term, LineFault>
    ensures { Gives (λ t. t) result (suffix_alone lexical (token_view token, chars rest.now)) }
{
    match token {
        Token::Carets => {
            let (datatype, rest) = token_at(alloc, rest)?;
            let Some(datatype) = iri_of(datatype) else {
                return Err(LineFault::Bad);
            };
            let term = Term::Literal {
                lexical,
                datatype,
                tag: None,
            };
            alone(term, rest)
        }
        Token::Tag(tag) => alone(tagged_literal(alloc, lexical, tag)?, rest),
        Token::Iri(_) | Token::Blank(_) | Token::Quoted(_) | Token::Dot => Err(LineFault::Bad),
    }
}

/// Builds the literal of a string and what follows the string.
fn literal_alone(alloc: Global, lexical: Text, rest: &str) -> Result<Term, LineFault>
    ensures { Gives (λ t. t) result (literal_alone lexical (chars rest.now)) }
{
    if is_over(rest) {
        return Ok(string_literal(alloc, lexical)?);
    }
    let (token, rest) = token_at(alloc, rest)?;
    suffix_alone(alloc, lexical, token, rest)
}

/// Builds the term of a text, whose first terminal is given.
fn object_alone(alloc: Global, token: Token, rest: &str) -> Result<Term, LineFault>
    ensures { Gives (λ t. t) result (object_alone (token_view token, chars rest.now)) }
{
    match token {
        Token::Iri(text) => alone(Term::Iri(text), rest),
        Token::Blank(label) => alone(Term::Blank(label), rest),
        Token::Quoted(lexical) => literal_alone(alloc, lexical, rest),
        Token::Tag(_) | Token::Carets | Token::Dot => Err(LineFault::Bad),
    }
}

#[tactic(auto, unfolding(crate::specs::LineParser::term_at))]
fn whole_term(alloc: Global, raw: &str) -> Result<Term, LineFault>
    ensures { Gives (λ t. t) result (term_at (chars raw.now)) }
{
    let (token, rest) = token_at(alloc, raw)?;
    object_alone(alloc, token, rest)
}

/// Reads the term that a slice of a line denotes: an IRI, a blank node label, or a literal with its
/// language tag or datatype, with no blank before, inside or after it (RDF 1.1 N-Quads, [5] `object`).
///
/// Returns `None` if the slice is not exactly one such term. A slice denotes at most one term.
///
/// # Errors
/// `AllocError` if an allocation fails.
pub fn read_term(alloc: Global, raw: &str) -> Result<Option<Term>, AllocError>
    ensures denotes { IfOk result (λ term. IfSome term (Denotes raw.now)) }
    ensures complete { IfOk result (λ term. (t : Term) → Denotes raw.now t → term ≡ Some t) }
{
    match whole_term(alloc, raw) {
        Ok(term) => Ok(Some(term)),
        Err(LineFault::Bad) => Ok(None),
        Err(LineFault::Memory) => Err(AllocError),
    }
}
