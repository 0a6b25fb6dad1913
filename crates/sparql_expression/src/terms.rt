//! Reads constant terms: IRIs, numbers, booleans and literals.

ghost use Rattle.std.specs.Prelude.{◌≡◌, ◌<◌, ◌≤◌, IfOk, length};
ghost use Rattle.rdf_core.specs.declared.term.Term.TheVariants.{Iri};
ghost use Rattle.sparql_lexer.specs.Terminal.{terminals};
ghost use Rattle.sparql_grammar.specs.Productions.{plain, tagged};
ghost use Rattle.rdf_core.specs.Vocabulary.{xsd_string};
ghost use Rattle.sparql_grammar.specs.Symbol as the;
ghost use Rattle.sparql_expression.specs.ParseResult.{Parses, seen};

use crate::fault::ParseFault;
use crate::tokens::classes::{
    accept_boolean, accept_language, accept_name, accept_number, accept_string,
};
use crate::tokens::front::accept;
use rdf_core::vocabulary::{RDF_LANG_STRING, XSD_STRING};
use rdf_core::{Term, Text};
use sparql_grammar::Declarations;
use sparql_lexer::{Sign, Token};
use std::alloc::{AllocError, Global};

fn tagged(alloc: Global, lexical: Text, tag: Text) -> Result<Term, AllocError>
    ensures { IfOk result (λ t. t ≡ tagged lexical tag) }
{
    let datatype = Text::from_string(String::from_str(alloc, RDF_LANG_STRING)?);
    Ok(Term::Literal {
        lexical,
        datatype,
        tag: Some(tag),
    })
}

fn plain(lexical: Text, datatype: Text) -> Term
    ensures { result ≡ plain lexical datatype }
{
    Term::Literal {
        lexical,
        datatype,
        tag: None,
    }
}

fn plain_string(alloc: Global, lexical: Text) -> Result<Term, AllocError>
    ensures { IfOk result (λ t. t ≡ plain lexical xsd_string) }
{
    let datatype = Text::from_string(String::from_str(alloc, XSD_STRING)?);
    Ok(plain(lexical, datatype))
}

/// Reads the end of an [129] RDFLiteral after its string: a language tag, a datatype, or nothing.
/// Returns the literal and the tokens after it.
///
/// `names` are the prefix declarations of the text.
///
/// # Errors
/// - `Syntax` if the tokens begin with `^^` and no IRI follows it.
/// - `Memory` if an allocation fails.
pub fn read_literal<'t, 'a>(
    alloc: Global,
    names: &Declarations,
    string: Text,
    tokens: &'t [Token<'a>],
) -> Result<(Term, &'t [Token<'a>]), ParseFault>
    ensures reads { Parses names.now (the.literal string) (terminals tokens.now) (seen (λ t. t) result) }
    ensures shorter { IfOk result (λ p. length p.1.now ≤ length tokens.now) }
{
    if let Some((tag, after)) = accept_language(alloc, tokens)? {
        return Ok((tagged(alloc, string, tag)?, after));
    }
    let Some(after) = accept(tokens, Sign::Carets) else {
        return Ok((plain_string(alloc, string)?, tokens));
    };
    let Some((datatype, remaining)) = accept_name(alloc, names, after)? else {
        return Err(ParseFault::Syntax);
    };
    Ok((plain(string, datatype), remaining))
}

/// Reads an [136] iri, [129] RDFLiteral, [130] NumericLiteral or [134] BooleanLiteral at the start
/// of the tokens. Returns the term and the tokens after it.
///
/// `names` are the prefix declarations of the text.
///
/// # Errors
/// - `Syntax` if the tokens do not begin with a term.
/// - `Memory` if an allocation fails.
pub fn read_term<'t, 'a>(
    alloc: Global,
    names: &Declarations,
    tokens: &'t [Token<'a>],
) -> Result<(Term, &'t [Token<'a>]), ParseFault>
    ensures reads { Parses names.now the.term (terminals tokens.now) (seen (λ t. t) result) }
    ensures shorter { IfOk result (λ p. length p.1.now < length tokens.now) }
{
    if let Some((iri, after)) = accept_name(alloc, names, tokens)? {
        return Ok((Term::Iri(iri), after));
    }
    if let Some(number) = accept_number(alloc, tokens)? {
        return Ok(number);
    }
    if let Some(boolean) = accept_boolean(alloc, tokens)? {
        return Ok(boolean);
    }
    let Some((string, after)) = accept_string(alloc, tokens)? else {
        return Err(ParseFault::Syntax);
    };
    read_literal(alloc, names, string, after)
}
