//! The statement of a line: a function for each production (RDF 1.1 N-Quads, grammar).

ghost use Rattle.std.specs.Prelude.{◌≡◌, [], ◌∷◌, Option, Some, None, true, IfSome, option_map, MatchResult, IfOk, string_bytes};
ghost use Rattle.std.specs.Str.{chars};
ghost use Rattle.rdf_core.specs.QuadParts.{parts_of};
ghost use Rattle.rdf_core.specs.QuadFacts.{is_node, is_graph_name};
ghost use Rattle.rdf_core.specs.Vocabulary.{xsd_string, rdf_lang_string};
ghost use Rattle.nquads_core.specs.LineParser.{Gives, graph_dot_at, node_of, iri_of, literal_of, object_of, graph_of, statement_at, line_at};
ghost use Rattle.rdf_core.specs.LexicalReading.{Finds};
ghost use Rattle.rdf_core.specs.declared.term.Term.TheVariants.{Literal};
ghost use Rattle.nquads_core.specs.Terminal.{carets};
ghost use Rattle.nquads_core.specs.Views.{token_view};

use crate::fault::LineFault;
use crate::token::{Token, is_end, next_token};
use rdf_core::vocabulary::{RDF_LANG_STRING, XSD_STRING};
use rdf_core::{Quad, Term, Text};
use std::alloc::{AllocError, Global};

fn node_of(token: Token) -> Option<Term>
    ensures found { Finds (λ t. t) result (node_of (token_view token)) }
    ensures node { IfSome result (λ t. is_node t ≡ true) }
{
    match token {
        Token::Iri(text) => Some(Term::Iri(text)),
        Token::Blank(label) => Some(Term::Blank(label)),
        Token::Quoted(_) | Token::Tag(_) | Token::Carets | Token::Dot => None,
    }
}

pub fn iri_of(token: Token) -> Option<Text>
    ensures { Finds (λ text. text) result (iri_of (token_view token)) }
{
    match token {
        Token::Iri(text) => Some(text),
        Token::Blank(_) | Token::Quoted(_) | Token::Tag(_) | Token::Carets | Token::Dot => None,
    }
}

/// Builds the literal of a string without a suffix.
pub fn string_literal(alloc: Global, lexical: Text) -> Result<Term, AllocError>
    ensures { IfOk result (λ term. term ≡ Literal lexical xsd_string None) }
{
    let datatype = Text::from_string(String::from_str(alloc, XSD_STRING)?);
    Ok(Term::Literal {
        lexical,
        datatype,
        tag: None,
    })
}

/// Builds the literal of a string with a language tag.
pub fn tagged_literal(alloc: Global, lexical: Text, tag: Text) -> Result<Term, AllocError>
    ensures { IfOk result (λ term. term ≡ Literal lexical rdf_lang_string (Some tag)) }
{
    let datatype = Text::from_string(String::from_str(alloc, RDF_LANG_STRING)?);
    Ok(Term::Literal {
        lexical,
        datatype,
        tag: Some(tag),
    })
}

/// Reads the datatype after `^^`, and the first terminal after it. Returns the literal, that terminal, and
/// what follows it.
fn typed_literal(alloc: Global, lexical: Text, rest: &str) -> Result<(Term, Token, &str), LineFault>
    ensures { Gives (λ x. (x.0, (token_view x.1, chars x.2.now))) result (literal_of lexical (carets, chars rest.now)) }
{
    let (datatype, rest) = next_token(alloc, rest)?;
    let Some(datatype) = iri_of(datatype) else {
        return Err(LineFault::Bad);
    };
    let (token, rest) = next_token(alloc, rest)?;
    let term = Term::Literal {
        lexical,
        datatype,
        tag: None,
    };
    Ok((term, token, rest))
}

/// Returns a literal, the first terminal after it, and what follows that terminal ([7] `literal`).
fn literal_of(
    alloc: Global,
    lexical: Text,
    token: Token,
    rest: &str,
) -> Result<(Term, Token, &str), LineFault>
    ensures { Gives (λ x. (x.0, (token_view x.1, chars x.2.now))) result (literal_of lexical (token_view token, chars rest.now)) }
{
    match token {
        Token::Carets => typed_literal(alloc, lexical, rest),
        Token::Tag(tag) => {
            let term = tagged_literal(alloc, lexical, tag)?;
            let (token, rest) = next_token(alloc, rest)?;
            Ok((term, token, rest))
        }
        token => Ok((string_literal(alloc, lexical)?, token, rest)),
    }
}

/// Returns an object, the first terminal after it, and what follows that terminal ([5] `object`).
fn object_of(
    alloc: Global,
    object: Token,
    token: Token,
    rest: &str,
) -> Result<(Term, Token, &str), LineFault>
    ensures { Gives (λ x. (x.0, (token_view x.1, chars x.2.now))) result (object_of (token_view object) (token_view token, chars rest.now)) }
{
    match object {
        Token::Iri(text) => Ok((Term::Iri(text), token, rest)),
        Token::Blank(label) => Ok((Term::Blank(label), token, rest)),
        Token::Quoted(lexical) => literal_of(alloc, lexical, token, rest),
        Token::Tag(_) | Token::Carets | Token::Dot => Err(LineFault::Bad),
    }
}

/// Reads the dot after a graph label, and returns what follows it.
fn after_dot(alloc: Global, text: &str) -> Result<&str, LineFault>
    ensures { (name : Term) → Gives (λ rest. (Some name, chars rest.now)) result
        (graph_dot_at name (chars text.now)) }
{
    let (token, rest) = next_token(alloc, text)?;
    match token {
        Token::Dot => Ok(rest),
        Token::Iri(_) | Token::Blank(_) | Token::Quoted(_) | Token::Tag(_) | Token::Carets => {
            Err(LineFault::Bad)
        }
    }
}

/// Reads the graph label, if there is one, and the dot ([6] `graphLabel`). Returns the graph name and what
/// follows the dot.
fn graph_of(alloc: Global, token: Token, rest: &str) -> Result<(Option<Term>, &str), LineFault>
    ensures found { Gives (λ x. (x.0, chars x.1.now)) result (graph_of (token_view token, chars rest.now)) }
    ensures name { IfOk result (λ x. is_graph_name x.0 ≡ true) }
{
    let name = match token {
        Token::Dot => return Ok((None, rest)),
        Token::Iri(text) => Term::Iri(text),
        Token::Blank(label) => Term::Blank(label),
        Token::Quoted(_) | Token::Tag(_) | Token::Carets => return Err(LineFault::Bad),
    };
    let rest = after_dot(alloc, rest)?;
    Ok((Some(name), rest))
}

/// Reads a statement, and returns its quad ([2] `statement`).
#[tactic(auto, unfolding(crate::specs::LineParser::statement_at))]
fn statement(alloc: Global, text: &str) -> Result<Quad, LineFault>
    ensures { Gives (λ q. Some (parts_of q)) result (statement_at (chars text.now)) }
{
    let (subject, rest) = next_token(alloc, text)?;
    let Some(s) = node_of(subject) else {
        return Err(LineFault::Bad);
    };
    let (predicate, rest) = next_token(alloc, rest)?;
    let Some(predicate) = iri_of(predicate) else {
        return Err(LineFault::Bad);
    };
    let (object, rest) = next_token(alloc, rest)?;
    let (token, rest) = next_token(alloc, rest)?;
    let (o, token, rest) = object_of(alloc, object, token, rest)?;
    let (g, rest) = graph_of(alloc, token, rest)?;
    if !is_end(rest) {
        return Err(LineFault::Bad);
    }
    Ok(Quad {
        s,
        p: Term::Iri(predicate),
        o,
        g,
    })
}

/// Reads a line, and returns its quad, or None if the line has only blanks and perhaps a comment.
#[tactic(auto, unfolding(crate::specs::LineParser::line_at))]
pub fn read_text(alloc: Global, text: &str) -> Result<Option<Quad>, LineFault>
    ensures { Gives (λ q. option_map parts_of q) result (line_at (chars text.now)) }
{
    if is_end(text) {
        return Ok(None);
    }
    let quad = statement(alloc, text)?;
    Ok(Some(quad))
}
