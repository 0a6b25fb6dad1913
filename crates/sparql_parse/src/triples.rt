//! Reads triples (SPARQL 1.1 Query Language, section 19.8, from [55] TriplesBlock on).

ghost use Rattle.std.specs.Prelude.{◌≡◌, ◌<◌, ◌≤◌, IfOk, length};
ghost use Rattle.sparql_lexer.specs.Terminal.{terminals};
ghost use Rattle.sparql_grammar.specs.Symbol as the;
ghost use Rattle.sparql_grammar.specs.Values.{anonymous_label};
ghost use Rattle.sparql_grammar.specs.Follow.{heads, is_place, is_verb};
ghost use Rattle.sparql_expression.specs.ParseResult.{Parses, seen};
ghost use Rattle.sparql_parse.specs.Seen.{seen_out};
ghost use Rattle.sparql_parse.specs.Objects.{ParsesObject, ParsesProperty};

use itoa::Buffer;
use rdf_core::vocabulary::RDF_TYPE;
use rdf_core::{Term, Text};
use sparql_expression::tokens::{
    accept, accept_anonymous, accept_blank, accept_name, accept_variable, accept_word,
};
use sparql_expression::{ParseFault, read_term};
use sparql_grammar::Declarations;
use sparql_lexer::{Keyword, Kind, Sign, Token};
use sparql_tree::{Triple, VarOrTerm};
use std::alloc::{AllocError, Global};

/// Returns an equal term or variable that owns its texts.
fn copy_place(alloc: Global, place: &VarOrTerm) -> Result<VarOrTerm, AllocError>
    ensures equal { IfOk result (λ copy. copy ≡ place.now) }
{
    match place {
        VarOrTerm::Variable(name) => Ok(VarOrTerm::Variable(name.copy(alloc)?)),
        VarOrTerm::Blank(label) => Ok(VarOrTerm::Blank(label.copy(alloc)?)),
        VarOrTerm::Term(term) => Ok(VarOrTerm::Term(term.copy(alloc)?)),
    }
}

/// Returns whether the first token can begin a [106] VarOrTerm.
pub fn starts_place(tokens: &[Token]) -> bool
    ensures value { result ≡ heads is_place (terminals tokens.now) }
{
    let Some(first) = tokens.first() else {
        return false;
    };
    match first.kind {
        Kind::IriRef | Kind::Variable | Kind::PrefixedNamespace | Kind::PrefixedName => true,
        Kind::BlankLabel | Kind::Anonymous => true,
        Kind::Integer | Kind::Decimal | Kind::Double => true,
        Kind::SignedInteger | Kind::SignedDecimal | Kind::SignedDouble => true,
        Kind::ShortString | Kind::LongString => true,
        Kind::Keyword(word) => match word {
            Keyword::True | Keyword::False => true,
            _ => false,
        },
        _ => false,
    }
}

/// Returns whether the first token can begin a [78] Verb.
fn starts_verb(tokens: &[Token]) -> bool
    ensures value { result ≡ heads is_verb (terminals tokens.now) }
{
    let Some(first) = tokens.first() else {
        return false;
    };
    match first.kind {
        Kind::IriRef | Kind::Variable | Kind::PrefixedNamespace | Kind::PrefixedName => true,
        Kind::Keyword(word) => match word {
            Keyword::A => true,
            _ => false,
        },
        _ => false,
    }
}

/// Returns the label of an [163] ANON with `remaining` tokens after it. It occurs nowhere else in
/// the text.
fn anonymous_label(alloc: Global, remaining: usize) -> Result<Text, AllocError>
    ensures label { IfOk result (λ label. label ≡ anonymous_label remaining) }
{
    let mut label = String::from_str(alloc, "[")?;
    let mut buffer = Buffer::new();
    label.push_str(buffer.format(remaining as u64))?;
    Ok(Text::from_string(label))
}

/// Reads a [106] VarOrTerm.
fn read_pattern_term<'t, 'a>(
    alloc: Global,
    names: &Declarations,
    tokens: &'t [Token<'a>],
) -> Result<(VarOrTerm, &'t [Token<'a>]), ParseFault>
    ensures reads { Parses names.now the.pattern_term (terminals tokens.now) (seen (λ v. v) result) }
    ensures shorter { IfOk result (λ p. length p.1.now < length tokens.now) }
{
    if let Some((name, after)) = accept_variable(alloc, tokens)? {
        return Ok((VarOrTerm::Variable(name), after));
    }
    if let Some((label, after)) = accept_blank(alloc, tokens)? {
        return Ok((VarOrTerm::Blank(label), after));
    }
    if let Some(after) = accept_anonymous(tokens) {
        let made = anonymous_label(alloc, after.len())?;
        return Ok((VarOrTerm::Blank(made), after));
    }
    let (term, after) = read_term(alloc, names, tokens)?;
    Ok((VarOrTerm::Term(term), after))
}

/// Reads a [78] Verb.
fn read_verb<'t, 'a>(
    alloc: Global,
    names: &Declarations,
    tokens: &'t [Token<'a>],
) -> Result<(VarOrTerm, &'t [Token<'a>]), ParseFault>
    ensures reads { Parses names.now the.verb (terminals tokens.now) (seen (λ v. v) result) }
    ensures shorter { IfOk result (λ p. length p.1.now < length tokens.now) }
{
    if let Some((name, after)) = accept_variable(alloc, tokens)? {
        return Ok((VarOrTerm::Variable(name), after));
    }
    if let Some((iri, after)) = accept_name(alloc, names, tokens)? {
        return Ok((VarOrTerm::Term(Term::Iri(iri)), after));
    }
    let Some(after) = accept_word(tokens, Keyword::A) else {
        return Err(ParseFault::Syntax);
    };
    let iri = Text::from_string(String::from_str(alloc, RDF_TYPE)?);
    Ok((VarOrTerm::Term(Term::Iri(iri)), after))
}

/// Reads an [79] ObjectList of one subject and verb, and appends its triples.
fn read_objects<'t, 'a>(
    alloc: Global,
    names: &Declarations,
    subject: &VarOrTerm,
    verb: &VarOrTerm,
    triples: &mut Vec<Triple>,
    tokens: &'t [Token<'a>],
) -> Result<&'t [Token<'a>], ParseFault>
    ensures reads { Parses names.now (the.objects subject.now verb.now triples.old.items) (terminals tokens.now) (seen_out triples.new.items result) }
    ensures shorter { IfOk result (λ rest. length rest.now < length tokens.now) }
{
    let mut rest = read_object(alloc, names, subject, verb, triples, tokens)?;
    'objects: while let Some(after) = accept(rest, Sign::Comma) {
        rest = read_object(alloc, names, subject, verb, triples, after)?;
    }
    Ok(rest)
}

/// Reads one [80] Object, and appends its triple.
fn read_object<'t, 'a>(
    alloc: Global,
    names: &Declarations,
    subject: &VarOrTerm,
    verb: &VarOrTerm,
    triples: &mut Vec<Triple>,
    tokens: &'t [Token<'a>],
) -> Result<&'t [Token<'a>], ParseFault>
    ensures reads { ParsesObject names.now subject.now verb.now triples.old.items triples.new.items (terminals tokens.now) result }
    ensures shorter { IfOk result (λ rest. length rest.now < length tokens.now) }
{
    let (object, rest) = read_pattern_term(alloc, names, tokens)?;
    triples.push(Triple {
        subject: copy_place(alloc, subject)?,
        predicate: copy_place(alloc, verb)?,
        object,
    })?;
    Ok(rest)
}

/// Reads the [78] Verb and [79] ObjectList of a [77] PropertyListNotEmpty, and appends the triples of this subject.
fn read_property<'t, 'a>(
    alloc: Global,
    names: &Declarations,
    subject: &VarOrTerm,
    triples: &mut Vec<Triple>,
    tokens: &'t [Token<'a>],
) -> Result<&'t [Token<'a>], ParseFault>
    ensures reads { Parses names.now (the.property subject.now triples.old.items) (terminals tokens.now) (seen_out triples.new.items result) }
    ensures shorter { IfOk result (λ rest. length rest.now < length tokens.now) }
{
    let (verb, rest) = read_verb(alloc, names, tokens)?;
    read_objects(alloc, names, subject, &verb, triples, rest)
}

/// Reads the text after `;`: a verb and its objects, or nothing.
fn read_other_property<'t, 'a>(
    alloc: Global,
    names: &Declarations,
    subject: &VarOrTerm,
    triples: &mut Vec<Triple>,
    tokens: &'t [Token<'a>],
) -> Result<&'t [Token<'a>], ParseFault>
    ensures reads { ParsesProperty names.now subject.now triples.old.items triples.new.items (terminals tokens.now) result }
    ensures shorter { IfOk result (λ rest. length rest.now ≤ length tokens.now) }
{
    if !starts_verb(tokens) {
        return Ok(tokens);
    }
    read_property(alloc, names, subject, triples, tokens)
}

/// Reads a [75] TriplesSameSubject, and appends its triples.
fn read_same_subject<'t, 'a>(
    alloc: Global,
    names: &Declarations,
    triples: &mut Vec<Triple>,
    tokens: &'t [Token<'a>],
) -> Result<&'t [Token<'a>], ParseFault>
    ensures reads { Parses names.now (the.same_subject triples.old.items) (terminals tokens.now) (seen_out triples.new.items result) }
    ensures shorter { IfOk result (λ rest. length rest.now < length tokens.now) }
{
    let (subject, remaining) = read_pattern_term(alloc, names, tokens)?;
    let mut rest = read_property(alloc, names, &subject, triples, remaining)?;
    'properties: while let Some(after) = accept(rest, Sign::Semicolon) {
        rest = read_other_property(alloc, names, &subject, triples, after)?;
    }
    Ok(rest)
}

/// Reads a [55] TriplesBlock, and appends its triples.
pub fn read_triples<'t, 'a>(
    alloc: Global,
    names: &Declarations,
    triples: &mut Vec<Triple>,
    tokens: &'t [Token<'a>],
) -> Result<&'t [Token<'a>], ParseFault>
    ensures reads { Parses names.now (the.triples triples.old.items) (terminals tokens.now) (seen_out triples.new.items result) }
    ensures shorter { IfOk result (λ rest. length rest.now < length tokens.now) }
{
    let mut rest = read_same_subject(alloc, names, triples, tokens)?;
    'subjects: while let Some(after) = accept(rest, Sign::Dot) {
        if !starts_place(after) {
            return Ok(after);
        }
        rest = read_same_subject(alloc, names, triples, after)?;
    }
    Ok(rest)
}
