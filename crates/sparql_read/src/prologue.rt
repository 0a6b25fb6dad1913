//! The prefix declarations of a query, and its prefixed names without a declaration (SPARQL 1.1
//! Query Language, sections 4.1.1 and 19.8, [6] PrefixDecl).

ghost use Rattle.std.specs.Prelude.{◌≡◌, IfOk};
ghost use lib.Utf8.{encodes};
ghost use Rattle.sparql_lexer.specs.Values.{iri_value};
ghost use Rattle.sparql_lexer.specs.Terminal.{terminals};
ghost use Rattle.sparql_grammar.specs.Values.{prefix_of};
ghost use Rattle.sparql_grammar.specs.Prologue.{declaration_at, declarations, declared, is_namespace, is_prefix_word, is_prefixed, is_reference, lacks_declaration};

use rdf_core::Text;
use sparql_grammar::{Declaration, Declarations};
use sparql_lexer::{Keyword, Kind, Token, iri_value, text_of};
use std::alloc::{AllocError, Global};

fn is_prefix_word(kind: Kind) -> bool
    ensures value { result ≡ is_prefix_word kind }
{
    match kind {
        Kind::Keyword(Keyword::Prefix) => true,
        _ => false,
    }
}

fn is_namespace(kind: Kind) -> bool
    ensures value { result ≡ is_namespace kind }
{
    match kind {
        Kind::PrefixedNamespace => true,
        _ => false,
    }
}

fn is_reference(kind: Kind) -> bool
    ensures value { result ≡ is_reference kind }
{
    match kind {
        Kind::IriRef => true,
        _ => false,
    }
}

fn is_prefixed(kind: Kind) -> bool
    ensures value { result ≡ is_prefixed kind }
{
    match kind {
        Kind::PrefixedNamespace | Kind::PrefixedName => true,
        _ => false,
    }
}

/// Returns the part of a prefixed name before its first colon.
fn prefix_of(name: &[char]) -> &[char]
    ensures value { result.now ≡ prefix_of name.now }
{
    let mut end: usize = 0;
    while end < name.len() && name[end] != ':' {
        end += 1;
    }
    &name[..end]
}

/// Returns the prefix of a name as a text.
///
/// # Errors
/// `AllocError` if an allocation fails.
fn prefix_text(alloc: Global, name: &[char]) -> Result<Text, AllocError>
    ensures value { IfOk result (λ prefix. prefix ≡ encodes (prefix_of name.now)) }
{
    Ok(Text::from_string(text_of(alloc, prefix_of(name))?))
}

/// Returns the declaration `PREFIX e: <iri>` of a [140] PNAME_NS and an [139] IRIREF, or None if an
/// escape of the IRI denotes no character.
///
/// # Errors
/// `AllocError` if an allocation fails.
fn declare(
    alloc: Global,
    namespace: &[char],
    reference: &[char],
) -> Result<Option<Declaration>, AllocError>
    ensures value { IfOk result (λ found. found ≡ declared namespace.now (iri_value reference.now)) }
{
    match iri_value(alloc, reference)? {
        Some(iri) => Ok(Some(Declaration {
            prefix: prefix_text(alloc, namespace)?,
            iri,
        })),
        None => Ok(None),
    }
}

/// Returns the declaration at the start of the terminals, or None if there is none.
///
/// # Errors
/// `AllocError` if an allocation fails.
fn declaration_at(alloc: Global, tokens: &[Token<'_>]) -> Result<Option<Declaration>, AllocError>
    ensures value { IfOk result (λ found. found ≡ declaration_at (terminals tokens.now)) }
{
    if tokens.len() < 3 {
        return Ok(None);
    }
    let opens = is_prefix_word(tokens[0].kind)
        && is_namespace(tokens[1].kind)
        && is_reference(tokens[2].kind);
    if !opens {
        return Ok(None);
    }
    declare(alloc, tokens[1].text, tokens[2].text)
}

/// Returns the prefix declarations of a query, given its terminals. The last of two declarations of
/// one prefix is the one that counts.
///
/// # Errors
/// `AllocError` if an allocation fails.
pub fn declarations_of(alloc: Global, tokens: &[Token<'_>]) -> Result<Declarations, AllocError>
    ensures value { IfOk result (λ names. names ≡ declarations (terminals tokens.now)) }
{
    let mut names = Declarations::new(alloc);
    for i in 0..tokens.len() {
        if let Some(declaration) = declaration_at(alloc, &tokens[i..])? {
            names.add(declaration)?;
        }
    }
    Ok(names)
}

/// Returns whether some prefixed name among the terminals has no declaration in `names`.
///
/// With the declarations of these terminals ([`declarations_of`]) this is the rule that rejects a
/// query with `UndefinedPrefix`.
///
/// # Errors
/// `AllocError` if an allocation fails.
pub fn has_undefined_prefix(
    alloc: Global,
    names: &Declarations,
    tokens: &[Token<'_>],
) -> Result<bool, AllocError>
    ensures value { IfOk result (λ found. found ≡ lacks_declaration names.now (terminals tokens.now)) }
{
    for token in tokens {
        if is_prefixed(token.kind) {
            let prefix = prefix_text(alloc, token.text)?;
            if names.find(prefix.as_str()).is_none() {
                return Ok(true);
            }
        }
    }
    Ok(false)
}
