//! The value of a terminal, from its kind and its characters.

ghost use Rattle.std.specs.Prelude.{◌≡◌, ◌≤◌, IfOk, length, nat_eq, position, MatchOption, None, Some, drop, string_bytes};
ghost use lib.Utf8.{encodes};
ghost use Rattle.rdf_core.specs.Vocabulary.{xsd_boolean};
ghost use Rattle.rdf_core.specs.declared.term.Term.TheVariants.{Literal};
ghost use Rattle.sparql_grammar.specs.Class.{comparison_of, function_of, variable_of, blank_of, reference_of, name_of, string_of, language_of, number_of, number_type, boolean_of, count_of};
ghost use Rattle.sparql_grammar.specs.Values.{capped, colon_at, expanded, prefix_of, local_of, unescaped};

use rdf_core::lexical::lower_tag;
use rdf_core::vocabulary::{XSD_BOOLEAN, XSD_DECIMAL, XSD_DOUBLE, XSD_INTEGER};
use rdf_core::{Term, Text};
use sparql_grammar::Declarations;
use sparql_lexer::{Keyword, Kind, Sign, iri_value, string_value, text_of};
use sparql_tree::{Comparison, Function};
use std::alloc::{AllocError, Global};

/// Returns the comparison operator of a sign, or None if the terminal is not one.
pub fn comparison_of(kind: Kind) -> Option<Comparison>
    ensures { result ≡ comparison_of kind }
{
    match kind {
        Kind::Sign(Sign::Equal) => Some(Comparison::Equal),
        Kind::Sign(Sign::NotEqual) => Some(Comparison::NotEqual),
        Kind::Sign(Sign::Less) => Some(Comparison::Less),
        Kind::Sign(Sign::Greater) => Some(Comparison::Greater),
        Kind::Sign(Sign::LessOrEqual) => Some(Comparison::LessOrEqual),
        Kind::Sign(Sign::GreaterOrEqual) => Some(Comparison::GreaterOrEqual),
        _ => None,
    }
}

/// Returns the function of a keyword, or None if the terminal is not one.
pub fn function_of(kind: Kind) -> Option<Function>
    ensures { result ≡ function_of kind }
{
    match kind {
        Kind::Keyword(Keyword::Str) => Some(Function::Str),
        Kind::Keyword(Keyword::Lang) => Some(Function::Lang),
        Kind::Keyword(Keyword::Datatype) => Some(Function::Datatype),
        Kind::Keyword(Keyword::IsIri) => Some(Function::IsIri),
        Kind::Keyword(Keyword::IsBlank) => Some(Function::IsBlank),
        Kind::Keyword(Keyword::IsLiteral) => Some(Function::IsLiteral),
        _ => None,
    }
}

/// Returns the text after the first `count` characters.
fn text_after(alloc: Global, text: &[char], count: usize) -> Result<Text, AllocError>
    ensures { IfOk result (λ t. t ≡ encodes (drop count text.now)) }
{
    let (_, remaining) = text.split_at(count.min(text.len()));
    Ok(Text::from_string(text_of(alloc, remaining)?))
}

/// Returns the name of a variable without its `?` or `$`, or None if the terminal is not a
/// variable.
///
/// # Errors
/// `AllocError` if an allocation fails.
pub fn variable_of(alloc: Global, kind: Kind, text: &[char]) -> Result<Option<Text>, AllocError>
    ensures { IfOk result (λ found. found ≡ variable_of kind text.now) }
{
    match kind {
        Kind::Variable => Ok(Some(text_after(alloc, text, 1)?)),
        _ => Ok(None),
    }
}

/// Returns the label of a [142] BLANK_NODE_LABEL without `_:`, or None if the terminal is not one.
///
/// # Errors
/// `AllocError` if an allocation fails.
pub fn blank_of(alloc: Global, kind: Kind, text: &[char]) -> Result<Option<Text>, AllocError>
    ensures { IfOk result (λ found. found ≡ blank_of kind text.now) }
{
    match kind {
        Kind::BlankLabel => Ok(Some(text_after(alloc, text, 2)?)),
        _ => Ok(None),
    }
}

/// Returns the IRI of an [139] IRIREF. Returns None if the terminal is not one, or if an escape
/// denotes no character that is allowed there.
///
/// # Errors
/// `AllocError` if an allocation fails.
pub fn reference_of(alloc: Global, kind: Kind, text: &[char]) -> Result<Option<Text>, AllocError>
    ensures { IfOk result (λ found. found ≡ reference_of kind text.now) }
{
    match kind {
        Kind::IriRef => iri_value(alloc, text),
        _ => Ok(None),
    }
}

fn first_colon(text: &[char]) -> Option<usize>
    ensures { result ≡ position (λ c. nat_eq c 58) text.now }
{
    text.iter().position(|c| *c == ':')
}

/// Returns the place of the first colon, or the length if there is none.
fn colon_at(text: &[char]) -> usize
    ensures value { result ≡ colon_at text.now }
    ensures within { result ≤ length text.now }
{
    match first_colon(text) {
        Some(end) => end,
        None => text.len(),
    }
}

/// Returns the parts of a prefixed name before and after its first colon.
fn split_name(text: &[char]) -> (&[char], &[char])
    ensures prefix { result.0.now ≡ prefix_of text.now }
    ensures local { result.1.now ≡ local_of text.now }
{
    let end = colon_at(text);
    let (prefix, _) = text.split_at(end);
    let (_, local) = text.split_at((end + 1).min(text.len()));
    (prefix, local)
}

/// Returns the text without its backslashes.
fn unescaped(alloc: Global, text: &[char]) -> Result<String, AllocError>
    ensures { IfOk result (λ s. string_bytes s ≡ encodes (unescaped text.now)) }
{
    text.iter().copied().filter(|c| *c != '\\').collect(alloc)
}

/// Returns the IRI of a prefixed name, from the declarations of the text. Returns the name as
/// written if its prefix has no declaration.
///
/// # Errors
/// `AllocError` if an allocation fails.
pub fn expanded(alloc: Global, names: &Declarations, text: &[char]) -> Result<Text, AllocError>
    ensures { IfOk result (λ t. t ≡ expanded names.now text.now) }
{
    let (prefix, local) = split_name(text);
    let prefix = text_of(alloc, prefix)?;
    let Some(declaration) = names.find(prefix.as_str()) else {
        return Ok(Text::from_string(text_of(alloc, text)?));
    };
    let local = unescaped(alloc, local)?;
    let mut iri = String::from_str(alloc, declaration.iri.as_str())?;
    iri.push_str(local.as_str())?;
    Ok(Text::from_string(iri))
}

/// Returns the IRI of an [139] IRIREF or of a prefixed name. Returns None if the terminal is
/// neither, or if an escape denotes no character that is allowed there.
///
/// # Errors
/// `AllocError` if an allocation fails.
pub fn name_of(
    alloc: Global,
    names: &Declarations,
    kind: Kind,
    text: &[char],
) -> Result<Option<Text>, AllocError>
    ensures { IfOk result (λ found. found ≡ name_of names.now kind text.now) }
{
    match kind {
        Kind::IriRef => iri_value(alloc, text),
        Kind::PrefixedName => Ok(Some(expanded(alloc, names, text)?)),
        Kind::PrefixedNamespace => Ok(Some(expanded(alloc, names, text)?)),
        _ => Ok(None),
    }
}

/// Returns the string between its quotes. Returns None if the terminal is not a string, or if an
/// escape denotes no character.
///
/// # Errors
/// `AllocError` if an allocation fails.
pub fn string_of(alloc: Global, kind: Kind, text: &[char]) -> Result<Option<Text>, AllocError>
    ensures { IfOk result (λ found. found ≡ string_of kind text.now) }
{
    match kind {
        Kind::ShortString => string_value(alloc, Kind::ShortString, text),
        Kind::LongString => string_value(alloc, Kind::LongString, text),
        _ => Ok(None),
    }
}

/// Returns a language tag without its `@`, in lower case, or None if the terminal is not one.
///
/// # Errors
/// `AllocError` if an allocation fails.
pub fn language_of(alloc: Global, kind: Kind, text: &[char]) -> Result<Option<Text>, AllocError>
    ensures { IfOk result (λ found. found ≡ language_of kind text.now) }
{
    match kind {
        Kind::LanguageTag => {
            let tag = text_after(alloc, text, 1)?;
            Ok(Some(lower_tag(alloc, tag.as_str())?))
        }
        _ => Ok(None),
    }
}

fn number_type(kind: Kind) -> Option<&'static str>
    ensures { MatchOption result (number_type kind ≡ None) (λ d. number_type kind ≡ Some d.now) }
{
    match kind {
        Kind::Integer => Some(XSD_INTEGER),
        Kind::SignedInteger => Some(XSD_INTEGER),
        Kind::Decimal => Some(XSD_DECIMAL),
        Kind::SignedDecimal => Some(XSD_DECIMAL),
        Kind::Double => Some(XSD_DOUBLE),
        Kind::SignedDouble => Some(XSD_DOUBLE),
        _ => None,
    }
}

/// Returns the literal of a number, whose lexical form is its text with its sign. Returns None if
/// the terminal is not a number.
///
/// # Errors
/// `AllocError` if an allocation fails.
pub fn number_of(alloc: Global, kind: Kind, text: &[char]) -> Result<Option<Term>, AllocError>
    ensures { IfOk result (λ found. found ≡ number_of kind text.now) }
{
    let Some(datatype) = number_type(kind) else {
        return Ok(None);
    };
    let lexical = Text::from_string(text_of(alloc, text)?);
    let datatype = Text::from_string(String::from_str(alloc, datatype)?);
    Ok(Some(Term::Literal {
        lexical,
        datatype,
        tag: None,
    }))
}

fn boolean(alloc: Global, word: &str) -> Result<Term, AllocError>
    ensures { IfOk result (λ t. t ≡ Literal word.now xsd_boolean None) }
{
    let lexical = Text::from_string(String::from_str(alloc, word)?);
    let datatype = Text::from_string(String::from_str(alloc, XSD_BOOLEAN)?);
    Ok(Term::Literal {
        lexical,
        datatype,
        tag: None,
    })
}

/// Returns the literal `true` or `false` of a boolean, or None if the terminal is not a boolean.
///
/// # Errors
/// `AllocError` if an allocation fails.
pub fn boolean_of(alloc: Global, kind: Kind) -> Result<Option<Term>, AllocError>
    ensures { IfOk result (λ found. found ≡ boolean_of kind) }
{
    match kind {
        Kind::Keyword(Keyword::True) => Ok(Some(boolean(alloc, "true")?)),
        Kind::Keyword(Keyword::False) => Ok(Some(boolean(alloc, "false")?)),
        _ => Ok(None),
    }
}

fn capped(text: &[char]) -> u64
    ensures { result ≡ capped text.now }
{
    let mut number: u64 = 0;
    for c in text {
        let digit = u64::from(u32::from(*c)).saturating_sub(48);
        number = number.saturating_mul(10).saturating_add(digit);
    }
    number
}

/// Returns the value of an [146] INTEGER, or None if the terminal is not one. A value above
/// 18446744073709551615 is replaced by that number.
pub fn count_of(kind: Kind, text: &[char]) -> Option<u64>
    ensures { result ≡ count_of kind text.now }
{
    match kind {
        Kind::Integer => Some(capped(text)),
        _ => None,
    }
}
