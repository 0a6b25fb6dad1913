//! Accepts the first terminal of a list if it is of a class, and returns its value.
//!
//! Each call returns the value and the tokens after the terminal if the list begins with a terminal
//! of its class, and None otherwise.

ghost use Rattle.std.specs.Prelude.{◌<◌, IfOk, length};
ghost use Rattle.std.specs.Option.{IfSome};
ghost use Rattle.sparql_lexer.specs.Terminal.{terminals};
ghost use Rattle.sparql_lexer.specs.declared.token.Kind.TheVariants as kind;
ghost use Rattle.sparql_grammar.specs.Class.{exactly};
ghost use Rattle.sparql_grammar.specs.Class as the_class;
ghost use Rattle.sparql_grammar.specs.Values.{Names};
ghost use Rattle.sparql_expression.specs.Front.{Accepts, accepted, followed};

use crate::tokens::decoding::{
    blank_of, boolean_of, comparison_of, count_of, function_of, language_of, name_of, number_of,
    reference_of, string_of, variable_of,
};
use crate::tokens::front::next;
use rdf_core::{Term, Text};
use sparql_grammar::Declarations;
use sparql_lexer::{Kind, Token};
use sparql_tree::{Comparison, Function};
use std::alloc::{AllocError, Global};

/// Returns the tokens after [163] ANON, or None if it is not the first token.
pub fn accept_anonymous<'t, 'a>(tokens: &'t [Token<'a>]) -> Option<&'t [Token<'a>]>
    ensures accepts { (names : Names) → Accepts names (exactly kind.Anonymous) (terminals tokens.now) (followed result) }
    ensures shorter { IfSome result (λ after. length after.now < length tokens.now) }
{
    match next(tokens) {
        Some((Kind::Anonymous, _, after)) => Some(after),
        _ => None,
    }
}

/// Returns the tokens after [140] PNAME_NS, or None if it is not the first token.
pub fn accept_namespace<'t, 'a>(tokens: &'t [Token<'a>]) -> Option<&'t [Token<'a>]>
    ensures accepts { (names : Names) → Accepts names (exactly kind.PrefixedNamespace) (terminals tokens.now) (followed result) }
    ensures shorter { IfSome result (λ after. length after.now < length tokens.now) }
{
    match next(tokens) {
        Some((Kind::PrefixedNamespace, _, after)) => Some(after),
        _ => None,
    }
}

/// Returns the comparison operator that is the first token, and the tokens after it.
pub fn accept_comparison<'t, 'a>(tokens: &'t [Token<'a>]) -> Option<(Comparison, &'t [Token<'a>])>
    ensures accepts { (names : Names) → Accepts names the_class.comparison (terminals tokens.now) (accepted result) }
    ensures shorter { IfSome result (λ p. length p.1.now < length tokens.now) }
{
    let (found, _, after) = next(tokens)?;
    let value = comparison_of(found)?;
    Some((value, after))
}

/// Returns the function that is the first token, and the tokens after it.
pub fn accept_function<'t, 'a>(tokens: &'t [Token<'a>]) -> Option<(Function, &'t [Token<'a>])>
    ensures accepts { (names : Names) → Accepts names the_class.function (terminals tokens.now) (accepted result) }
    ensures shorter { IfSome result (λ p. length p.1.now < length tokens.now) }
{
    let (found, _, after) = next(tokens)?;
    let value = function_of(found)?;
    Some((value, after))
}

/// Returns the value of an [146] INTEGER that is the first token, and the tokens after it. A value
/// above 18446744073709551615 is replaced by that number.
pub fn accept_count<'t, 'a>(tokens: &'t [Token<'a>]) -> Option<(u64, &'t [Token<'a>])>
    ensures accepts { (names : Names) → Accepts names the_class.count (terminals tokens.now) (accepted result) }
    ensures shorter { IfSome result (λ p. length p.1.now < length tokens.now) }
{
    let (found, text, after) = next(tokens)?;
    let value = count_of(found, text)?;
    Some((value, after))
}

/// Returns the name of a variable that is the first token, and the tokens after it.
///
/// # Errors
/// `AllocError` if an allocation fails.
pub fn accept_variable<'t, 'a>(
    alloc: Global,
    tokens: &'t [Token<'a>],
) -> Result<Option<(Text, &'t [Token<'a>])>, AllocError>
    ensures accepts { IfOk result (λ o. (names : Names) → Accepts names the_class.variable (terminals tokens.now) (accepted o)) }
    ensures shorter { IfOk result (λ o. IfSome o (λ p. length p.1.now < length tokens.now)) }
{
    let Some((found, text, after)) = next(tokens) else {
        return Ok(None);
    };
    match variable_of(alloc, found, text)? {
        Some(value) => Ok(Some((value, after))),
        None => Ok(None),
    }
}

/// Returns the label of a [142] BLANK_NODE_LABEL that is the first token, and the tokens after it.
///
/// # Errors
/// `AllocError` if an allocation fails.
pub fn accept_blank<'t, 'a>(
    alloc: Global,
    tokens: &'t [Token<'a>],
) -> Result<Option<(Text, &'t [Token<'a>])>, AllocError>
    ensures accepts { IfOk result (λ o. (names : Names) → Accepts names the_class.blank (terminals tokens.now) (accepted o)) }
    ensures shorter { IfOk result (λ o. IfSome o (λ p. length p.1.now < length tokens.now)) }
{
    let Some((found, text, after)) = next(tokens) else {
        return Ok(None);
    };
    match blank_of(alloc, found, text)? {
        Some(value) => Ok(Some((value, after))),
        None => Ok(None),
    }
}

/// Returns the IRI of an [136] iri that is the first token, and the tokens after it.
///
/// `names` are the prefix declarations of the text. The function returns None if an escape of the
/// IRI denotes no character that is allowed there.
///
/// # Errors
/// `AllocError` if an allocation fails.
pub fn accept_name<'t, 'a>(
    alloc: Global,
    names: &Declarations,
    tokens: &'t [Token<'a>],
) -> Result<Option<(Text, &'t [Token<'a>])>, AllocError>
    ensures accepts { IfOk result (λ o. Accepts names.now the_class.name (terminals tokens.now) (accepted o)) }
    ensures shorter { IfOk result (λ o. IfSome o (λ p. length p.1.now < length tokens.now)) }
{
    let Some((found, text, after)) = next(tokens) else {
        return Ok(None);
    };
    match name_of(alloc, names, found, text)? {
        Some(value) => Ok(Some((value, after))),
        None => Ok(None),
    }
}

/// Returns the IRI of an [139] IRIREF that is the first token, and the tokens after it.
///
/// The function returns None if an escape of the IRI denotes no character that is allowed there.
///
/// # Errors
/// `AllocError` if an allocation fails.
pub fn accept_reference<'t, 'a>(
    alloc: Global,
    tokens: &'t [Token<'a>],
) -> Result<Option<(Text, &'t [Token<'a>])>, AllocError>
    ensures accepts { IfOk result (λ o. (names : Names) → Accepts names the_class.reference (terminals tokens.now) (accepted o)) }
    ensures shorter { IfOk result (λ o. IfSome o (λ p. length p.1.now < length tokens.now)) }
{
    let Some((found, text, after)) = next(tokens) else {
        return Ok(None);
    };
    match reference_of(alloc, found, text)? {
        Some(value) => Ok(Some((value, after))),
        None => Ok(None),
    }
}

/// Returns the value of a [135] String that is the first token, and the tokens after it.
///
/// The function returns None if an escape of the string denotes no character.
///
/// # Errors
/// `AllocError` if an allocation fails.
pub fn accept_string<'t, 'a>(
    alloc: Global,
    tokens: &'t [Token<'a>],
) -> Result<Option<(Text, &'t [Token<'a>])>, AllocError>
    ensures accepts { IfOk result (λ o. (names : Names) → Accepts names the_class.string (terminals tokens.now) (accepted o)) }
    ensures shorter { IfOk result (λ o. IfSome o (λ p. length p.1.now < length tokens.now)) }
{
    let Some((found, text, after)) = next(tokens) else {
        return Ok(None);
    };
    match string_of(alloc, found, text)? {
        Some(value) => Ok(Some((value, after))),
        None => Ok(None),
    }
}

/// Returns a [145] LANGTAG that is the first token, in lower case and without its `@`, and the
/// tokens after it.
///
/// # Errors
/// `AllocError` if an allocation fails.
pub fn accept_language<'t, 'a>(
    alloc: Global,
    tokens: &'t [Token<'a>],
) -> Result<Option<(Text, &'t [Token<'a>])>, AllocError>
    ensures accepts { IfOk result (λ o. (names : Names) → Accepts names the_class.language (terminals tokens.now) (accepted o)) }
    ensures shorter { IfOk result (λ o. IfSome o (λ p. length p.1.now < length tokens.now)) }
{
    let Some((found, text, after)) = next(tokens) else {
        return Ok(None);
    };
    match language_of(alloc, found, text)? {
        Some(value) => Ok(Some((value, after))),
        None => Ok(None),
    }
}

/// Returns the literal of a [130] NumericLiteral that is the first token, and the tokens after it.
///
/// # Errors
/// `AllocError` if an allocation fails.
pub fn accept_number<'t, 'a>(
    alloc: Global,
    tokens: &'t [Token<'a>],
) -> Result<Option<(Term, &'t [Token<'a>])>, AllocError>
    ensures accepts { IfOk result (λ o. (names : Names) → Accepts names the_class.number (terminals tokens.now) (accepted o)) }
    ensures shorter { IfOk result (λ o. IfSome o (λ p. length p.1.now < length tokens.now)) }
{
    let Some((found, text, after)) = next(tokens) else {
        return Ok(None);
    };
    match number_of(alloc, found, text)? {
        Some(value) => Ok(Some((value, after))),
        None => Ok(None),
    }
}

/// Returns the literal of a [134] BooleanLiteral that is the first token, and the tokens after it.
///
/// # Errors
/// `AllocError` if an allocation fails.
pub fn accept_boolean<'t, 'a>(
    alloc: Global,
    tokens: &'t [Token<'a>],
) -> Result<Option<(Term, &'t [Token<'a>])>, AllocError>
    ensures accepts { IfOk result (λ o. (names : Names) → Accepts names the_class.boolean (terminals tokens.now) (accepted o)) }
    ensures shorter { IfOk result (λ o. IfSome o (λ p. length p.1.now < length tokens.now)) }
{
    let Some((found, _, after)) = next(tokens) else {
        return Ok(None);
    };
    match boolean_of(alloc, found)? {
        Some(value) => Ok(Some((value, after))),
        None => Ok(None),
    }
}
