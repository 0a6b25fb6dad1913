//! Intermediate values: a borrowed or owned term, or a truth value that is not a literal yet.
ghost use Rattle.std.specs.Prelude.{◌≡◌, IfOk, IsOk, None, Some, option_map, true};
ghost use Rattle.rdf_core.specs.declared.term.Term.TheVariants.{Literal};
ghost use Rattle.algebra_model.specs.BooleanValue.{ebv};
ghost use Rattle.algebra_model.specs.Call.{boolean_term, call_value, datatype, lang, str, string_term};
ghost use Rattle.algebra_model.specs.Expression.{boolean_result};
ghost use Rattle.expression_values.specs.ExpressionOf.{function_of};
ghost use Rattle.expression_values.specs.HeldTerm.{held_term, is_held, value_term};
ghost use Rattle.expression_values.specs.NoAllocation.{is_test};

use rdf_core::vocabulary::{XSD_BOOLEAN, XSD_STRING};
use rdf_core::{Term, Text};
use sparql_tree::Function;
use std::alloc::{AllocError, Global};
use term_values::truth;

/// A borrowed term, or an owned one.
pub enum Held<'a> {
    Borrowed(&'a Term),
    Owned(Term),
}

impl<'a> Drop for Held<'a> {
    /// Written by hand (docs/PROOF.md).
    fn drop(self) {
        match self {
            Held::Borrowed(_) | Held::Owned(_) => {}
        }
    }
}

/// The value of an expression: a term, or a truth value in place of the boolean literal.
pub enum Value<'a> {
    Held(Held<'a>),
    Truth(bool),
}

impl<'a> Drop for Value<'a> {
    /// Written by hand (docs/PROOF.md).
    fn drop(self) {
        match self {
            Value::Held(_) | Value::Truth(_) => {}
        }
    }
}

impl<'a> Held<'a> {
    pub fn as_term(&self) -> &Term
        ensures term { result.now ≡ held_term self.now }
    {
        match self {
            Held::Borrowed(term) => term,
            Held::Owned(term) => term,
        }
    }

    /// Returns the term itself. Only a borrowed term is copied; an owned term allocates nothing.
    pub fn into_term(self, alloc: Global) -> Result<Term, AllocError>
        ensures term { IfOk result (λ term. term ≡ held_term self.entry) }
        ensures owned { (term : Term) → self.entry ≡ Held.Owned term → result ≡ Ok term }
    {
        match self {
            Held::Borrowed(term) => term.copy(alloc),
            Held::Owned(term) => Ok(term),
        }
    }
}

impl<'a> Value<'a> {
    /// Returns the value as a term: a truth value becomes a literal. A term allocates nothing.
    pub fn into_held(self, alloc: Global) -> Result<Held<'a>, AllocError>
        ensures term { IfOk result (λ held. held_term held ≡ value_term self.entry) }
        ensures held { is_held self.entry ≡ true → IsOk result }
    {
        match self {
            Value::Held(held) => Ok(held),
            Value::Truth(value) => Ok(Held::Owned(boolean_term(alloc, value)?)),
        }
    }

    /// Returns the effective boolean value, or None if it is an error.
    pub fn truth(&self) -> Option<bool>
        ensures truth { result ≡ ebv (value_term self.now) }
    {
        match self {
            Value::Held(held) => truth(held.as_term()),
            Value::Truth(value) => Some(*value),
        }
    }
}

/// Makes a value of the result of a test; None is an error.
pub fn boolean_value<'a>(outcome: Option<bool>) -> Option<Value<'a>>
    ensures value { option_map value_term result ≡ boolean_result outcome }
{
    match outcome {
        Some(value) => Some(Value::Truth(value)),
        None => None,
    }
}

/// Calls a function on a term (SPARQL 1.1 Query Language, section 17.4.2). Returns None if the call
/// is an error. isIRI, isBlank and isLiteral allocate nothing, and neither does an error.
pub fn call<'a>(
    alloc: Global,
    function: Function,
    term: &Term,
) -> Result<Option<Value<'a>>, AllocError>
    ensures value { IfOk result (λ value. option_map value_term value ≡ call_value (function_of function) term.entry.now) }
    ensures test { is_test (function_of function) ≡ true → IsOk result }
    ensures error { call_value (function_of function) term.entry.now ≡ None → IsOk result }
{
    match function {
        Function::Str => text_of(alloc, term),
        Function::Lang => language_of(alloc, term),
        Function::Datatype => datatype_of(alloc, term),
        Function::IsIri => Ok(Some(Value::Truth(matches!(term, Term::Iri(_))))),
        Function::IsBlank => Ok(Some(Value::Truth(matches!(term, Term::Blank(_))))),
        Function::IsLiteral => Ok(Some(Value::Truth(matches!(term, Term::Literal { .. })))),
    }
}

fn text_of<'a>(alloc: Global, term: &Term) -> Result<Option<Value<'a>>, AllocError>
    ensures value { IfOk result (λ value. option_map value_term value ≡ call_value str term.entry.now) }
    ensures error { call_value str term.entry.now ≡ None → IsOk result }
{
    match term {
        Term::Literal { lexical, .. } => string_value(alloc, lexical.as_str()),
        Term::Iri(text) => string_value(alloc, text.as_str()),
        Term::Blank(_) => Ok(None),
    }
}

fn language_of<'a>(alloc: Global, term: &Term) -> Result<Option<Value<'a>>, AllocError>
    ensures value { IfOk result (λ value. option_map value_term value ≡ call_value lang term.entry.now) }
    ensures error { call_value lang term.entry.now ≡ None → IsOk result }
{
    match term {
        Term::Literal { tag: Some(tag), .. } => string_value(alloc, tag.as_str()),
        Term::Literal { tag: None, .. } => string_value(alloc, ""),
        Term::Iri(_) | Term::Blank(_) => Ok(None),
    }
}

fn datatype_of<'a>(alloc: Global, term: &Term) -> Result<Option<Value<'a>>, AllocError>
    ensures value { IfOk result (λ value. option_map value_term value ≡ call_value datatype term.entry.now) }
    ensures error { call_value datatype term.entry.now ≡ None → IsOk result }
{
    match term {
        Term::Literal { datatype, .. } => {
            let iri = Term::Iri(datatype.copy(alloc)?);
            Ok(Some(Value::Held(Held::Owned(iri))))
        }
        Term::Iri(_) | Term::Blank(_) => Ok(None),
    }
}

/// Returns the literal of xsd:string with this form, as the result of a call.
fn string_value<'a>(alloc: Global, form: &str) -> Result<Option<Value<'a>>, AllocError>
    ensures value { IfOk result
        (λ value. option_map value_term value ≡ Some (string_term form.entry.now)) }
{
    let term = literal(alloc, form, XSD_STRING)?;
    Ok(Some(Value::Held(Held::Owned(term))))
}

fn boolean_term(alloc: Global, value: bool) -> Result<Term, AllocError>
    ensures term { IfOk result (λ term. term ≡ boolean_term value) }
{
    let form = if value { "true" } else { "false" };
    literal(alloc, form, XSD_BOOLEAN)
}

/// Creates a literal without a language tag.
fn literal(alloc: Global, form: &str, datatype: &str) -> Result<Term, AllocError>
    ensures literal { IfOk result (λ term. term ≡ Literal form.now datatype.now None) }
{
    Ok(Term::Literal {
        lexical: text(alloc, form)?,
        datatype: text(alloc, datatype)?,
        tag: None,
    })
}

fn text(alloc: Global, form: &str) -> Result<Text, AllocError>
    ensures text { IfOk result (λ text. text ≡ form.now) }
{
    Ok(Text::from_string(String::from_str(alloc, form)?))
}
