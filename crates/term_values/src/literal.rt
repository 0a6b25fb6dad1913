//! The value of a literal, by its datatype and lexical form (SPARQL 1.1 Query Language, sections
//! 17.1 and 17.2; XML Schema 1.1 Part 2, sections 3.3 and 3.4).
ghost use Rattle.std.specs.Prelude.{◌≡◌, option_map, true};
ghost use Rattle.std.specs.List.{list_any};
ghost use Rattle.std.specs.Str.{bytes_eq};
ghost use Rattle.algebra_model.specs.Comparison.{value_of};
ghost use Rattle.algebra_model.specs.LiteralValue.{boolean_value, is_integer_type, is_number_type, literal_value, number_or_other};
ghost use Rattle.term_values.specs.NumberShown.{number_shown};
ghost use Rattle.term_values.specs.ValueShown.{value_shown};

use crate::digits::Digits;
use crate::number::{decimal_digits, integer_digits};
use rdf_core::Term;
use rdf_core::vocabulary::{XSD_BOOLEAN, XSD_DECIMAL, XSD_INTEGER, XSD_STRING};

/// The value of a term in a comparison.
#[derive(Clone, Copy)]
pub enum LiteralValue<'a> {
    Number(Digits<'a>),
    Boolean(bool),
    String(&'a str),
    /// Every other term: IRIs, blank nodes, literals with a language tag or another datatype, and
    /// ill-formed numbers and booleans.
    Other,
}

/// Returns the value of a term.
pub fn value_of(term: &Term) -> LiteralValue<'_>
    ensures value { value_shown result ≡ value_of term.now }
{
    match term {
        Term::Literal {
            lexical,
            datatype,
            tag: None,
        } => literal_value(lexical.as_str(), datatype.as_str()),
        Term::Literal { tag: Some(_), .. } | Term::Blank(_) | Term::Iri(_) => LiteralValue::Other,
    }
}

/// Returns the value of a literal without a language tag.
pub fn literal_value<'a>(form: &'a str, datatype: &str) -> LiteralValue<'a>
    ensures value { value_shown result ≡ literal_value form.entry.now datatype.entry.now }
{
    if is_same(datatype, XSD_STRING) {
        LiteralValue::String(form)
    } else if is_same(datatype, XSD_BOOLEAN) {
        boolean_value(form)
    } else if is_same(datatype, XSD_DECIMAL) {
        number_or_other(decimal_digits(form.as_bytes()))
    } else if is_integer_type(datatype) {
        number_or_other(integer_digits(form.as_bytes()))
    } else {
        LiteralValue::Other
    }
}

/// Returns whether the datatype is one of the number types that are compared by value.
pub fn is_number_type(datatype: &str) -> bool
    ensures value { result ≡ is_number_type datatype.now }
{
    is_same(datatype, XSD_DECIMAL) || is_integer_type(datatype)
}

pub(crate) fn number_or_other(digits: Option<Digits<'_>>) -> LiteralValue<'_>
    ensures value { value_shown result ≡ number_or_other (option_map number_shown digits.entry) }
{
    match digits {
        Some(digits) => LiteralValue::Number(digits),
        None => LiteralValue::Other,
    }
}

pub(crate) fn boolean_value(form: &str) -> LiteralValue<'_>
    ensures value { value_shown result ≡ boolean_value form.now }
{
    match form {
        "true" | "1" => LiteralValue::Boolean(true),
        "false" | "0" => LiteralValue::Boolean(false),
        _ => LiteralValue::Other,
    }
}

/// Returns whether the datatype is xsd:integer or a type derived from it.
fn is_integer_type(datatype: &str) -> bool
    ensures value { result ≡ is_integer_type datatype.now }
{
    is_one_of(datatype, &INTEGER_TYPES)
}

fn is_one_of(name: &str, names: &[&str]) -> bool
    ensures value { result ≡ list_any (λ other. bytes_eq name.now other.now) names.now }
{
    for other in names {
        if is_same(name, other) {
            return true;
        }
    }
    false
}

/// Returns whether two IRIs are equal.
///
/// The IRIs of XML Schema's datatypes have the same beginning. So the lengths and the last bytes are
/// compared first: these differ for most pairs.
fn is_same(iri: &str, other: &str) -> bool
    ensures value { result ≡ bytes_eq iri.now other.now }
{
    iri.len() == other.len() && ends_alike(iri.as_bytes(), other.as_bytes()) && iri == other
}

/// Returns whether two texts have the same last byte, or are both empty.
fn ends_alike(text: &[u8], other: &[u8]) -> bool
    ensures same { bytes_eq text.now other.now ≡ true → result ≡ true }
{
    match text {
        [.., last] => match other {
            [.., other_last] => *last == *other_last,
            [] => false,
        },
        [] => other.is_empty(),
    }
}

/// The IRIs of xsd:integer and of the types derived from it.
const INTEGER_TYPES: [&str; 13] = [
    XSD_INTEGER,
    "http://www.w3.org/2001/XMLSchema#nonPositiveInteger",
    "http://www.w3.org/2001/XMLSchema#negativeInteger",
    "http://www.w3.org/2001/XMLSchema#long",
    "http://www.w3.org/2001/XMLSchema#int",
    "http://www.w3.org/2001/XMLSchema#short",
    "http://www.w3.org/2001/XMLSchema#byte",
    "http://www.w3.org/2001/XMLSchema#nonNegativeInteger",
    "http://www.w3.org/2001/XMLSchema#unsignedLong",
    "http://www.w3.org/2001/XMLSchema#unsignedInt",
    "http://www.w3.org/2001/XMLSchema#unsignedShort",
    "http://www.w3.org/2001/XMLSchema#unsignedByte",
    "http://www.w3.org/2001/XMLSchema#positiveInteger",
];
