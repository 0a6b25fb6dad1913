//! Comparisons of terms and effective boolean values (SPARQL 1.1 Query Language, sections 17.2 and
//! 17.3). Nothing here allocates.
ghost use Rattle.std.specs.Prelude.{◌≡◌, ◌&&◌};
ghost use Rattle.algebra_model.specs.BooleanValue.{ebv, has_characters, value_ebv};
ghost use Rattle.algebra_model.specs.Comparison.{compares, equal_by, is_literal, terms_equal, value_cmp, value_of};
ghost use Rattle.term_values.specs.ComparisonOf.{comparison_of};
ghost use Rattle.term_values.specs.ValueShown.{value_shown};

use crate::literal::{LiteralValue, is_number_type, literal_value};
use crate::number::{compare_numbers, is_zero};
use crate::valued::Valued;
use rdf_core::Term;
use rdf_core::vocabulary::XSD_BOOLEAN;
use sparql_tree::Comparison;
use std::cmp::Ordering;

/// Compares two terms, and returns None if the comparison is an error (SPARQL 1.1 Query Language,
/// sections 17.3 and 17.4.1.7).
///
/// Numbers of any length are compared exactly by their values, strings by code points, and booleans
/// with false before true. Any other pair of terms has no order, not even a term and itself.
/// Equality of the same term is true. Two literals that are not the same term may or may not be
/// equal, so their equality is an error too.
pub fn compare(operator: Comparison, left: &Term, right: &Term) -> Option<bool>
    ensures compared { result ≡ compares (comparison_of operator) left.now right.now }
{
    compare_valued(operator, &Valued::new(left), &Valued::new(right))
}

/// Compares two terms whose values are known. Returns what [`compare`] returns for them, None for an error (SPARQL
/// 1.1 Query Language, sections 17.3 and 17.4.1.7).
pub fn compare_valued(operator: Comparison, left: &Valued, right: &Valued) -> Option<bool>
    ensures compared { result ≡ compares (comparison_of operator) left.now.term.now right.now.term.now }
{
    let order = term_order(left, right);
    match operator {
        Comparison::Equal => equal_by(order, left.term, right.term),
        Comparison::NotEqual => Some(!equal_by(order, left.term, right.term)?),
        Comparison::Less => Some(order?.is_lt()),
        Comparison::Greater => Some(order?.is_gt()),
        Comparison::LessOrEqual => Some(order?.is_le()),
        Comparison::GreaterOrEqual => Some(order?.is_ge()),
    }
}

/// Returns the effective boolean value of a term, or None if it is an error (SPARQL 1.1 Query
/// Language, section 17.2.2).
///
/// An ill-formed number or boolean is false. An xsd:float or xsd:double is an error, whether it is
/// well-formed or not.
pub fn truth(term: &Term) -> Option<bool>
    ensures truth { result ≡ ebv term.now }
{
    match term {
        Term::Literal {
            lexical,
            datatype,
            tag: None,
        } => value_truth(
            &literal_value(lexical.as_str(), datatype.as_str()),
            datatype.as_str(),
        ),
        Term::Literal {
            lexical,
            tag: Some(_),
            ..
        } => Some(has_characters(lexical.as_str())),
        Term::Blank(_) | Term::Iri(_) => None,
    }
}

fn value_truth(value: &LiteralValue, datatype: &str) -> Option<bool>
    ensures truth { result ≡ value_ebv (value_shown value.now) datatype.now }
{
    match value {
        LiteralValue::Boolean(value) => Some(*value),
        LiteralValue::String(form) => Some(has_characters(form)),
        LiteralValue::Number(digits) => Some(!is_zero(digits)),
        LiteralValue::Other => {
            if datatype == XSD_BOOLEAN || is_number_type(datatype) {
                Some(false)
            } else {
                None
            }
        }
    }
}

fn has_characters(form: &str) -> bool
    ensures value { result ≡ has_characters form.now }
{
    !form.is_empty()
}

/// Returns the order of two terms by value, if both are numbers, strings or booleans.
fn term_order(left: &Valued, right: &Valued) -> Option<Ordering>
    ensures order { result ≡ value_cmp (value_of left.now.term.now) (value_of right.now.term.now) }
{
    value_order(&left.value, &right.value)
}

/// Returns the order by value, if both are numbers, strings or booleans.
fn value_order(left: &LiteralValue, right: &LiteralValue) -> Option<Ordering>
    ensures order { result ≡ value_cmp (value_shown left.now) (value_shown right.now) }
{
    match left {
        LiteralValue::Number(left) => match right {
            LiteralValue::Number(right) => Some(compare_numbers(left, right)),
            LiteralValue::Boolean(_) | LiteralValue::String(_) | LiteralValue::Other => None,
        },
        LiteralValue::String(left) => match right {
            LiteralValue::String(right) => Some(left.cmp(right)),
            LiteralValue::Boolean(_) | LiteralValue::Number(_) | LiteralValue::Other => None,
        },
        LiteralValue::Boolean(left) => match right {
            LiteralValue::Boolean(right) => Some(left.cmp(right)),
            LiteralValue::Number(_) | LiteralValue::String(_) | LiteralValue::Other => None,
        },
        LiteralValue::Other => None,
    }
}

fn equal_by(order: Option<Ordering>, left: &Term, right: &Term) -> Option<bool>
    ensures equal { result ≡ equal_by order left.now right.now }
{
    match order {
        Some(order) => Some(order.is_eq()),
        None => terms_equal(left, right),
    }
}

fn terms_equal(left: &Term, right: &Term) -> Option<bool>
    ensures equal { result ≡ terms_equal left.now right.now }
{
    if left == right {
        Some(true)
    } else if is_literal(left) && is_literal(right) {
        None
    } else {
        Some(false)
    }
}

fn is_literal(term: &Term) -> bool
    ensures value { result ≡ is_literal term.now }
{
    matches!(term, Term::Literal { .. })
}
