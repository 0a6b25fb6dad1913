//! Compares RDF terms by value, and returns effective boolean values.
//!
//! [`compare`] compares two terms: numbers of any length exactly, by their digits, strings by code
//! points, booleans with false before true. [`truth`] is the effective boolean value of a term.
//! Both return what the tables of the crate algebra_model define (`compares`, `ebv`), with None for
//! an error. Neither of them allocates.
//!
//! A [`Valued`] is a term together with its value, and [`compare_valued`] compares two of them. They
//! save work if one term is compared with many others, as in IN.
//!
//! [`form_key`] returns a number by which literals that may be equal are found. A law says that equal
//! terms have one key, another that the key of a literal is that of its form.
//!
//! The crate expression_values evaluates expressions with these functions, and reexports [`compare`]
//! and [`truth`].
//!
//! Standards: SPARQL 1.1 Query Language, sections 17.2 and 17.3; XML Schema 1.1 Part 2, sections
//! 3.3 and 3.4 (lexical forms of numbers and booleans).
//!
//! Reading order: `digits`, `number`, `literal`, `valued`, `comparison`, `equality`. Tests:
//! `query::values` of spq_tests, and tests/examples/query_values.toml with the files next to it.
//!
//! ```text
//! compare(Comparison::Equal, &one, &one_point_zero)   // "01"^^xsd:integer and 1.0: Some(true)
//! compare(Comparison::Equal, &one, &text)             // an error: None
//! truth(&ill_formed)                                  // "abc"^^xsd:integer: Some(false)
//! ```
//!
//! Not included: values of xsd:float, xsd:double and xsd:dateTime.
#![tactic(auto)]

mod comparison;
mod digits;
mod equality;
mod literal;
mod number;
mod valued;

pub use comparison::{compare, compare_valued, truth};
pub use equality::{equal_terms_have_one_key, form_key, keys_are_of_forms};
pub use valued::Valued;
