//! Readers of single tokens, for the readers of terms and expressions here, and for those of groups and
//! queries in sparql_parse.
//!
//! [`next`] is the first token of a list. [`accept`], [`accept_word`] and the other functions take a
//! token of one class from the front of a list, with its value, exactly if there is one.

pub(crate) mod classes;
pub(crate) mod decoding;
pub(crate) mod front;

pub use classes::{
    accept_anonymous, accept_blank, accept_boolean, accept_comparison, accept_count,
    accept_function, accept_language, accept_name, accept_namespace, accept_number,
    accept_reference, accept_string, accept_variable,
};
pub use front::{accept, accept_word, next};
