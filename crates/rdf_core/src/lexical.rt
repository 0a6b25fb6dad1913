//! Lexical forms that N-Quads and SPARQL share (RDF 1.1 N-Quads, section 4; SPARQL 1.1 Query
//! Language, section 19.8): character classes, the text between angle brackets or quotes with its
//! escapes, language tags, and the scheme of an IRI.
//!
//! [`read_iri_ref`] and [`read_quoted`] find the end of a terminal and decode it in one call.
//! [`unescape_iri`] and [`unescape_string`] decode a terminal that the caller has already
//! delimited.

mod characters;
mod enclosed;
mod escapes;
mod plain;
mod schemes;
mod tags;

pub use characters::{
    first_char, is_hex, is_iri_char, is_joining, is_label_char, is_label_start, is_name_char,
    is_name_start, is_pn_chars_base, is_quoted_char, is_string_char,
};
pub use enclosed::{read_iri_ref, read_quoted, unescape_iri, unescape_string};
pub use escapes::echar;
pub use schemes::has_scheme;
pub use tags::lower_tag;
