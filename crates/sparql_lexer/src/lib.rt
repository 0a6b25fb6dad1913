//! Splits the text of a SPARQL query into its terminals.
//!
//! [`scan_text`] takes the characters of the text and returns a [`Scan`] of [`Token`]s. They are
//! the terminals of the text, each the longest at its place (`Scans` of specs/Scan.antt). The scan
//! ends at the end of the text, or at the first place where there is no terminal. The law
//! [`one_scan`] states that a text has at most one list of terminals, and [`one_kind`] that no text
//! is a terminal of two kinds.
//!
//! [`iri_value`] and [`string_value`] decode a terminal that the scan has delimited. They return
//! None if an escape denotes no character that is allowed there. The law [`values_are_written`]
//! states that the value is what the characters and escapes write. The law [`one_language_tag`]
//! states that queries and N-Quads have the same language tags.
//!
//! Standard: SPARQL 1.1 Query Language, sections 19.2 (codepoint escapes), 19.3 (white space), 19.4
//! (comments), 19.7 (string escapes) and 19.8 (grammar). docs/USAGE.md (the query language)
//! has the supported part.
//!
//! Reading order: specs/Pattern.antt (the standard's notation), then a file for each family of
//! terminals (Blanks, Enclosed, Names, Numbers, Words, Signs), specs/Scan.antt, `scanner`, `laws`.
//!
//! Tests: tests/examples/query_terminals.toml and query_syntax.toml.
//!
//! Not guaranteed: the time that a scan takes. By design it is linear in the length of the text.
#![tactic(auto)]

mod candidates;
mod characters;
mod classes;
mod cursor;
mod enclosed;
mod laws;
mod names;
mod numbers;
mod scanner;
mod signs;
mod token;
mod values;
mod words;

pub use characters::{characters_of, text_of};
pub use laws::{one_kind, one_language_tag, one_scan, values_are_written};
pub use scanner::{Scan, scan_text};
pub use token::{Keyword, Kind, Sign, Token};
pub use values::{iri_value, string_value};
