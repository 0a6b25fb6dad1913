//! Basic graph patterns over an index. The input is triple patterns of numbers and one graph; the
//! output is rows of numbers.
//!
//! [`pattern`] returns the multiset of the pattern's solutions, as `bgp` of the algebra's model
//! defines it. A solution comes from a map of the variables and blank node labels to numbers of the
//! graph. The map makes every triple pattern a triple of the graph. The solution is this map
//! without the labels. Maps that differ in labels only give equal solutions, and all of these are
//! kept.
//!
//! The contract of [`pattern`] states that the rows are that multiset, and that their numbers occur
//! in the graph. The law [`rows_read_as_solutions`] states what the rows are when numbers are read
//! as terms.
//!
//! The triple patterns are put into an order that keeps the number of intermediate rows small. The
//! quads that match the first pattern are cut into pieces for a pool of workers. From each of these
//! quads a depth-first search extends one row, pattern by pattern. It scans the index with the
//! numbers that the row binds, and restores the row afterwards.
//!
//! Standard: SPARQL 1.1 Query Language, section 18.3 (basic graph patterns).
//!
//! Reading order: `numbered` (triple patterns), `cells` (one place of a row), `steps` (the order),
//! `search` (depth first), `matching` (pieces, and the whole), `laws`.
//!
//! Example: over the triples 1 2 3 and 1 2 4, the pattern of a variable, 2 and a blank node label
//! has the row 1 twice. The first row of tests/examples/query_solutions.toml is such a pattern.
//!
//! Not guaranteed: the order of the rows, and that the order of the triple patterns is the best
//! one.
#![tactic(auto)]

mod cells;
mod laws;
mod matching;
mod numbered;
mod search;
mod steps;

pub use laws::rows_read_as_solutions;
pub use matching::pattern;
pub use numbered::{NumberedTriple, PatternNumber};
