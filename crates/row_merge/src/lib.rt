//! The rows of a whole result from the rows of its parts.
//!
//! `merged` of specs/Merged.antt defines the rows: those of all parts in ascending order, each once for DISTINCT, and of
//! these what OFFSET and LIMIT leave. The law [`laws::merges_nest`] says that parts may be merged in groups.
//!
//! Standard: SPARQL 1.1 Query Language, sections 15.4, 15.5 and 18.5. The order of rows is a choice of this project.
#![tactic(auto)]

pub mod laws;
