//! The quads that the solutions of a query depend on.
//!
//! Most queries match few quads of a dump. [`filter_of`] returns a filter that keeps them, so that a loader can leave out the
//! others. The law [`laws::needed_quads_suffice`] says that the solutions stay the same.
//!
//! Reading order: `building` (the filter of a plan), `trees` (what a tree of the plan has), `shapes` (the shapes that a triple
//! pattern can match), `restricted` (variables that VALUES restricts), `forms` (wanted terms), `laws`.
//!
//! Standard: SPARQL 1.1 Query Language, sections 18.3 and 18.6. What is needed is a choice of this project.
#![tactic(auto)]

mod building;
mod forms;
pub mod laws;
mod restricted;
mod shapes;
mod trees;

pub use building::filter_of;
