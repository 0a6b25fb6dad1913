//! Which quads of a document a query needs.
//!
//! A [`QuadFilter`] has shapes of quads. A reader that is given one may leave out each quad without such a shape (`IsKept` in
//! specs/Kept.antt). A position of a shape has the N-Quads forms of the terms that are wanted there. So [`QuadFilter::wants`]
//! compares them with slices of a document, and no term is built.
//!
//! This is a choice of this project, not of a standard.
#![tactic(auto)]

mod filter;
pub mod laws;
mod matching;

pub use filter::{QuadFilter, Shape, Wanted, WantedGraph};
