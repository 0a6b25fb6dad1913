//! Splits a document into pieces of whole lines. [`Cuts`] holds the places of a document in memory,
//! and [`Blocks`] reads a document block by block.
//!
//! Callers rely on these guarantees:
//!
//! - The concatenated pieces of cuts that fit a document are the document, and each piece but the
//!   last ends with a line feed.
//! - The blocks that [`Blocks::next`] returns are the pieces of `Cuts::every` of the bytes of the
//!   reader, in order.
//!
//! Standard: RDF 1.1 N-Quads, [8] `EOL`. A line feed ends a line wherever it occurs, so no line is
//! split. At which line feeds a document is split is a choice of this project (not fixed by the
//! standard).
//!
//! Reading order: `places` (the search for a cut), `cuts`, `blocks`, `laws`. Tests:
//! `loading::cutting` and `loading::readers` of spq_tests.
//!
//! Not guaranteed: that a piece is small. A line longer than the size is one piece.
#![tactic(auto)]

mod blocks;
mod cuts;
pub mod laws;
mod places;

pub use blocks::{BlockState, Blocks};
pub use cuts::Cuts;

/// Why [`Blocks::next`] has no block: the reader failed, or out of memory.
pub use nquads_core::ReadFault as BlockFault;
