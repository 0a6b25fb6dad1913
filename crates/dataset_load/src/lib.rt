//! Loads N-Quads documents. The result is a [`Store`] with the dataset, or the first malformed line.
//!
//! [`load`] reads a document that is cut into pieces, and [`load_blocks`] one that is split into blocks, both in
//! parallel. Other crates rely on the contract that both have:
//!
//! - The terms of the store are the distinct terms of the document by first appearance. The index of the store,
//!   read through these terms, is the set of the document's quads (`IsLoaded`).
//! - A fault has the number of the first malformed line (`IsBadLine` of nquads_core).
//!
//! These clauses mention no worker, and the result that they define depends on no cut or gate.
//!
//! Standards: RDF 1.1 N-Quads, grammar; RDF 1.1 Concepts and Abstract Syntax, section 4.
//!
//! [`load_reader`] loads the rest of a reader. With a filter that keeps all quads, its result is that of [`read_blocks`]
//! followed by [`load_blocks`]. With another filter, the store may lack quads that it does not keep. Every line is still
//! validated (`IsKeptLoadedFrom`, `IsBadLineFrom` in specs/Streaming.antt). Only the blocks of two rounds are in memory at
//! a time: one that is parsed, and the next one. [`count_reader`] returns only the dictionary and the counts of the store of
//! all quads, and [`load_terms`] only the dictionary. Neither builds an index (`IsCountedFrom`, `AreTermsFrom` in
//! specs/Counted.antt).
//!
//! Reading order: `fault`, `store`, `round_job` (one piece), `numbered` and `rounds`
//! (all pieces), `sorting` (the lists of the index), `terms` (the terms of the texts), `building` (a store), `loading`,
//! `reader` (blocks of a reader), `reader_fault`, `part_counts`, `counted`, `load_notes`, `load_context`, `causes`, `listing` and `rest` (the malformed lines), `bad_round`,
//! `streaming`.
//!
//! Tests: `loading::readers` and `loading::refusals` of spq_tests, and the files tests/examples/document_*.toml.
//!
//! ```text
//! let cuts = Cuts::every(alloc, doc, 65536)?;
//! let store = load(&rt, alloc, doc, &cuts, 4, &OpenGate)?;
//! ```
//!
//! The cuts that `Cuts::every` makes of a document fit it, so the condition of [`load`] is met.
//!
//! Not guaranteed: that a second thread runs, which worker reads which piece, how much memory is used, and
//! that a call returns (it joins its workers).
#![tactic(auto)]

mod bad_round;
mod building;
mod causes;
mod counted;
mod fault;
mod listing;
mod load_context;
mod load_notes;
mod loading;
mod numbered;
mod part_counts;
mod reader;
mod reader_fault;
mod rest;
mod round_job;
mod rounds;
mod sorting;
mod store;
mod streaming;
mod terms;

pub use counted::Counted;
pub use fault::LoadFault;
pub use listing::list_blocks;
pub use load_notes::{Listing, LoadListener, LoadNotes, NoListener};
pub use loading::{load, load_blocks};
pub use reader::read_blocks;
pub use reader_fault::ReaderFault;
pub use store::Store;
pub use streaming::{count_reader, load_reader, load_terms};
