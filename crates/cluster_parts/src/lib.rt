//! Parts of a document that is read block by block on several machines, and how they are counted.
//!
//! A block is a run of whole lines of a document. [`split_for_check`] reads one block. It spreads the terms, the
//! graph names and the hashes of the distinct quads over partitions. Equal terms, and equal quads, are in the same partition.
//! So what is counted in one partition needs nothing from another: [`count_lines`] counts terms and names, and
//! [`repeated_hashes`] finds the hashes of each block that occur again. [`split_again`] reads the quads that have these
//! from the blocks again, and [`count_lines`] counts them.
//!
//! [`split_for_terms`] spreads the terms of a block alone. [`first_terms`] finds those that are new in each block of a
//! partition, and [`keep_terms`] lists the new terms of a block. [`split_quads`] spreads the quads of a block by subject
//! or by graph name. [`kept_quads`] returns the quads of a block that a query needs. The laws are in [`laws`].
//!
//! Texts that one program writes for another are sealed ([`join_sealed`]): a head with the version of the program, a
//! length and a checksum precede each.
#![tactic(auto)]

mod again;
mod counting;
mod filtered;
mod graph_names;
mod hashed_places;
mod hashing;
mod keeping;
mod key_splits;
mod keyed;
mod known_lines;
pub mod laws;
mod new_terms;
mod number_lists;
mod numbering;
mod partitions;
mod quad_hashes;
mod repeated;
mod sealing;
mod splitting;
mod term_lists;
mod term_parts;

pub use again::split_again;
pub use counting::count_lines;
pub use filtered::kept_quads;
pub use hashing::hash_of;
pub use keeping::keep_terms;
pub use key_splits::{QuadKey, split_quads};
pub use new_terms::first_terms;
pub use number_lists::first_lists;
pub use repeated::repeated_hashes;
pub use sealing::{SealFault, join_sealed};
pub use splitting::split_for_check;
pub use term_parts::split_for_terms;
