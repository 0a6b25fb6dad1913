//! An index of numbered quads: the set of the quads in three sorted lists.
//!
//! In contracts an [`Index`] is the list of its quads, each once. [`Index::build`] builds it from a list
//! with repeats. [`sorted_list`] and [`Index::of_lists`] do the same in parts, so that the three lists
//! may be sorted in parallel. [`count_quads`] counts the quads and graph names of an index without building it.
//! [`count_part`] and [`count_names`] count them in parts, in parallel.
//!
//! A [`QuadList`] holds its quads as numbers of 16 bytes, unless a number of a quad is too large. It is filled by
//! [`QuadList::extend`]. [`Quads`] borrows a part of a list, and returns its quads one by one.
//!
//! [`Index::scan`] returns exactly the quads of one graph that have the given numbers at the given
//! places, each once. Its contract says that they are, in some order, the quads of the index that
//! agree. The evaluator relies on this contract. The module `laws` says what an index is when its
//! numbers are read as terms.
//!
//! Standard: RDF 1.1 Concepts, section 4 (a dataset is a set of quads). The orders are a choice of this
//! project.
//!
//! Reading order: `sort_order`, `packed`, `quads`, `quad_list`, `prefix`, `range`, `index`, `counting`, `parts`,
//! `laws`.
//! Tests: `loading::lists` and `loading::refusals::index` of spq_tests.
//!
//! Not guaranteed: in which order a scan returns its quads.
#![tactic(auto)]

mod counting;
mod index;
mod laws;
mod packed;
mod parts;
mod prefix;
mod quad_list;
mod quads;
mod range;
mod sort_order;

pub use counting::{IndexCounts, count_quads};
pub use index::Index;
pub use laws::{
    index_counts_the_quads, index_names_the_graphs, index_reads_the_quads, parts_count_the_quads,
};
pub use parts::{PARTS, count_names, count_part};
pub use quad_list::{QuadList, sorted_list};
pub use quads::Quads;
pub use sort_order::SortOrder;
