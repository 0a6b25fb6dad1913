//! The partitions that `spq-part` makes are parts on which queries can be evaluated.
//!
//! [`laws::partitions_are_parts`] relates the partitions of cluster_parts (`quads_in`) to the parts of query_split
//! (`AreParts`). [`laws::chosen_quads_join`] says that what the blocks have for a partition is a document of its quads.
//!
//! Reading order: specs/Partitions.antt, `laws`. The crate has no code to run; the prover checks the laws.
#![tactic(auto)]

pub mod laws;
