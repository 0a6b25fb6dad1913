//! Which queries can be evaluated on the parts of a dataset, and that their solutions are those of the whole.
#![tactic(auto)]

pub mod laws;
mod split;

pub use split::Split;
