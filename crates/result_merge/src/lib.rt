//! Results of parts, as `spq select` prints them, merged into the result of the whole.
#![tactic(auto)]

mod columns;
mod documents;
mod fault;
pub mod laws;
mod merging;
mod rows;
mod strings;
mod terms;

pub use fault::MergeFault;
pub use merging::merge;
