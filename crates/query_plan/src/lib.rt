//! Whether a query can be evaluated on the parts of a dataset, and how their results are merged.
//!
//! [`plan`] reads the text of a query, translates it, and checks the condition of a split (`is_apart` of the crate
//! query_split). Its contract says that the query may be evaluated on the parts of such a split, or why not. Then each part
//! evaluates the query for the parts of the [`PartsPlan`], and the results are merged as its [`MergePlan`] says.
//!
//! Standard: SPARQL 1.1 Query Language, sections 18.2, 18.5 and 18.6. The conditions are choices of this project.
//!
//! Reading order: `condition`, `keys`, `offset`, `planning`.
//!
//! Not guaranteed: that a query without a plan cannot be evaluated on parts (the conditions are sufficient, not necessary),
//! that the text of each query with OFFSET can be rewritten for the parts, and enough stack for a query of any depth.
#![tactic(auto)]

mod condition;
mod keys;
mod offset;
mod planning;

pub use planning::{MergePlan, PartsPlan, PlanFault, plan};
