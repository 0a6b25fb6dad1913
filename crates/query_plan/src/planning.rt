//! Whether a query can be evaluated on the parts of a dataset, and how their results are merged.
ghost use Rattle.std.specs.Prelude.{◌≡◌, ◌+◌, None, true, false, unwrap_or, IfErr, IfOk, IfSome};
ghost use Rattle.std.specs.Option.{option_map};
ghost use Rattle.std.specs.Str.{chars};
ghost use Rattle.sparql_tree.specs.QueryTree.{query_of};
ghost use Rattle.sparql_algebra.specs.AlgebraOf.{algebra_of};
ghost use Rattle.query_split.specs.Condition.{Key, is_apart};
ghost use Rattle.sparql_read.specs.Rejection.{IsValidQuery};
ghost use Rattle.query_split.specs.ForParts.{for_parts, is_splittable};
ghost use Rattle.query_split.specs.declared.split.Split.TheVariants as by;
ghost use Rattle.query_plan.specs.Keys.{has_names};
ghost use Rattle.query_plan.specs.Planned.{IsPlan, IsPlanOf, below_project, below_projection};
ghost use Rattle.query_plan.specs.Refused.{IsAboveLargest, IsRefusal, IsRefusalOf, IsTextFault};

use crate::condition::is_apart;
use crate::keys::{first_graph, first_subject};
use crate::offset::query_without_offset;
use query_split::Split;
use sparql_algebra::{GraphName, Operator, translate};
use sparql_read::{Query, QueryFault, read_query};
use std::alloc::{AllocError, Global};

/// How the results of the parts are merged.
#[derive(Clone, Copy)]
pub struct MergePlan {
    /// Whether each row is listed once.
    pub distinct: bool,
    /// The number of rows that the last merge leaves out at the beginning.
    pub offset: u64,
    /// The largest number of rows of the last merge.
    pub limit: Option<u64>,
    /// The largest number of rows of each part, and of the merges before the last one.
    pub kept: Option<u64>,
}

/// How a query is evaluated on the parts of a dataset.
#[derive(Drop)]
pub struct PartsPlan {
    /// How the results of the parts are merged.
    pub merge: MergePlan,
    /// The text of the query for the parts.
    pub query: Vec<u8>,
}

/// Why a query cannot be evaluated on the parts of a dataset.
#[derive(Clone, Copy)]
pub enum PlanFault {
    /// A rule rejects the text of the query.
    Query,
    /// The query does not meet the condition of the split, with any key.
    Condition,
    /// The sum of OFFSET and LIMIT is above the largest number, 18446744073709551615, so the parts cannot have enough rows.
    Sum,
    /// The query has OFFSET, and its text could not be rewritten for the parts. No such text is known.
    Offset,
    /// Out of memory.
    Memory,
}

impl From<AllocError> for PlanFault {
    ghost use Rattle.std.specs.Prelude.{◌≡◌};
    ghost use Rattle.query_plan.specs.declared.planning.PlanFault.TheVariants.{Memory};

    ghost from_gives = { λ _ e. e ≡ Memory };

    fn from(_failed: AllocError) -> PlanFault {
        PlanFault::Memory
    }
}

/// Returns the tree below a Project at the root.
fn below_project(tree: &Operator) -> &Operator
    ensures value { algebra_of result.now ≡ below_project (algebra_of tree.now) }
{
    match tree {
        Operator::Project { inner, .. } => inner,
        Operator::Pattern { .. }
        | Operator::Join { .. }
        | Operator::LeftJoin { .. }
        | Operator::Union { .. }
        | Operator::Minus { .. }
        | Operator::Graph { .. }
        | Operator::Filter { .. }
        | Operator::Extend { .. }
        | Operator::Distinct { .. }
        | Operator::Table { .. } => tree,
    }
}

/// Returns the tree of the group, below Distinct and Project.
fn below_projection(tree: &Operator) -> &Operator
    ensures value { algebra_of result.now ≡ below_projection (algebra_of tree.now) }
{
    match tree {
        Operator::Distinct { inner } => below_project(inner),
        Operator::Pattern { .. }
        | Operator::Join { .. }
        | Operator::LeftJoin { .. }
        | Operator::Union { .. }
        | Operator::Minus { .. }
        | Operator::Graph { .. }
        | Operator::Filter { .. }
        | Operator::Extend { .. }
        | Operator::Project { .. }
        | Operator::Table { .. } => below_project(tree),
    }
}

/// Returns whether each solution of the tree comes from one part, with the first subject as key.
fn is_apart_by_subject(tree: &Operator, split: &Split) -> bool
    ensures key { result ≡ true → (key : Key) × (is_apart split.now key (algebra_of tree.now) ≡ true) }
    ensures none { split.now ≡ by.Subject → result ≡ false → (key : Key) → is_apart split.now key (algebra_of tree.now) ≡ false }
{
    match first_subject(tree) {
        Some(variable) => is_apart(tree, split, &GraphName::Variable(variable)),
        None => false,
    }
}

/// Returns whether each solution of the tree comes from one part, with the first name after GRAPH as key.
fn is_apart_by_name(tree: &Operator, split: &Split) -> bool
    ensures key { result ≡ true → (key : Key) × (is_apart split.now key (algebra_of tree.now) ≡ true) }
    ensures none { has_names split.now ≡ true → result ≡ false → (key : Key) → is_apart split.now key (algebra_of tree.now) ≡ false }
{
    match first_graph(tree) {
        Some(name) => is_apart(tree, split, name),
        None => false,
    }
}

/// Returns whether each solution of the tree comes from one part, with some key.
fn comes_from_parts(tree: &Operator, split: &Split) -> bool
    ensures key { result ≡ true → (key : Key) × (is_apart split.now key (algebra_of tree.now) ≡ true) }
    ensures none { result ≡ false → (key : Key) → is_apart split.now key (algebra_of tree.now) ≡ false }
{
    match split {
        Split::Lines => is_apart(tree, split, &GraphName::Variable(0)),
        Split::Subject => is_apart_by_subject(tree, split),
        Split::Graph | Split::GraphWithDefault => is_apart_by_name(tree, split),
    }
}

/// Returns whether the query meets the condition of the split.
fn meets_condition(alloc: Global, query: &Query, split: &Split) -> Result<bool, AllocError>
    ensures key { IfOk result
        (λ met. met ≡ true → (key : Key) × (is_splittable split.now key (query_of query.now) ≡ true)) }
    ensures none { IfOk result
        (λ met. met ≡ false → (key : Key) → is_splittable split.now key (query_of query.now) ≡ false) }
{
    let plan = translate(alloc, query)?;
    let met = comes_from_parts(below_projection(&plan.tree), split);
    drop(plan);
    Ok(met)
}

/// Returns the largest number of rows of each part, or None if the sum of OFFSET and LIMIT is above the largest number.
fn kept_rows(offset: u64, limit: Option<u64>) -> Option<Option<u64>>
    ensures sum { IfSome result (λ kept. kept ≡ option_map (λ n. offset + n) limit) }
    ensures above { result ≡ None → IsAboveLargest offset limit }
    ensures fits { IfSome result (λ _. IsAboveLargest offset limit → ⊥) }
{
    match limit {
        Some(limit) => match offset.checked_add(limit) {
            Some(kept) => Some(Some(kept)),
            None => None,
        },
        None => Some(None),
    }
}

/// Returns the text of the query for the parts.
fn query_text(
    alloc: Global,
    text: &str,
    query: &Query,
    kept: Option<u64>,
) -> Result<Vec<u8>, PlanFault>
    requires read { IsValidQuery (chars text.now) (query_of query.now) }
    requires sum { kept ≡ option_map (λ n. unwrap_or query.now.offset 0 + n) query.now.limit }
    ensures read { IfOk result (λ made. IsValidQuery (chars made.items) (for_parts kept (query_of query.now))) }
    ensures fault { IfErr result (IsTextFault (query_of query.now)) }
{
    match query.offset {
        Some(_) => query_without_offset(alloc, text, query, kept),
        None => Ok(Vec::from_slice(alloc, text.as_bytes())?),
    }
}

/// Plans a query that no rule rejects.
fn plan_query(
    alloc: Global,
    text: &str,
    query: &Query,
    split: &Split,
) -> Result<PartsPlan, PlanFault>
    requires read { IsValidQuery (chars text.now) (query_of query.now) }
    ensures plan { IfOk result (IsPlanOf split.now (query_of query.now)) }
    ensures refused { IfErr result (IsRefusalOf split.now (query_of query.now)) }
{
    let offset = query.offset.unwrap_or(0);
    if !meets_condition(alloc, query, split)? {
        return Err(PlanFault::Condition);
    }
    let Some(kept) = kept_rows(offset, query.limit) else {
        return Err(PlanFault::Sum);
    };
    let made = query_text(alloc, text, query, kept)?;
    Ok(PartsPlan {
        merge: MergePlan {
            distinct: query.distinct,
            offset,
            limit: query.limit,
            kept,
        },
        query: made,
    })
}

/// Plans how a query is evaluated on the parts of a dataset: each part evaluates the query for the parts, and the results
/// are merged.
///
/// # Errors
/// The first reason that holds:
/// - `Query` if a rule rejects the text.
/// - `Condition` if the query does not meet the condition of the split, with any key.
/// - `Sum` if the sum of OFFSET and LIMIT is above the largest number.
/// - `Offset` if the query has OFFSET, and its text could not be rewritten for the parts.
/// - `Memory` if an allocation fails.
pub fn plan(alloc: Global, text: &str, split: &Split) -> Result<PartsPlan, PlanFault>
    ensures plan { IfOk result (IsPlan split.now text.now) }
    ensures refused { IfErr result (IsRefusal split.now text.now) }
{
    match read_query(alloc, text) {
        Ok(query) => {
            let made = plan_query(alloc, text, &query, split);
            drop(query);
            made
        }
        Err(QueryFault::Memory) => Err(PlanFault::Memory),
        Err(_rejected) => Err(PlanFault::Query),
    }
}
