//! The keys by which the errors of a query's expressions are counted.
ghost use Rattle.std.specs.Prelude.{All, IfOk};
ghost use Rattle.query_notes.specs.Keys.{IsKeyOf};

use crate::outline::Outline;
use expression_errors::{Key, Owner, digest_of};
use sparql_algebra::{Operator, Plan};
use std::alloc::{AllocError, Global};

/// Returns the keys of the expressions of a plan, which is that of the query with this outline. Errors are counted
/// by them.
///
/// # Errors
/// `AllocError` if an allocation fails.
pub fn keys_of(alloc: Global, outline: &Outline, plan: &Plan) -> Result<Vec<Key>, AllocError>
    ensures keys { IfOk result (λ keys. All (IsKeyOf outline.now.sites.items) keys.items) }
{
    let mut digests = Vec::new(alloc);
    push_digests(&mut digests, alloc, &plan.tree)?;
    let mut keys = Vec::new(alloc);
    for number in 0..outline.sites.len().min(digests.len()) {
        keys.push(Key {
            digest: digests[number],
            expression: number,
            filters: outline.sites[number].keywords.len(),
        })?;
    }
    Ok(keys)
}

/// Appends the digests of the expressions of a tree: those of an operator's left side, those of its right
/// side, and that of its own.
fn push_digests(digests: &mut Vec<u64>, alloc: Global, tree: &Operator) -> Result<(), AllocError> {
    match tree {
        Operator::Join { left, right }
        | Operator::LeftJoin { left, right, .. }
        | Operator::Union { left, right }
        | Operator::Minus { left, right } => {
            push_digests(digests, alloc, left)?;
            push_digests(digests, alloc, right)?;
        }
        Operator::Graph { inner, .. }
        | Operator::Filter { inner, .. }
        | Operator::Extend { inner, .. }
        | Operator::Project { inner, .. }
        | Operator::Distinct { inner } => push_digests(digests, alloc, inner)?,
        Operator::Pattern { .. } | Operator::Table { .. } => {}
    }
    push_own(digests, alloc, tree)
}

/// Appends the digest of an operator's own expression, if it has one.
fn push_own(digests: &mut Vec<u64>, alloc: Global, operator: &Operator) -> Result<(), AllocError> {
    let (owner, expression) = match operator {
        Operator::LeftJoin { condition, .. } => (Owner::LeftJoin, condition),
        Operator::Filter { condition, .. } => (Owner::Filter, condition),
        Operator::Extend {
            variable,
            expression,
            ..
        } => (Owner::Extend(*variable), expression),
        Operator::Pattern { .. }
        | Operator::Join { .. }
        | Operator::Union { .. }
        | Operator::Minus { .. }
        | Operator::Graph { .. }
        | Operator::Project { .. }
        | Operator::Distinct { .. }
        | Operator::Table { .. } => return Ok(()),
    };
    digests.push(digest_of(alloc, owner, expression)?)?;
    Ok(())
}
