//! The quads of a block that a query needs.
ghost use Rattle.std.specs.Prelude.{◌≡◌, ◌⊎◌, IfErr, IfOk};
ghost use Rattle.std.specs.Str.{chars};
ghost use Rattle.sparql_tree.specs.QueryTree.{QueryTree, query_of};
ghost use Rattle.sparql_read.specs.Rejection.{IsValidQuery};
ghost use Rattle.part_core.specs.Faults.{IsFault};
ghost use Rattle.part_core.specs.Needed.{IsNeededOf, KeepsNeeded};
ghost use Rattle.part_core.specs.Refused.{IsNoQuery};
ghost use Rattle.part_core.specs.declared.command.Command.TheVariants.{Needed};
ghost use Rattle.part_core.specs.declared.fault.PartFault.TheVariants.{Memory};

use crate::fault::PartFault;
use cluster_parts::kept_quads;
use needed_quads::filter_of;
use quad_filter::QuadFilter;
use sparql_algebra::translate;
use sparql_read::{Query, QueryFault, read_query};
use std::alloc::{AllocError, Global};
use std::hash::RandomState;

/// Returns the filter that keeps the quads that a query needs.
fn filter_of_query(alloc: Global, query: &Query) -> Result<QuadFilter, AllocError>
    ensures needed { IfOk result (KeepsNeeded (query_of query.now)) }
{
    let plan = translate(alloc, query)?;
    let made = filter_of(alloc, &plan);
    drop(plan);
    made
}

/// Returns the filter that keeps the quads that the query of this text needs.
fn filter_of_text(alloc: Global, text: &str) -> Result<QuadFilter, PartFault>
    ensures needed { IfOk result
        (λ filter. (query : QueryTree) × IsValidQuery (chars text.now) query × KeepsNeeded query filter) }
    ensures fault { IfErr result (λ fault. (fault ≡ Memory) ⊎ IsNoQuery text.now fault) }
{
    match read_query(alloc, text) {
        Ok(query) => {
            let made = filter_of_query(alloc, &query);
            drop(query);
            match made {
                Ok(filter) => Ok(filter),
                Err(_) => Err(PartFault::Memory),
            }
        }
        Err(QueryFault::Memory) => Err(PartFault::Memory),
        Err(_rejected) => Err(PartFault::Query),
    }
}

/// Returns the filter that keeps the quads that the query of these bytes needs.
fn filter_of_bytes(alloc: Global, bytes: &[u8]) -> Result<QuadFilter, PartFault>
    ensures needed { IfOk result
        (λ filter. (query : QueryTree) × IsValidQuery (chars bytes.now) query × KeepsNeeded query filter) }
    ensures fault { IfErr result (λ fault. (fault ≡ Memory) ⊎ IsNoQuery bytes.now fault) }
{
    match str::from_utf8(bytes) {
        Ok(text) => filter_of_text(alloc, text),
        Err(_) => Err(PartFault::Query),
    }
}

/// Composes the output of `needed`.
pub(crate) fn needed(
    alloc: Global,
    state: RandomState,
    input: &[u8],
    count: u64,
) -> Result<Vec<u8>, PartFault>
    ensures output { IfOk result (λ output. IsNeededOf count input.now output.items) }
    ensures fault { IfErr result (IsFault (Needed count) input.now) }
{
    if count > input.len() as u64 {
        return Err(PartFault::Damaged);
    }
    let (text, block) = input.split_at(count as usize);
    let filter = match filter_of_bytes(alloc, text) {
        Ok(filter) => filter,
        Err(fault) => return Err(fault),
    };
    match kept_quads(alloc, state, &filter, block) {
        Ok(out) => Ok(out),
        Err(fault) => Err(PartFault::of_piece(fault)),
    }
}
