//! Distinct (SPARQL 1.1 Query Language, section 18.5).
ghost use Rattle.std.specs.Prelude.{◌≡◌, nat_eq, IfErr, IfOk};
ghost use Rattle.rdf_core.specs.Equality.{term_eq};
ghost use Rattle.algebra_model.specs.Operators.{distinct};
ghost use Rattle.sparql_eval.specs.Evaluated.{AreKnown, IsEvaluated, solutions_of};
ghost use Rattle.row_pieces.specs.declared.fault.EvalFault.TheVariants.{Memory};

use crate::operator_result::with_dict;
use dict_core::Dict;
use row_core::Rows;
use row_pieces::EvalFault;
use std::alloc::Global;
use std::hash::RandomState;

/// Evaluates Distinct: returns each row once, and the dictionary unchanged. Rows are compared by
/// their numbers, since the dictionary holds each term once. They are hashed with the given state.
///
/// # Requires
/// Each number in the rows is below the length of the dictionary.
///
/// # Errors
/// `Memory` if an allocation fails. The dictionary is dropped.
pub fn distinct(
    alloc: Global,
    state: RandomState,
    dict: Dict,
    rows: &Rows,
) -> Result<(Rows, Dict), EvalFault>
    requires known { AreKnown dict rows.now }
    ensures evaluated { IfOk result (λ r. IsEvaluated dict rows.now.width
        (distinct term_eq (solutions_of dict rows.now)) r.0 r.1) }
    ensures same_dict { IfOk result (λ r. r.1 ≡ dict) }
    ensures memory { IfErr result (λ fault. fault ≡ Memory) }
{
    let _distinct = dict.len();
    let made = distinct_rows(alloc, state, rows);
    with_dict(made, dict)
}

/// Returns each row once, at its first place.
fn distinct_rows(alloc: Global, state: RandomState, rows: &Rows) -> Result<Rows, EvalFault>
    ensures made { IfOk result (λ made. (made.width ≡ rows.now.width)
        × (made.rows ≡ distinct nat_eq rows.now.rows)) }
    ensures memory { IfErr result (λ fault. fault ≡ Memory) }
{
    Ok(row_join::distinct(alloc, state, rows)?)
}
