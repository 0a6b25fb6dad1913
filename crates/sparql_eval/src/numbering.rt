//! Terms added to the dictionary.
ghost use Rattle.std.specs.Prelude.{◌≡◌, ◌<◌, length, IfOk, OnOk};
ghost use Rattle.dict_core.specs.Dict.{IsGrown, term_at};
ghost use Rattle.sparql_eval.specs.Computed.{TakesOnly};

use dict_core::Dict;
use rdf_core::Term;
use std::alloc::{AllocError, Global};

/// Returns the number of a term. If the dictionary lacks the term, a copy is added.
#[tactic(auto, using(crate::proofs::ReadingLaws::grown_itself, crate::proofs::ReadingLaws::number_known, crate::proofs::ReadingLaws::number_read, crate::proofs::TakingLaws::takes_none, crate::proofs::TakingLaws::takes_same))]
pub(crate) fn number_of_term(alloc: Global, dict: &mut Dict, term: &Term) -> Result<u64, AllocError>
    ensures grown { OnOk result (IsGrown dict.old dict.new) }
    ensures known { IfOk result (λ n. n < length dict.new) }
    ensures read { IfOk result (λ n. term_at dict.new n ≡ term.now) }
    ensures needed { OnOk result (TakesOnly (λ t. t ≡ term.now) dict.old dict.new) }
{
    if let Some(number) = dict.number_of(term) {
        return Ok(number);
    }
    number_new(dict, term.copy(alloc)?)
}

/// Returns the number of a term, which is moved into the dictionary if it lacks the term.
pub(crate) fn number_new(dict: &mut Dict, term: Term) -> Result<u64, AllocError>
    ensures grown { OnOk result (IsGrown dict.old dict.new) }
    ensures known { IfOk result (λ n. n < length dict.new) }
    ensures read { IfOk result (λ n. term_at dict.new n ≡ term) }
    ensures needed { OnOk result (TakesOnly (λ t. t ≡ term) dict.old dict.new) }
{
    match dict.intern(term) {
        Ok(number) => Ok(number),
        Err(_) => Err(AllocError),
    }
}
