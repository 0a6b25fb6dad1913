//! Basic graph patterns (SPARQL 1.1 Query Language, section 18.3).
ghost use Rattle.std.specs.Prelude.{◌≡◌, ◌<◌, true, length, map, option_map, IfErr, IfOk, MatchOption};
ghost use Rattle.std.specs.List.{list_all};
ghost use Rattle.std.specs.Option.{ForSome};
ghost use Rattle.rdf_core.specs.Equality.{term_eq};
ghost use Rattle.algebra_model.specs.Algebra.{is_triple_below};
ghost use Rattle.algebra_model.specs.Bgp.{bgp};
ghost use Rattle.algebra_model.specs.Dataset.{graph};
ghost use Rattle.dict_core.specs.Dict.{term_at};
ghost use Rattle.dict_core.specs.NumQuad.{AreBelow, quads_at};
ghost use Rattle.row_pattern.specs.Numbered.{pattern_of, pattern_term_of as number_term_of};
ghost use Rattle.row_pieces.specs.How.{IsRunnable, HasOneWorker};
ghost use Rattle.row_pieces.specs.declared.fault.EvalFault.TheVariants.{Memory};
ghost use Rattle.sparql_algebra.specs.AlgebraOf.{pattern_term_of, triple_pattern_of};
ghost use Rattle.sparql_eval.specs.Constants.{ArePatternsOf, IsPatternOf, IsPatternTermOf, LacksSome, LacksTerm, LacksTriple};
ghost use Rattle.sparql_eval.specs.Evaluated.{IsEvaluated};

use crate::operator_result::with_dict;
use dict_core::Dict;
use piece_pool::Gate;
use quad_index::Index;
use row_core::Rows;
use row_pattern::{NumberedTriple, PatternNumber, rows_read_as_solutions};
use row_pieces::{Context, EvalFault, How};
use sparql_algebra::{PatternTerm, TriplePattern};
use std::alloc::{AllocError, Global};
use std::sync::Wait;
use std::thread::Threads;

/// Evaluates a basic graph pattern over one graph of the dataset; None is the default graph. The
/// dataset is the index, read through the dictionary. The dictionary is returned unchanged.
///
/// # Requires
/// - Each number in the index, and that of the graph, is below the length of the dictionary.
/// - The variables of the triple patterns are below `width`, and their blank node labels below
///   `labels`.
/// - `how` keeps its limits.
///
/// # Errors
/// - `WorkerRefused` if a worker thread could not be started. It cannot occur with one worker.
/// - `Memory` if an allocation fails.
///
/// On error, the dictionary is dropped.
pub fn pattern<R: Threads + Wait, G: Gate + Sync>(
    rt: &R,
    alloc: Global,
    dict: Dict,
    index: &Index,
    active: Option<u64>,
    width: usize,
    labels: usize,
    triples: &[TriplePattern],
    how: &How,
    gate: &G,
) -> Result<(Rows, Dict), EvalFault>
    requires index { AreBelow (length dict) index.now }
    requires active { ForSome active (λ g. g < length dict) }
    requires below { list_all (is_triple_below width labels) (map triple_pattern_of triples.now) ≡ true }
    requires how { IsRunnable how.now }
    ensures evaluated { IfOk result (λ r. IsEvaluated dict width
        (bgp term_eq width labels (map triple_pattern_of triples.now)
        (graph (quads_at dict index.now) (option_map (term_at dict) active))) r.0 r.1) }
    ensures same_dict { IfOk result (λ r. r.1 ≡ dict) }
    ensures one_worker { HasOneWorker how.now → IfErr result (λ fault. fault ≡ Memory) }
{
    let context = Context {
        rt,
        alloc,
        how,
        gate,
    };
    pattern_with(&context, dict, index, active, width, labels, triples)
}

/// Evaluates a basic graph pattern, as [`pattern`] does, with a context.
pub(crate) fn pattern_with<R: Threads + Wait, G: Gate + Sync>(
    context: &Context<R, G>,
    dict: Dict,
    index: &Index,
    active: Option<u64>,
    width: usize,
    labels: usize,
    triples: &[TriplePattern],
) -> Result<(Rows, Dict), EvalFault>
    requires index { AreBelow (length dict) index.now }
    requires active { ForSome active (λ g. g < length dict) }
    requires below { list_all (is_triple_below width labels) (map triple_pattern_of triples.now) ≡ true }
    ensures evaluated { IfOk result (λ r. IsEvaluated dict width
        (bgp term_eq width labels (map triple_pattern_of triples.now)
        (graph (quads_at dict index.now) (option_map (term_at dict) active))) r.0 r.1) }
    ensures same_dict { IfOk result (λ r. r.1 ≡ dict) }
    ensures one_worker { HasOneWorker context.now.how.now → IfErr result (λ fault. fault ≡ Memory) }
{
    let made = matches(context, &dict, index, active, width, labels, triples);
    with_dict(made, dict)
}

/// Returns the rows of a basic graph pattern.
fn matches<R: Threads + Wait, G: Gate + Sync>(
    context: &Context<R, G>,
    dict: &Dict,
    index: &Index,
    active: Option<u64>,
    width: usize,
    labels: usize,
    triples: &[TriplePattern],
) -> Result<Rows, EvalFault>
    requires index { AreBelow (length dict.now) index.now }
    requires active { ForSome active (λ g. g < length dict.now) }
    requires below { list_all (is_triple_below width labels) (map triple_pattern_of triples.now) ≡ true }
    ensures evaluated { IfOk result (λ made. IsEvaluated dict.now width
        (bgp term_eq width labels (map triple_pattern_of triples.now)
        (graph (quads_at dict.now index.now) (option_map (term_at dict.now) active))) made dict.now) }
    ensures one_worker { HasOneWorker context.now.how.now → IfErr result (λ fault. fault ≡ Memory) }
{
    let _distinct = dict.len();
    let _once = index.quads();
    rows_read_as_solutions();
    let Some(numbered) = number_triples(context.alloc, dict, triples)? else {
        return Ok(Rows::new(context.alloc, width));
    };
    let triples = numbered.as_slice();
    row_pattern::pattern(
        context.rt,
        context.alloc,
        index,
        active,
        width,
        labels,
        triples,
        context.how,
        context.gate,
    )
}

/// Replaces each term of the triple patterns by its number. Returns None if the dictionary lacks
/// one of the terms.
fn number_triples(
    alloc: Global,
    dict: &Dict,
    triples: &[TriplePattern],
) -> Result<Option<Vec<NumberedTriple>>, AllocError>
    ensures numbered { IfOk result (λ found. MatchOption found
        (LacksSome dict.now (map triple_pattern_of triples.now))
        (λ v. ArePatternsOf dict.now (map triple_pattern_of triples.now) (map pattern_of v.items))) }
{
    let mut numbered = Vec::with_capacity(alloc, triples.len())?;
    for triple in triples {
        match number_triple(dict, triple) {
            Some(triple) => numbered.push(triple)?,
            None => return Ok(None),
        }
    }
    Ok(Some(numbered))
}

/// Replaces each term of a triple pattern by its number. Returns None if the dictionary lacks one
/// of the terms.
#[tactic(auto, using(crate::proofs::PatternSteps::lacks_subject, crate::proofs::PatternSteps::lacks_predicate, crate::proofs::PatternSteps::lacks_object, crate::proofs::PatternSteps::triple_found))]
pub(crate) fn number_triple(dict: &Dict, triple: &TriplePattern) -> Option<NumberedTriple>
    ensures numbered { MatchOption result (LacksTriple dict.now (triple_pattern_of triple.now))
        (λ t. IsPatternOf dict.now (triple_pattern_of triple.now) (pattern_of t)) }
{
    let subject = number_place(dict, &triple.subject)?;
    let predicate = number_place(dict, &triple.predicate)?;
    let object = number_place(dict, &triple.object)?;
    Some(NumberedTriple {
        subject,
        predicate,
        object,
    })
}

/// Replaces a term of a triple pattern by its number; variables and blank node labels are
/// unchanged. Returns None if the dictionary lacks the term.
#[tactic(auto, using(crate::proofs::PatternSteps::constant_found, crate::proofs::PatternSteps::constant_lacks))]
fn number_place(dict: &Dict, place: &PatternTerm) -> Option<PatternNumber>
    ensures numbered { MatchOption result (LacksTerm dict.now (pattern_term_of place.now))
        (λ n. IsPatternTermOf dict.now (pattern_term_of place.now) (number_term_of n)) }
{
    match place {
        PatternTerm::Variable(variable) => Some(PatternNumber::Variable(*variable)),
        PatternTerm::Label(label) => Some(PatternNumber::Label(*label)),
        PatternTerm::Term(term) => match dict.number_of(term) {
            Some(number) => Some(PatternNumber::Term(number)),
            None => None,
        },
    }
}
