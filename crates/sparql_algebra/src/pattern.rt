//! Consecutive triples as a basic graph pattern.
ghost use Rattle.std.specs.Prelude.{◌≡◌, IfOk, OnOk, flat_map, map};
ghost use Rattle.std.specs.Str.{bytes_eq};
ghost use Rattle.indexmap.specs.IndexSet.{insert_all};
ghost use Rattle.sparql_algebra.specs.AlgebraOf.{algebra_of, pattern_term_of, triple_pattern_of};
ghost use Rattle.sparql_algebra.specs.Translation.{blank_names, labels_of, translate_pattern, translate_place, translate_triple, triple_blanks};

use crate::constructors::boxed;
use crate::names::Names;
use crate::operator::{self, Operator};
use sparql_tree::{Triple, VarOrTerm};
use std::alloc::{AllocError, Global};

/// Translates triples ([55] `TriplesBlock`) into a basic graph pattern. Its blank node labels are
/// numbered in the order of their first occurrence.
///
/// # Errors
/// `AllocError` if an allocation fails.
pub fn basic_pattern(
    alloc: Global,
    names: &Names,
    triples: &[&Triple],
) -> Result<Box<Operator>, AllocError>
    ensures pattern { IfOk result (λ operator.
        algebra_of operator.value ≡ translate_pattern names.now (map (λ t. t.now) triples.now)) }
{
    let labels = pattern_labels(alloc, triples)?;
    let patterns = convert_triples(alloc, names, &labels, triples)?;
    let tree = Operator::Pattern {
        labels: labels.len(),
        triples: patterns,
    };
    boxed(alloc, tree)
}

/// Returns the blank node labels of the triples, each once.
fn pattern_labels(alloc: Global, triples: &[&Triple]) -> Result<Names, AllocError>
    ensures labels { IfOk result (λ labels. labels ≡ labels_of (map (λ t. t.now) triples.now)) }
{
    let mut labels = Names::new(alloc);
    for triple in triples {
        note_blanks(&mut labels, triple)?;
    }
    Ok(labels)
}

fn note_blanks(labels: &mut Names, triple: &Triple) -> Result<(), AllocError>
    ensures noted { OnOk result (labels.new ≡ insert_all bytes_eq labels.old (triple_blanks triple.now)) }
{
    note_blank(labels, &triple.subject)?;
    note_blank(labels, &triple.predicate)?;
    note_blank(labels, &triple.object)
}

fn note_blank(labels: &mut Names, place: &VarOrTerm) -> Result<(), AllocError>
    ensures noted { OnOk result (labels.new ≡ insert_all bytes_eq labels.old (blank_names place.now)) }
{
    match place {
        VarOrTerm::Blank(label) => labels.note(label),
        VarOrTerm::Variable(_) | VarOrTerm::Term(_) => Ok(()),
    }
}

fn convert_triples(
    alloc: Global,
    names: &Names,
    labels: &Names,
    triples: &[&Triple],
) -> Result<Vec<operator::TriplePattern>, AllocError>
    ensures patterns { IfOk result (λ patterns. map triple_pattern_of patterns.items
        ≡ map (translate_triple names.now labels.now) (map (λ t. t.now) triples.now)) }
{
    let mut patterns = Vec::new(alloc);
    for triple in triples {
        patterns.push(convert_triple(alloc, names, labels, triple)?)?;
    }
    Ok(patterns)
}

/// Replaces the names in a triple by numbers.
fn convert_triple(
    alloc: Global,
    names: &Names,
    labels: &Names,
    triple: &Triple,
) -> Result<operator::TriplePattern, AllocError>
    ensures pattern { IfOk result (λ pattern.
        triple_pattern_of pattern ≡ translate_triple names.now labels.now triple.now) }
{
    Ok(operator::TriplePattern {
        subject: convert_place(alloc, names, labels, &triple.subject)?,
        predicate: convert_place(alloc, names, labels, &triple.predicate)?,
        object: convert_place(alloc, names, labels, &triple.object)?,
    })
}

fn convert_place(
    alloc: Global,
    names: &Names,
    labels: &Names,
    place: &VarOrTerm,
) -> Result<operator::PatternTerm, AllocError>
    ensures place { IfOk result (λ term.
        pattern_term_of term ≡ translate_place names.now labels.now place.now) }
{
    match place {
        VarOrTerm::Variable(variable) => {
            Ok(operator::PatternTerm::Variable(names.number(variable)))
        }
        VarOrTerm::Blank(label) => Ok(operator::PatternTerm::Label(labels.number(label))),
        VarOrTerm::Term(term) => Ok(operator::PatternTerm::Term(term.copy(alloc)?)),
    }
}
