//! The key of a split that can fit a tree.
ghost use Rattle.std.specs.Prelude.{◌≡◌, map};
ghost use Rattle.std.specs.Option.{option_map};
ghost use Rattle.sparql_algebra.specs.AlgebraOf.{algebra_of, graph_name_of, pattern_term_of, triple_pattern_of};
ghost use Rattle.sparql_algebra.specs.declared.operator.GraphName.{GraphName};
ghost use Rattle.std.specs.Borrow.{Bor};
ghost use Rattle.query_plan.specs.Keys.{first_graph, first_subject, first_variable, variable_at};

use sparql_algebra::{GraphName, Operator, PatternTerm, TriplePattern};

/// Returns the variable at a position.
fn variable_at(place: &PatternTerm) -> Option<usize>
    ensures value { result ≡ variable_at (pattern_term_of place.now) }
{
    match place {
        PatternTerm::Variable(variable) => Some(*variable),
        PatternTerm::Label(_) | PatternTerm::Term(_) => None,
    }
}

/// Returns the subject of the first triple pattern, if it is a variable.
fn first_variable(triples: &[TriplePattern]) -> Option<usize>
    ensures value { result ≡ first_variable (map triple_pattern_of triples.now) }
{
    match triples.split_first() {
        Some((first, _others)) => variable_at(&first.subject),
        None => None,
    }
}

/// Returns the first subject that is a variable, of the first triple patterns of the basic graph patterns.
pub(crate) fn first_subject(tree: &Operator) -> Option<usize>
    ensures value { result ≡ first_subject (algebra_of tree.now) }
{
    match tree {
        Operator::Pattern { triples, .. } => first_variable(triples),
        Operator::Join { left, right }
        | Operator::LeftJoin { left, right, .. }
        | Operator::Union { left, right }
        | Operator::Minus { left, right } => first_subject(left).or(first_subject(right)),
        Operator::Graph { inner, .. }
        | Operator::Filter { inner, .. }
        | Operator::Extend { inner, .. }
        | Operator::Project { inner, .. }
        | Operator::Distinct { inner } => first_subject(inner),
        Operator::Table { .. } => None,
    }
}

/// Returns the first name after GRAPH.
#[tactic(auto, using(crate::proofs::PatternSteps::first_mapped))]
pub(crate) fn first_graph(tree: &Operator) -> Option<&GraphName>
    ensures value { option_map (λ (n : Bor GraphName). graph_name_of n.now) result ≡ first_graph (algebra_of tree.now) }
{
    match tree {
        Operator::Graph { name, .. } => Some(name),
        Operator::Join { left, right }
        | Operator::LeftJoin { left, right, .. }
        | Operator::Union { left, right }
        | Operator::Minus { left, right } => first_graph(left).or(first_graph(right)),
        Operator::Filter { inner, .. }
        | Operator::Extend { inner, .. }
        | Operator::Project { inner, .. }
        | Operator::Distinct { inner } => first_graph(inner),
        Operator::Pattern { .. } | Operator::Table { .. } => None,
    }
}
