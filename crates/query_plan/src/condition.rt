//! The condition of a split, over the tree of a plan.
ghost use Rattle.std.specs.Prelude.{◌≡◌, map};
ghost use Rattle.std.specs.List.{list_all};
ghost use Rattle.sparql_algebra.specs.AlgebraOf.{algebra_of, graph_name_of, pattern_term_of, triple_pattern_of};
ghost use Rattle.query_split.specs.Condition.{has_default, has_keys, has_no_graph, is_apart, is_apart_pattern, is_key_name, is_key_variable, is_same};
ghost use Rattle.query_plan.specs.Keys.{key_of};

use query_split::Split;
use sparql_algebra::{GraphName, Operator, PatternTerm, TriplePattern};

/// Returns whether a position of a triple pattern is the key, which is a variable.
fn is_key_variable(key: &GraphName, place: &PatternTerm) -> bool
    ensures value { result ≡ is_key_variable (key_of key.now) (pattern_term_of place.now) }
{
    match (key, place) {
        (GraphName::Variable(k), PatternTerm::Variable(v)) => *k == *v,
        _ => false,
    }
}

/// Returns whether the name after GRAPH is the key.
fn is_key_name(key: &GraphName, name: &GraphName) -> bool
    ensures value { result ≡ is_key_name (key_of key.now) (graph_name_of name.now) }
{
    match (key, name) {
        (GraphName::Variable(k), GraphName::Variable(v)) => *k == *v,
        (GraphName::Iri(k), GraphName::Iri(t)) => *k == *t,
        _ => false,
    }
}

/// Returns whether there is no GRAPH in the tree.
fn has_no_graph(tree: &Operator) -> bool
    ensures value { result ≡ has_no_graph (algebra_of tree.now) }
{
    match tree {
        Operator::Pattern { .. } | Operator::Table { .. } => true,
        Operator::Graph { .. } => false,
        Operator::Join { left, right }
        | Operator::LeftJoin { left, right, .. }
        | Operator::Union { left, right }
        | Operator::Minus { left, right } => has_no_graph(left) && has_no_graph(right),
        Operator::Filter { inner, .. }
        | Operator::Extend { inner, .. }
        | Operator::Project { inner, .. }
        | Operator::Distinct { inner } => has_no_graph(inner),
    }
}

/// Returns whether each part has the whole default graph.
fn has_default(split: &Split) -> bool
    ensures value { result ≡ has_default split.now }
{
    match split {
        Split::GraphWithDefault => true,
        Split::Lines | Split::Subject | Split::Graph => false,
    }
}

/// Returns whether two solutions from different parts are never compatible.
fn has_keys(split: &Split) -> bool
    ensures value { result ≡ has_keys split.now }
{
    match split {
        Split::Lines => false,
        Split::Subject | Split::Graph | Split::GraphWithDefault => true,
    }
}

/// Returns whether the solutions of the tree are the same in each part as in the whole.
fn is_same(tree: &Operator, split: &Split) -> bool
    ensures value { result ≡ is_same split.now (algebra_of tree.now) }
{
    match tree {
        Operator::Pattern { triples, .. } => triples.is_empty() || has_default(split),
        Operator::Table { .. } => true,
        Operator::Graph { .. } => false,
        Operator::Join { left, right }
        | Operator::LeftJoin { left, right, .. }
        | Operator::Union { left, right }
        | Operator::Minus { left, right } => is_same(left, split) && is_same(right, split),
        Operator::Filter { inner, .. }
        | Operator::Extend { inner, .. }
        | Operator::Project { inner, .. }
        | Operator::Distinct { inner } => is_same(inner, split),
    }
}

/// Returns whether each triple pattern has the key as its subject.
fn have_key(triples: &[TriplePattern], key: &GraphName) -> bool
    ensures value { result ≡ list_all (λ t. is_key_variable (key_of key.now) (pattern_term_of t.subject)) triples.now }
{
    triples.iter().all(|t| is_key_variable(key, &t.subject))
}

/// Returns whether each solution of a basic graph pattern comes from one part.
fn is_apart_pattern(triples: &[TriplePattern], split: &Split, key: &GraphName) -> bool
    ensures value { result ≡ is_apart_pattern split.now (key_of key.now) (map triple_pattern_of triples.now) }
{
    match split {
        Split::Lines => triples.len() == 1,
        Split::Subject => !triples.is_empty() && have_key(triples, key),
        Split::Graph | Split::GraphWithDefault => false,
    }
}

/// Returns whether each solution of the tree comes from one part.
pub(crate) fn is_apart(tree: &Operator, split: &Split, key: &GraphName) -> bool
    ensures value { result ≡ is_apart split.now (key_of key.now) (algebra_of tree.now) }
{
    match tree {
        Operator::Pattern { triples, .. } => is_apart_pattern(triples, split, key),
        Operator::Join { left, right } => {
            is_apart(left, split, key)
                && (is_same(right, split) || has_keys(split) && is_apart(right, split, key))
                || is_same(left, split) && is_apart(right, split, key)
        }
        Operator::LeftJoin { left, right, .. } | Operator::Minus { left, right } => {
            is_apart(left, split, key)
                && (is_same(right, split) || has_keys(split) && is_apart(right, split, key))
        }
        Operator::Union { left, right } => {
            is_apart(left, split, key) && is_apart(right, split, key)
        }
        Operator::Graph { name, inner } => {
            has_no_graph(inner)
                && match split {
                    Split::Lines | Split::Subject => is_apart(inner, split, key),
                    Split::Graph | Split::GraphWithDefault => is_key_name(key, name),
                }
        }
        Operator::Filter { inner, .. } | Operator::Extend { inner, .. } => {
            is_apart(inner, split, key)
        }
        Operator::Project { .. } | Operator::Distinct { .. } | Operator::Table { .. } => false,
    }
}
