//! How many rows a tree has at most, found from the index before the tree is evaluated.
use crate::evaluator::Evaluator;
use crate::patterns::number_triple;
use crate::separated::Tested;
use dict_core::Dict;
use piece_pool::Gate;
use row_pattern::PatternNumber;
use sparql_algebra::{Operator, TriplePattern};
use std::sync::Wait;
use std::thread::Threads;

/// The height of the trees that are looked at. Parts further below are taken for triple patterns that match
/// all quads. The limit keeps the time short.
const MOST_HEIGHT: usize = 8;

impl<'c, 'i, 'e, R: Threads + Wait, G: Gate + Sync> Evaluator<'c, 'i, 'e, R, G> {
    /// Returns the condition for rows that are joined to those of a tree before it is tested.
    pub(crate) fn tested_after<'t>(
        &self,
        tested: &Tested<'t>,
        dict: &Dict,
        active: Option<u64>,
        tree: &Box<Operator>,
    ) -> Tested<'t> {
        if tested.place.is_counted() {
            tested.after_a_join(self.most_rows(dict, active, tree, MOST_HEIGHT))
        } else {
            tested.after_a_join(1)
        }
    }

    /// Returns the condition for rows that are joined to those of a tree in the same graph, one of these,
    /// before it is tested.
    pub(crate) fn tested_after_each<'t>(
        &self,
        tested: &Tested<'t>,
        dict: &Dict,
        graphs: &[u64],
        tree: &Box<Operator>,
    ) -> Tested<'t> {
        let mut most: usize = 1;
        if tested.place.is_counted() {
            for i in 0..graphs.len() {
                let rows = self.most_rows(dict, Some(graphs[i]), tree, MOST_HEIGHT);
                most = most.max(rows);
            }
        }
        tested.after_a_join(most)
    }

    /// Returns the number of rows of a tree, or a larger one. A basic graph pattern is taken to have no more
    /// rows than there are quads.
    fn most_rows(&self, dict: &Dict, active: Option<u64>, tree: &Operator, height: usize) -> usize {
        if height == 0 {
            return self.quads();
        }
        let below = height - 1;
        match tree {
            Operator::Pattern { triples, .. } => self.most_matches(
                dict,
                active,
                triples.as_slice(),
            ),
            Operator::Join { left, right } => {
                let rows = self.most_rows(dict, active, left, below);
                rows.saturating_mul(self.most_rows(dict, active, right, below))
            }
            Operator::LeftJoin { left, right, .. } => {
                let rows = self.most_rows(dict, active, left, below);
                rows.saturating_mul(self.most_rows(dict, active, right, below).max(1))
            }
            Operator::Union { left, right } => {
                let rows = self.most_rows(dict, active, left, below);
                rows.saturating_add(self.most_rows(dict, active, right, below))
            }
            Operator::Minus { left, .. } => self.most_rows(dict, active, left, below),
            Operator::Filter { inner, .. } => self.most_rows(dict, active, inner, below),
            Operator::Extend { inner, .. } => self.most_rows(dict, active, inner, below),
            Operator::Project { inner, .. } => self.most_rows(dict, active, inner, below),
            Operator::Distinct { inner } => self.most_rows(dict, active, inner, below),
            Operator::Graph { .. } => self.quads(),
            Operator::Table { rows, .. } => rows.len(),
        }
    }

    /// Returns the number of solutions of a basic graph pattern, or a larger one, but not more than that of
    /// the quads.
    fn most_matches(&self, dict: &Dict, active: Option<u64>, triples: &[TriplePattern]) -> usize {
        let mut rows: usize = 1;
        for triple in triples {
            let matches = self.matches(dict, active, triple);
            rows = rows.saturating_mul(matches).min(self.quads());
        }
        rows
    }

    /// Returns the number of quads that match a triple pattern, if its variables are different.
    fn matches(&self, dict: &Dict, active: Option<u64>, triple: &TriplePattern) -> usize {
        match number_triple(dict, triple) {
            Some(triple) => {
                let subject = constant(triple.subject);
                let predicate = constant(triple.predicate);
                let object = constant(triple.object);
                self.index.scan(active, subject, predicate, object).len()
            }
            None => 0,
        }
    }
}

/// Returns the number of a term in a pattern, or None at a variable or a blank node label.
fn constant(place: PatternNumber) -> Option<u64> {
    match place {
        PatternNumber::Term(number) => Some(number),
        PatternNumber::Variable(_) | PatternNumber::Label(_) => None,
    }
}
