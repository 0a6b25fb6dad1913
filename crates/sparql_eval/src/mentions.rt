//! The variables that an expression mentions, and those that the solutions of a tree may bind.
ghost use Rattle.std.specs.Prelude.{◌≡◌, ◌<◌, ◌||◌, ℕ, false, true, map};
ghost use Rattle.std.specs.List.{list_any};
ghost use Rattle.algebra_model.specs.Bgp.{is_at, occurs};
ghost use Rattle.expression_values.specs.ExpressionOf.{expression_of};
ghost use Rattle.sparql_algebra.specs.AlgebraOf.{algebra_of, graph_name_of, pattern_term_of, triple_pattern_of};
ghost use Rattle.sparql_eval.specs.Mentions.{may_bind, mentions, names_by};

use sparql_algebra::{Expr, GraphName, Operator, PatternTerm, TriplePattern};

/// Returns false only if the expression does not mention the variable. Returns true for IN with a list
/// that has other expressions than terms.
pub(crate) fn may_mention(expr: &Expr, variable: usize) -> bool
    ensures not_mentioned { result ≡ false
        → mentions (expression_of expr.now) variable ≡ false }
{
    match expr {
        Expr::Variable(number) => *number == variable,
        Expr::Constant(_) => false,
        Expr::Or { left, right } => {
            either(may_mention(left, variable), may_mention(right, variable))
        }
        Expr::And { left, right } => {
            either(may_mention(left, variable), may_mention(right, variable))
        }
        Expr::Not(inner) => may_mention(inner, variable),
        Expr::Compare { left, right, .. } => {
            either(may_mention(left, variable), may_mention(right, variable))
        }
        Expr::In { item, list } => {
            either(
                may_mention(item, variable),
                may_mention_some(list.as_slice()),
            )
        }
        Expr::Call { argument, .. } => may_mention(argument, variable),
        Expr::Bound(number) => *number == variable,
        Expr::SameTerm { left, right } => {
            either(may_mention(left, variable), may_mention(right, variable))
        }
    }
}

/// Returns false only if each expression of the list is a term. Then none mentions a variable.
fn may_mention_some(list: &[Expr]) -> bool
    ensures not_mentioned { result ≡ false → (v : ℕ)
        → list_any (λ e. mentions e v) (map expression_of list.now) ≡ false }
{
    for i in 0..list.len() {
        if !is_term(&list[i]) {
            return true;
        }
    }
    false
}

/// Returns whether the expression is a term.
fn is_term(expr: &Expr) -> bool
    ensures not_mentioned { result ≡ true → (v : ℕ)
        → mentions (expression_of expr.now) v ≡ false }
{
    match expr {
        Expr::Constant(_) => true,
        _ => false,
    }
}

/// Returns whether one of the two is true.
fn either(first: bool, second: bool) -> bool
    ensures value { result ≡ (first || second) }
{
    first || second
}

/// Returns whether the solutions of the tree may bind the variable, which is below the width.
pub(crate) fn may_bind(tree: &Operator, width: usize, variable: usize) -> bool
    requires variable { variable < width }
    ensures value { result ≡ may_bind width (algebra_of tree.now) variable }
{
    match tree {
        Operator::Pattern { triples, .. } => occurs(triples.as_slice(), width, variable),
        Operator::Join { left, right } => {
            may_bind(left, width, variable) || may_bind(right, width, variable)
        }
        Operator::LeftJoin { left, right, .. } => {
            may_bind(left, width, variable) || may_bind(right, width, variable)
        }
        Operator::Union { left, right } => {
            may_bind(left, width, variable) || may_bind(right, width, variable)
        }
        Operator::Minus { left, .. } => may_bind(left, width, variable),
        Operator::Graph { name, inner } => {
            is_named_by(name, variable) || may_bind(inner, width, variable)
        }
        Operator::Filter { inner, .. } => may_bind(inner, width, variable),
        Operator::Extend {
            variable: bound,
            inner,
            ..
        } => *bound == variable || may_bind(inner, width, variable),
        Operator::Project { inner, .. } => may_bind(inner, width, variable),
        Operator::Distinct { inner } => may_bind(inner, width, variable),
        Operator::Table { variables, .. } => variables.as_slice().contains(&variable),
    }
}

/// Returns whether the name after GRAPH is the variable.
fn is_named_by(name: &GraphName, variable: usize) -> bool
    ensures value { result ≡ names_by (graph_name_of name.now) variable }
{
    match name {
        GraphName::Variable(number) => *number == variable,
        GraphName::Iri(_) => false,
    }
}

/// Returns whether a triple pattern has the variable.
fn occurs(triples: &[TriplePattern], width: usize, variable: usize) -> bool
    requires variable { variable < width }
    ensures value { result ≡ occurs width (map triple_pattern_of triples.now) variable }
{
    for i in 0..triples.len() {
        if has_variable(&triples[i], width, variable) {
            return true;
        }
    }
    false
}

/// Returns whether the triple pattern has the variable.
fn has_variable(triple: &TriplePattern, width: usize, variable: usize) -> bool
    requires variable { variable < width }
    ensures value { result ≡ (is_at width (pattern_term_of triple.now.subject) variable
        || is_at width (pattern_term_of triple.now.predicate) variable
        || is_at width (pattern_term_of triple.now.object) variable) }
{
    is_at(&triple.subject, width, variable)
        || is_at(&triple.predicate, width, variable)
        || is_at(&triple.object, width, variable)
}

/// Returns whether the place has the variable. A label is after the variables.
fn is_at(place: &PatternTerm, width: usize, variable: usize) -> bool
    requires variable { variable < width }
    ensures value { result ≡ is_at width (pattern_term_of place.now) variable }
{
    match place {
        PatternTerm::Variable(number) => *number == variable,
        PatternTerm::Label(_) => false,
        PatternTerm::Term(_) => false,
    }
}
