//! A law of basic graph patterns. It is the contract of a function without effect.

ghost use Rattle.sparql_algebra.specs.BasicPatterns.{OneSetOfPatterns};

/// The rule on blank node labels checks exactly the basic graph patterns of the query's plan
/// (SPARQL 1.1 Query Language, sections 5.1.1 and 18.2.2.5). Patterns without triples are left out
/// in both.
pub fn one_set_of_patterns()
    ensures law { OneSetOfPatterns }
{}
