//! The model of the SPARQL algebra. It defines what a query means, without code, and states the
//! laws on which an evaluator relies. `specs/` has the definitions. `src/laws.rt` has the laws, as
//! contracts of functions without effect. `proofs/` has the lemmas that other crates use.
//!
//! Callers use `eval w D g algebra`. It is the multiset of solutions of an algebra expression over
//! a dataset `D`, with the active graph `g` and `w` variables. Their contracts state `IsSameBag`
//! with it, or `sorted_rows` of it if the order matters.
//!
//! Standards: SPARQL 1.1 Query Language, sections 17 and 18; RDF 1.1 Concepts, section 4. Two
//! choices of this project are marked as such: the order of rows, and the solutions in a graph that
//! no statement names.
//!
//! Reading order: `Solution`, `Bag`, `Bgp` (basic graph patterns by trying every map), `Operators`,
//! `Dataset`; `Number`, `LiteralValue`, `BooleanValue`, `Comparison`, `Call`, `Expression`;
//! `Algebra`, `Eval`; `Sorted`, `RowOrder`. Only laws and proofs use `Closed`, `Solve`, `Keys`,
//! `Pieces` and `Renaming`. No definition of the algebra depends on them.
//!
//! Example: over the triples a p b and a p c, the pattern `?s p _:x` has the solution `?s = a`
//! twice, once for each term of its blank node label. The prover checks the worked examples of
//! `src/examples.rt`. Examples of the standard run through the program
//! (tests/examples/query_solutions.toml).
//!
//! Not part of this crate: the translation of a query to an algebra expression (`sparql_algebra`),
//! evaluation (`sparql_eval`), and any guarantee of time or memory.
#![tactic(auto)]

pub mod examples;
pub mod laws;
