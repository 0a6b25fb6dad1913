//! Tests that call the libraries, by area:
//!
//! - `loading`: from the bytes of a document to a dataset;
//! - `query`: from the text of a query to the JSON of its results;
//! - `program`: what the program spq does not show from outside.
//!
//! `fixtures` has what the areas share. A function has a contract, so a test is for what no contract covers, and a short
//! example of each call that no other test reaches. Each call of the main interface succeeds once, which no contract promises,
//! since memory may run out. The rest runs through the program: the examples of the standards and of the results are in
//! tests/examples, messages in tests/messages.py, failing calls of the system in tests/failures.py, and long queries in
//! tests/depth.py.
//!
//! The tests are in a crate of their own, so that a check of the tests proves no library a second time, and in one crate, since
//! each crate of tests reads the libraries that it stands on. Each function costs the prover some seconds, so a test is one
//! function with few helpers.
#![tactic(auto)]

#[cfg(test)]
mod fixtures;
#[cfg(test)]
mod loading;
#[cfg(test)]
mod program;
#[cfg(test)]
mod query;
