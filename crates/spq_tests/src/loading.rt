//! Tests of everything from bytes to a dataset:
//!
//! - `terms` of rdf_core and nquads_core;
//! - `slices` of nquads_scan: which lines are read the fast way;
//! - `boards` of piece_board, and `pools` of piece_pool: what two threads do at the same time;
//! - `cutting` of piece_cuts;
//! - `lists` of quad_index: which numbers are packed;
//! - `readers` of dataset_load: the terms of a reader;
//! - `refusals` of dict_core, quad_index and dataset_load: what is left if an allocation fails or a worker thread cannot be
//!   started. A test of them ends without an error if the failing allocation is one of its own.

mod boards;
mod cutting;
mod lists;
mod pools;
mod readers;
mod refusals;
mod slices;
mod terms;
