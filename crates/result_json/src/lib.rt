//! Prints rows of numbers as SPARQL Query Results JSON, in the order of their terms.
//!
//! [`print_rows`] is the only entry point. It takes the rows of an evaluator and a [`Table`]: the
//! dictionary of their numbers, and the projected variables. It returns the whole document in
//! blocks. Its contract defines the bytes of the concatenated blocks. They are `json` of the
//! projected names and of the sorted rows that OFFSET and LIMIT keep. `json` is defined in
//! specs/Results.antt; algebra_model defines the order of rows and the slice. No clause about the
//! bytes mentions a worker or a piece.
//!
//! Standards: SPARQL 1.1 Query Results JSON Format, sections 3.1 and 3.2; RFC 8259, section 7;
//! SPARQL 1.1 Query Language, sections 15.4 and 15.5.
//!
//! The steps are:
//!
//! - The cells of the projected variables are copied into one buffer of numbers, and the rows are freed.
//! - Their distinct terms are sorted, and the rank of its term replaces each number. Workers sort
//!   pieces of the terms by keys. The pieces are merged, and workers check the order.
//! - The rows are sorted by ranks. Rows of two cells are first sorted as one number each.
//! - The rows that OFFSET and LIMIT keep are packed, and the memory of the sort is freed.
//! - Each term of the result is printed once. Workers print pieces of the terms, each piece into a
//!   buffer of its own. A text that needs no escape is copied; the JSON library prints the others.
//! - Workers append rows in pieces, each piece into one block whose size is computed before. The
//!   texts of several rows are looked up before the first of them is copied.
//!
//! Reading order: `printing`, `coding` (cells as numbers), `ranking` (numbers as ranks), `pieces`
//! (of a list, for workers), `presort` (terms sorted by keys, in parallel), `order_check` (whether
//! they are in order), `pair_order` (rows of two ranks), `ranked_row` and `row_order`,
//! `packed_rows` (sorted rows in less memory), `values` (texts as JSON strings, and terms as
//! objects), `term_texts`, `text_pieces` (terms printed in parallel), `columns`, `prefetch` (texts
//! of several rows at once), `row_texts`, `row_blocks` (rows in parallel), `results`. Tests:
//! `query::operators` of spq_tests, and tests/examples/query_json.toml.
//!
//! Example: one variable `o` and the rows `"x"` and `<http://e/a>` give
//! `{"head":{"vars":["o"]},"results":{"bindings":[{"o":{"type":"uri","value":"http://e/a"}},{"o":{"type":"literal","value":"x"}}]}}`
//! and a line feed.
//!
//! Not guaranteed: that memory suffices, and speed.
#![tactic(auto)]

mod coding;
mod columns;
mod order_check;
mod packed_rows;
mod pair_order;
mod pieces;
mod prefetch;
mod presort;
mod printing;
mod ranked_row;
mod ranking;
mod results;
mod row_blocks;
mod row_order;
mod row_texts;
mod term_texts;
mod text_pieces;
mod values;

pub use printing::{Table, print_rows};
