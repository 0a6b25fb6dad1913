//! spq: SPARQL SELECT over an N-Quads document, from bytes to JSON.
//!
//! The input is a document and the text of a query. The result is the JSON of the solutions, or the reason why
//! there is none. The program calls [`run_words`]; [`answer`] evaluates a query over a document in memory. Their
//! contracts say that the result of a query is the one that the standards prescribe (`IsQueryResult` of
//! specs/Outcome.antt), unless memory, a thread or a device fails. The query is checked first, then the document. The
//! bytes are the JSON of the algebra's solutions over the dataset, with their repeats, in order. No cut, worker or gate
//! occurs in the definition, and document and query have at most one result (`one_outcome` of [`laws`]).
//!
//! [`run`] states the same for a command over a reader and a writer, and what is left on each error. It plans a query before it
//! reads, validates every line, and may leave out quads that the plan does not need (`needed_quads`). A command has
//! at most one output for a document (`one_output`). [`run_words`] states it for the words of a command line, and
//! [`finish`] of `spq_run` states how the program ends. [`Notes`] are for messages to the user, and no clause depends on
//! them. A [`Progress`] is told of each failure that becomes `Memory` or `WorkerRefused` (clause `cause` of [`run_words`]).
//!
//! Standards: SPARQL 1.1 Query Language, sections 17 to 19; SPARQL 1.1 Query Results JSON Format;
//! RDF 1.1 N-Quads.
//!
//! Reading order: `fault`, `notes` (how notes are taken), `answering` (the result of a query), `listing` (what `check`
//! and `terms` print), `program` (`run`), `words` (a command line, and the thread of a query), `laws`.
//!
//! Example: the document `<http://e/a> <http://e/p> "x" .` and the query
//! `SELECT ?o { <http://e/a> <http://e/p> ?o }` have the result
//! `{"head":{"vars":["o"]},"results":{"bindings":[{"o":{"type":"literal","value":"x"}}]}}`; tests/examples.py
//! runs such examples.
//!
//! Not guaranteed: that memory suffices, that a call returns (it joins its workers), speed, and what a
//! file or a terminal holds.
#![tactic(auto)]

mod answering;
mod fault;
pub mod laws;
mod listing;
mod notes;
mod program;
mod words;

pub use answering::answer;
pub use fault::Fault;
pub use program::run;
pub use words::{Ran, run_words};

/// Why a document was not loaded.
pub use dataset_load::LoadFault;
/// A loaded dataset: its terms, and an index of its quads.
pub use dataset_load::Store;
/// Loads a document that is cut into pieces.
pub use dataset_load::load;
/// Loads a document that is split into blocks of whole lines.
pub use dataset_load::load_blocks;
/// What the words of a command line say to do.
pub use spq_command::Command;
/// Why the words of a command line are no command.
pub use spq_command::CommandFault;
/// Reads the words of a command line.
pub use spq_command::read_command;
/// How an evaluation is run: the number of workers, and how many rows a task has at most.
pub use row_pieces::How;
/// The malformed lines of a document, who is told of the first one, and why a call failed.
pub use spq_run::{Listing, LoadListener, PoolFault};
/// The notes of a run, and who is told of its stages.
pub use spq_run::{NoProgress, Notes, Progress, Stage};
/// Why a command was not done, its line and its status.
pub use spq_run::{RunFault, finish, status, write_fault};
