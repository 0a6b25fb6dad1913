//! The program that works on one block or one partition of a document for a cluster of machines.
//!
//! [`run`] runs a command over a reader and a writer. Its contract says that what it writes is the output of the command
//! for the bytes that it reads (`IsOutput` in specs/Output.antt). The laws of `cluster_parts` say what the outputs for
//! all blocks of a document give together.
//!
//! The laws in [`laws`] say that the quads that a query needs give its result.
//!
//! Reading order: `command`, `fault`, `needing`, `composing`, `reading`, `program`, `report`.
#![tactic(auto)]

mod command;
mod composing;
mod fault;
pub mod laws;
mod needing;
mod program;
mod reading;
mod report;

pub use command::{Command, read_command};
pub use composing::compose;
pub use fault::PartFault;
pub use program::run;
pub use report::{line_of, status};
