//! What is known about a run that has ended.

use spq_command::{Command, read_command};
use spq_run::Notes;
use std::alloc::Global;
use std::io::Error;

/// What is known about a run that has ended.
#[derive(Clone, Copy)]
pub struct Account<'a> {
    /// The words of its command line, with the program's name first. None if a word is not UTF-8.
    pub words: Option<&'a [String]>,
    /// Its notes.
    pub notes: &'a Notes,
    /// The error of its reader.
    pub read_error: Option<Error>,
    /// The error of its writer.
    pub write_error: Option<Error>,
    /// Whether the line of standard output is repeated, because standard output is not a terminal and the user
    /// may not see it.
    pub is_repeated: bool,
    /// Whether the message about the first malformed line was written during the run, after the line of standard
    /// output if that is repeated.
    pub is_first_told: bool,
}

impl<'a> Account<'a> {
    /// Returns the command of the words. Returns None if the words are not known, if they are not a valid command
    /// line, or if an allocation fails.
    pub(crate) fn command(&self, alloc: Global) -> Option<Command> {
        read_command(alloc, self.words?).ok()
    }
}
