//! The command line of spq: what its arguments say, and the texts about it.
//!
//! - [`read_command`] turns arguments into a [`Command`], or into the reason why they are none.
//! - [`message`] takes the same arguments. It returns the text for arguments that are not a command:
//!   the error, or the help or version that they request. It returns None if they are a command.
//!   [`is_file_name`] returns whether an argument looks like the name of a file.
//!
//! Callers rely on two facts of the first half. The type of a [`Command`] keeps the limits of workers
//! and blocks ([`ReadOptions`]). [`read_command`] returns the command of the arguments
//! (`IsCommandLine` of specs/Program.antt), and `Line` exactly if they are not a command. The library
//! of command lines rejects exactly these arguments (`fault_of`). No result depends on the texts.
//!
//! No standard defines the command line; it is a choice of this project.
//!
//! Both read the arguments with the same value of the library (`program`).
//!
//! Reading order: `command` (commands), `texts` and `program` (the command lines with their help),
//! `command_line` (the command of the arguments), `messages` (the text for them).
//!
//! Example: the arguments `spq`, `check`, `--workers`, `8` are a check with 8 workers, in blocks of
//! 65,536 bytes. tests/examples/program_command_lines.toml has such examples, and
//! tests/examples/program_help.toml has the texts.
//!
//! Not guaranteed: that memory suffices, and the wording of the texts, which is that of the library.
#![tactic(auto)]

mod command;
mod command_line;
mod messages;
mod program;
mod texts;

pub use command::{Command, ReadOptions};
pub use command_line::{CommandFault, read_command};
pub use messages::{is_file_name, message};
pub use texts::VERSION;
