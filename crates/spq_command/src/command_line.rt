//! The command of the arguments of a command line.
ghost use Rattle.std.specs.Prelude.{◌≡◌, ◌≢◌, ◌≤◌, [], IfErr, IfOk, codes, map, string_bytes};
ghost use Rattle.clap.specs.Words.{fault_of, found_of, rows_of, subcommand_rows_of};
ghost use Rattle.spq_command.specs.Program.{HasNumber, HasReadOptions, HasSelect, IsCommandLine, IsCommandMet, IsCommandOf, program};
ghost use Rattle.spq_command.specs.declared.command_line.CommandFault.TheVariants.{Memory};

use crate::command::{Command, ReadOptions};
use crate::program::{BYTES, MOST_BYTES, MOST_ROWS, MOST_WORKERS, ROWS, WORKERS, program_line};
use clap::ArgMatches;
use clap::error::ErrorKind;
use rdf_core::Text;
use std::alloc::{AllocError, Global};
use thiserror::Error;

/// Why a command line is not a command.
#[derive(Clone, Copy, Debug, Drop, Error, PartialEq, Eq)]
pub enum CommandFault {
    /// It is not a command line of the program, or it requests help.
    #[error("the arguments are not a command of spq")]
    Line,
    /// Out of memory.
    #[error("out of memory")]
    Memory,
}

impl From<AllocError> for CommandFault {
    ghost from_gives = { λ _ e. e ≡ Memory };

    fn from(_refused: AllocError) -> CommandFault {
        CommandFault::Memory
    }
}

/// Returns the number of an argument, or its default if it is not given.
fn number_of(
    found: &ArgMatches<'_>,
    name: &str,
    default: u64,
    most: u64,
) -> Result<usize, CommandFault>
    requires default { (1 ≤ default) × (default ≤ most) }
    ensures within { IfOk result (λ n. (1 ≤ n) × (n ≤ most)) }
    ensures ok { IfOk result (HasNumber name.now default most (rows_of (found_of found.now))) }
    ensures line { IfErr result (λ _.
        (n : _) → HasNumber name.now default most (rows_of (found_of found.now)) n → ⊥) }
{
    match found.try_get_one::<u64>(name) {
        Ok(None) => Ok(default as usize),
        Ok(Some(n)) => {
            if n < 1 || most < n {
                return Err(CommandFault::Line);
            }
            Ok(n as usize)
        }
        Err(_) => Err(CommandFault::Line),
    }
}

/// Returns how the document is read.
fn reading_of(found: &ArgMatches<'_>) -> Result<ReadOptions, CommandFault>
    ensures ok { IfOk result (HasReadOptions (rows_of (found_of found.now))) }
    ensures line { IfErr result (λ _.
        (reading : _) → HasReadOptions (rows_of (found_of found.now)) reading → ⊥) }
{
    let workers = number_of(found, "workers", WORKERS, MOST_WORKERS)?;
    let piece = number_of(found, "piece", BYTES, MOST_BYTES)?;
    Ok(ReadOptions { workers, piece })
}

/// Returns the query of a `select`, and how it is evaluated.
fn select_of(alloc: Global, found: &ArgMatches<'_>) -> Result<Command, CommandFault>
    ensures ok { IfOk result (IsCommandOf (codes "select", rows_of (found_of found.now))) }
    ensures line { IfErr result (λ fault. fault ≡ CommandFault.Line → (query : _) (reading : _)
        (rows : _) → HasSelect (rows_of (found_of found.now)) query reading rows → ⊥) }
{
    let Some(query) = found.get_str("query") else {
        return Err(CommandFault::Line);
    };
    let query = Text::from_string(String::from_str(alloc, query)?);
    let reading = reading_of(found)?;
    let rows = number_of(found, "rows", ROWS, MOST_ROWS)?;
    Ok(Command::Select {
        query,
        reading,
        rows,
    })
}

/// Returns the command of a valid command line.
fn command_of(alloc: Global, matches: &ArgMatches<'_>) -> Result<Command, CommandFault>
    ensures ok { IfOk result (IsCommandMet (subcommand_rows_of matches.now)) }
    ensures line { IfErr result (λ fault. fault ≡ CommandFault.Line
        → (command : _) → IsCommandMet (subcommand_rows_of matches.now) command → ⊥) }
{
    let Some((name, found)) = matches.subcommand() else {
        return Err(CommandFault::Line);
    };
    match name {
        "select" => select_of(alloc, found),
        "check" => Ok(Command::Check {
            reading: reading_of(found)?,
        }),
        "terms" => Ok(Command::Terms {
            reading: reading_of(found)?,
        }),
        _ => Err(CommandFault::Line),
    }
}

/// Parses the arguments of a command line, of which the first is the program's name.
///
/// The defaults are 4 workers, 65,536 bytes and 1,024 rows.
///
/// # Errors
/// - `Line` if the arguments are not a command, or request help, or if a number is malformed or out
///   of range. The library of command lines rejects these arguments itself, for a cause other than
///   memory.
/// - `Memory` if an allocation fails.
pub fn read_command(alloc: Global, words: &[String]) -> Result<Command, CommandFault>
    ensures ok { IfOk result (IsCommandLine (map string_bytes words.now)) }
    ensures line { IfErr result (λ fault. fault ≡ CommandFault.Line
        → (command : _) → IsCommandLine (map string_bytes words.now) command → ⊥) }
    ensures rejected { IfErr result (λ fault. fault ≡ CommandFault.Line
        → fault_of program (map string_bytes words.now) ≢ []) }
{
    let line = program_line(alloc)?;
    match line.try_get_matches_from(words) {
        Ok(matches) => command_of(alloc, &matches),
        Err(error) => match error.kind() {
            ErrorKind::OutOfMemory => Err(CommandFault::Memory),
            _ => Err(CommandFault::Line),
        },
    }
}
