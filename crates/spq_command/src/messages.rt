//! The text for arguments that are not a command.

ghost use Rattle.std.specs.Prelude.{◌≡◌, ◌≢◌, ◌==◌, false, slice_index, true};
ghost use Rattle.std.specs.List.{list_any};

use crate::program::program_line;
use crate::texts::{ABOUT, AFTER, USAGE, VERSION};
use clap::error::ErrorKind;
use clap::{Command, Error};
use std::alloc::{AllocError, Global};

const HINT: &str = "hint: spq reads standard input: use spq check < ";

/// Endings of the names of files that hold RDF, compressed or not.
const ENDINGS: [&str; 14] = [
    ".nq", ".nt", ".ttl", ".trig", ".rdf", ".xml", ".json", ".jsonld", ".n3", ".txt", ".gz", ".xz",
    ".zst", ".bz2",
];

/// Returns whether an argument has an ending that the names of files have.
fn has_ending(word: &str) -> bool {
    for end in ENDINGS {
        if word.ends_with(end) {
            return true;
        }
    }
    false
}

/// Returns whether an argument looks like the name of a file: it has a slash and does not begin
/// with a hyphen, or it has an ending that these names have.
pub fn is_file_name(word: &str) -> bool
    ensures option { slice_index word.now 0 ≡ 45 → result ≡ false }
    ensures slash { slice_index word.now 0 ≢ 45 → list_any (λ b. b == 47) word.now ≡ true
        → result ≡ true }
{
    !word.starts_with('-') && (word.as_bytes().contains(&b'/') || has_ending(word))
}

/// Returns the first argument that looks like the name of a file. The program's name and the text
/// of a query are left out.
fn file_name_of(words: &[String]) -> Option<&str> {
    let mut is_query = false;
    for word in words.iter().skip(1) {
        if !is_query && is_file_name(word.as_str()) {
            return Some(word.as_str());
        }
        is_query = word.as_str() == "--query";
    }
    None
}

/// Returns the text of an error, with a hint if an argument looks like the name of a file.
fn text_of(alloc: Global, error: &Error, words: &[String]) -> Result<String, AllocError> {
    let mut text = format!(in alloc; "{error}")?;
    let is_stray = matches!(
        error.kind(),
        ErrorKind::UnknownArgument | ErrorKind::InvalidSubcommand
    );
    if is_stray {
        if let Some(name) = file_name_of(words) {
            write!(text, "{HINT}{name}\n")?;
        }
    }
    Ok(text)
}

/// Adds the texts of the help of the program itself, and its version.
fn described<'a>(line: Command<'a>) -> Command<'a> {
    line.version(VERSION)
        .about(ABOUT)
        .override_usage(USAGE)
        .after_help(AFTER)
}

/// Returns the message for the arguments of a command line, with the program's name as the first of
/// them: the error, or the help or version that they request. Returns None if they are a command.
///
/// # Errors
/// `AllocError` if an allocation fails.
pub fn message(alloc: Global, words: &[String]) -> Result<Option<String>, AllocError> {
    let line = described(program_line(alloc)?);
    match line.try_get_matches_from(words) {
        Ok(_) => Ok(None),
        Err(error) => match error.kind() {
            ErrorKind::OutOfMemory => Err(AllocError),
            _ => Ok(Some(text_of(alloc, &error, words)?)),
        },
    }
}
