//! The command lines of the program, with their help.
ghost use Rattle.std.specs.Prelude.{◌≡◌, IfOk, codes, false};
ghost use Rattle.clap.specs.Words.{app_of, new_app, rule_of, with_subcommand};
ghost use Rattle.clap.specs.declared.builder.command.Command.TheViews.{out-Command as fields_of};
ghost use Rattle.spq_command.specs.Program.{number_option, program, query_option, reading_options, select_options, with_options};

use crate::texts::{ABOUT_CHECK, ABOUT_SELECT, ABOUT_TERMS, AFTER};
use clap::builder::ValueParser;
use clap::{Arg, Command};
use std::alloc::{AllocError, Global};

/// The largest number of workers. `WORKERS` is the default.
pub(crate) const MOST_WORKERS: u64 = 64;

pub(crate) const WORKERS: u64 = 4;

/// The largest value of `--piece`, the smallest size of a block in bytes. `BYTES` is the default.
pub(crate) const MOST_BYTES: u64 = 1 << 30;

pub(crate) const BYTES: u64 = 65536;

/// The largest number of rows of a task. `ROWS` is the default.
pub(crate) const MOST_ROWS: u64 = 1 << 30;

pub(crate) const ROWS: u64 = 1024;

/// Makes an argument whose value is a number from 1 to `most`. The help calls the value `value`.
fn number<'a>(alloc: Global, name: &'a str, most: u64, value: &'a str, help: &'a str) -> Arg<'a>
    ensures rule { rule_of result ≡ number_option name.entry.now most }
    ensures local { result.global ≡ false }
{
    Arg::new(alloc, name)
        .long(name)
        .value_name(value)
        .value_parser(ValueParser::Unsigned(1, most))
        .help(help)
}

/// Makes the argument whose value is the text of the query.
fn query<'a>(alloc: Global) -> Arg<'a>
    ensures rule { rule_of result ≡ query_option }
    ensures local { result.global ≡ false }
{
    Arg::new(alloc, "query")
        .long("query")
        .value_name("TEXT")
        .required(true)
        .help("The text of the query")
}

/// Makes a subcommand without arguments.
fn described<'a>(alloc: Global, name: &'a str, about: &'a str) -> Command<'a>
    ensures app { app_of result ≡ new_app name.entry.now }
    ensures local { (fields_of result).has_globals ≡ false }
{
    Command::new(alloc, name).about(about).after_help(AFTER)
}

/// Makes a subcommand with the arguments for how a document is read.
fn reading_line<'a>(alloc: Global, name: &'a str, about: &'a str) -> Result<Command<'a>, AllocError>
    ensures app { IfOk result (λ line. app_of line ≡ with_options name.entry.now reading_options) }
    ensures local { IfOk result (λ line. (fields_of line).has_globals ≡ false) }
{
    described(alloc, name, about)
        .arg(number(
            alloc,
            "workers",
            MOST_WORKERS,
            "N",
            "Worker threads, 1 to 64 [default: 4]",
        ))?
        .arg(number(
            alloc,
            "piece",
            MOST_BYTES,
            "BYTES",
            "Least size of a block of input, 1 to 1073741824 [default: 65536]",
        ))
}

/// Makes the subcommand `select`.
fn select_line<'a>(alloc: Global) -> Result<Command<'a>, AllocError>
    ensures app { IfOk result (λ line. app_of line ≡ with_options (codes "select") select_options) }
    ensures local { IfOk result (λ line. (fields_of line).has_globals ≡ false) }
{
    reading_line(alloc, "select", ABOUT_SELECT)?
        .arg(query(alloc))?
        .arg(number(
            alloc,
            "rows",
            MOST_ROWS,
            "N",
            "Most rows of a task, 1 to 1073741824 [default: 1024]",
        ))
}

/// Adds a subcommand with the arguments for how a document is read.
///
/// If an allocation fails, a call drops the line: the drop that `?` writes out is longer than this function.
fn add_reading<'a>(
    alloc: Global,
    line: Command<'a>,
    name: &'a str,
    about: &'a str,
) -> Result<Command<'a>, AllocError>
    ensures app { IfOk result (λ with. app_of with
        ≡ with_subcommand (app_of line.entry) (with_options name.entry.now reading_options).top) }
{
    match reading_line(alloc, name, about) {
        Ok(reading) => line.subcommand(reading),
        Err(failed) => {
            drop(line);
            Err(failed)
        }
    }
}

/// Makes the command line of the program.
pub(crate) fn program_line<'a>(alloc: Global) -> Result<Command<'a>, AllocError>
    ensures app { IfOk result (λ line. app_of line ≡ program) }
{
    let select = select_line(alloc)?;
    let line = Command::new(alloc, "spq")
        .subcommand_required(true)
        .subcommand(select)?;
    let line = add_reading(alloc, line, "check", ABOUT_CHECK)?;
    add_reading(alloc, line, "terms", ABOUT_TERMS)
}
