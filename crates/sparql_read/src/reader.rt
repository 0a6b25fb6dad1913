//! Reads the text of a query.

ghost use Rattle.std.specs.Prelude.{◌≡◌, [], false};
ghost use Rattle.std.specs.Str.{chars};
ghost use Rattle.sparql_lexer.specs.Scan.{Scans};
ghost use Rattle.sparql_lexer.specs.Terminal.{terminals};
ghost use Rattle.sparql_parse.specs.Queries.{IsQuery, select_of};
ghost use Rattle.sparql_read.specs.Depth.{is_too_deep};
ghost use Rattle.sparql_grammar.specs.Prologue.{declarations};
ghost use Rattle.sparql_read.specs.Rejection.{IsReadResult, seen};

use crate::checking::check_rules;
use crate::depth::is_too_deep;
use crate::fault::QueryFault;
use crate::prologue::declarations_of;
use crate::variables::mentioned;
use sparql_expression::ParseFault;
use sparql_grammar::{Declarations, one_query};
use sparql_lexer::{Token, characters_of, one_scan, scan_text};
use sparql_parse::{Select, parse};
use sparql_tree::Query;
use std::alloc::Global;

/// Checks the parser's result for these terminals, which are the whole text and not nested too
/// deep.
fn check_select(
    alloc: Global,
    text: &[char],
    names: &Declarations,
    tokens: &[Token<'_>],
    select: Select,
) -> Result<Query, QueryFault>
    requires scans { Scans text.now (terminals tokens.now) [] }
    requires shallow { is_too_deep (terminals tokens.now) ≡ false }
    requires names { names.now ≡ declarations (terminals tokens.now) }
    requires parsed { IsQuery names.now (terminals tokens.now) (select_of select) }
    ensures read { IsReadResult text.now (seen result) }
{
    one_scan();
    one_query();
    match check_rules(alloc, names, tokens, &select.group) {
        Ok(()) => {
            let mentioned = mentioned(alloc, tokens)?;
            let Select {
                distinct,
                selection,
                group,
                limit,
                offset,
            } = select;
            Ok(Query {
                distinct,
                selection,
                group,
                limit,
                offset,
                mentioned,
            })
        }
        Err(fault) => Err(fault),
    }
}

/// Reads the query of these terminals, which are the whole text and not nested too deep.
fn read_whole(alloc: Global, text: &[char], tokens: &[Token<'_>]) -> Result<Query, QueryFault>
    requires scans { Scans text.now (terminals tokens.now) [] }
    requires shallow { is_too_deep (terminals tokens.now) ≡ false }
    ensures read { IsReadResult text.now (seen result) }
{
    one_scan();
    let names = declarations_of(alloc, tokens)?;
    match parse(alloc, &names, tokens) {
        Ok(select) => check_select(alloc, text, &names, tokens, select),
        Err(ParseFault::Syntax) => Err(QueryFault::Syntax),
        Err(ParseFault::Memory) => Err(QueryFault::Memory),
    }
}

/// Reads the query of a text, given its terminals up to the first place where there is no terminal,
/// and the rest of the text from there.
fn read_terminals(
    alloc: Global,
    text: &[char],
    tokens: &[Token<'_>],
    rest: &[char],
) -> Result<Query, QueryFault>
    requires scans { Scans text.now (terminals tokens.now) rest.now }
    ensures read { IsReadResult text.now (seen result) }
{
    one_scan();
    if is_too_deep(tokens) {
        return Err(QueryFault::TooDeep);
    }
    if rest.is_empty() {
        read_whole(alloc, text, tokens)
    } else {
        Err(QueryFault::Syntax)
    }
}

/// Reads the text of a query (SPARQL 1.1 Query Language, section 19.8, [7] SelectQuery).
///
/// # Errors
/// - The first rule that rejects the text, in the order of [`QueryFault`].
/// - `Memory` if an allocation fails.
pub fn read_query(alloc: Global, text: &str) -> Result<Query, QueryFault>
    ensures read { IsReadResult (chars text.now) (seen result) }
{
    let characters = characters_of(alloc, text)?;
    let scan = scan_text(alloc, &characters)?;
    read_terminals(alloc, &characters, &scan.tokens, scan.rest)
}
