//! Reads the data of VALUES (SPARQL 1.1 Query Language, section 19.8, [62] DataBlock).

ghost use Rattle.std.specs.Prelude.{◌≡◌, ◌<◌, ◌≤◌, map, IfOk, length};
ghost use Rattle.sparql_lexer.specs.Terminal.{terminals};
ghost use Rattle.sparql_tree.specs.GroupTree.{element_of};
ghost use Rattle.sparql_grammar.specs.Symbol as the;
ghost use Rattle.sparql_grammar.specs.Values.{Names, is_distinct};
ghost use Rattle.sparql_expression.specs.ParseResult.{Parses, seen};

use rdf_core::{Term, Text};
use sparql_expression::tokens::{accept, accept_variable, accept_word};
use sparql_expression::{ParseFault, read_term};
use sparql_grammar::Declarations;
use sparql_lexer::{Keyword, Sign, Token};
use sparql_tree::Element;
use std::alloc::{AllocError, Global};
use std::collections::BTreeSet;

/// Reads a [62] DataBlock, after VALUES.
pub fn read_data_block<'t, 'a>(
    alloc: Global,
    names: &Declarations,
    tokens: &'t [Token<'a>],
) -> Result<(Element, &'t [Token<'a>]), ParseFault>
    ensures reads { Parses names.now the.data_block (terminals tokens.now) (seen element_of result) }
    ensures shorter { IfOk result (λ p. length p.1.now < length tokens.now) }
{
    if let Some((variable, after)) = accept_variable(alloc, tokens)? {
        return read_column(alloc, names, variable, after);
    }
    let (heading, rest) = read_heading(alloc, tokens)?;
    if !is_distinct(alloc, &heading)? {
        return Err(ParseFault::Syntax);
    }
    read_rows(alloc, names, heading, rest)
}

/// Returns whether no name occurs twice.
///
/// # Errors
/// `AllocError` if an allocation fails.
fn is_distinct(alloc: Global, names: &[Text]) -> Result<bool, AllocError>
    ensures value { IfOk result (λ distinct. distinct ≡ is_distinct names.now) }
{
    let mut seen = BTreeSet::new(alloc);
    for name in names {
        if !seen.insert(name.copy(alloc)?)? {
            return Ok(false);
        }
    }
    Ok(true)
}

/// Reads the values of an [63] InlineDataOneVar.
fn read_column<'t, 'a>(
    alloc: Global,
    names: &Declarations,
    variable: Text,
    tokens: &'t [Token<'a>],
) -> Result<(Element, &'t [Token<'a>]), ParseFault>
    ensures reads { Parses names.now (the.column variable) (terminals tokens.now) (seen element_of result) }
    ensures shorter { IfOk result (λ p. length p.1.now < length tokens.now) }
{
    let Some(mut rest) = accept(tokens, Sign::OpenBrace) else {
        return Err(ParseFault::Syntax);
    };
    let mut rows = Vec::new(alloc);
    'cells: loop {
        if let Some(after) = accept(rest, Sign::CloseBrace) {
            let variables = vec![in alloc; variable]?;
            return Ok((Element::Values(variables, rows), after));
        }
        let (cell, remaining) = read_cell(alloc, names, rest)?;
        rows.push(vec![in alloc; cell]?)?;
        rest = remaining;
    }
}

/// Reads the list of the variables of an [64] InlineDataFull.
fn read_heading<'t, 'a>(
    alloc: Global,
    tokens: &'t [Token<'a>],
) -> Result<(Vec<Text>, &'t [Token<'a>]), ParseFault>
    ensures reads { (names : Names) → Parses names the.heading (terminals tokens.now) (seen (λ v. v.items) result) }
    ensures shorter { IfOk result (λ p. length p.1.now < length tokens.now) }
{
    let Some(mut rest) = accept(tokens, Sign::OpenParenthesis) else {
        return Err(ParseFault::Syntax);
    };
    let mut heading = Vec::new(alloc);
    'variables: while let Some((variable, remaining)) = accept_variable(alloc, rest)? {
        heading.push(variable)?;
        rest = remaining;
    }
    let Some(after) = accept(rest, Sign::CloseParenthesis) else {
        return Err(ParseFault::Syntax);
    };
    Ok((heading, after))
}

/// Reads the rows of an [64] InlineDataFull.
fn read_rows<'t, 'a>(
    alloc: Global,
    names: &Declarations,
    heading: Vec<Text>,
    tokens: &'t [Token<'a>],
) -> Result<(Element, &'t [Token<'a>]), ParseFault>
    ensures reads { Parses names.now (the.rows heading.items) (terminals tokens.now) (seen element_of result) }
    ensures shorter { IfOk result (λ p. length p.1.now < length tokens.now) }
{
    let Some(mut rest) = accept(tokens, Sign::OpenBrace) else {
        return Err(ParseFault::Syntax);
    };
    let mut rows = Vec::new(alloc);
    'rows: loop {
        if let Some(after) = accept(rest, Sign::CloseBrace) {
            return Ok((Element::Values(heading, rows), after));
        }
        let (row, remaining) = read_row(alloc, names, rest)?;
        if row.len() != heading.len() {
            return Err(ParseFault::Syntax);
        }
        rows.push(row)?;
        rest = remaining;
    }
}

/// Reads one row.
fn read_row<'t, 'a>(
    alloc: Global,
    names: &Declarations,
    tokens: &'t [Token<'a>],
) -> Result<(Vec<Option<Term>>, &'t [Token<'a>]), ParseFault>
    ensures reads { Parses names.now the.row (terminals tokens.now) (seen (λ v. v.items) result) }
    ensures shorter { IfOk result (λ p. length p.1.now < length tokens.now) }
{
    let Some(mut rest) = accept(tokens, Sign::OpenParenthesis) else {
        return Err(ParseFault::Syntax);
    };
    let mut cells = Vec::new(alloc);
    'cells: loop {
        if let Some(after) = accept(rest, Sign::CloseParenthesis) {
            return Ok((cells, after));
        }
        let (cell, remaining) = read_cell(alloc, names, rest)?;
        cells.push(cell)?;
        rest = remaining;
    }
}

/// Reads a [65] DataBlockValue: a term or UNDEF.
fn read_cell<'t, 'a>(
    alloc: Global,
    names: &Declarations,
    tokens: &'t [Token<'a>],
) -> Result<(Option<Term>, &'t [Token<'a>]), ParseFault>
    ensures reads { Parses names.now the.cell (terminals tokens.now) (seen (λ v. v) result) }
    ensures shorter { IfOk result (λ p. length p.1.now < length tokens.now) }
{
    if let Some(after) = accept_word(tokens, Keyword::Undef) {
        return Ok((None, after));
    }
    let (term, after) = read_term(alloc, names, tokens)?;
    Ok((Some(term), after))
}
