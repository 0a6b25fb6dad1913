//! Reads a query (SPARQL 1.1 Query Language, section 19.8, [1] QueryUnit).

ghost use Rattle.std.specs.Prelude.{◌≡◌, ◌<◌, ◌≤◌, List, [], IfOk, length, Some};
ghost use Rattle.sparql_lexer.specs.Terminal.{terminals};
ghost use Rattle.sparql_grammar.specs.Values.{Names};
ghost use Rattle.sparql_grammar.specs.Symbol as the;
ghost use Rattle.sparql_expression.specs.ParseResult.{Parses, seen};
ghost use Rattle.sparql_tree.specs.QueryTree.{selection_of};
ghost use Rattle.sparql_parse.specs.Queries.{IsParsed, ParsesDeclaration, select_of};

use crate::group::read_group;
use crate::select::Select;
use sparql_expression::ParseFault;
use sparql_expression::tokens::{
    accept, accept_count, accept_namespace, accept_reference, accept_variable, accept_word,
};
use sparql_grammar::Declarations;
use sparql_lexer::{Keyword, Sign, Token};
use sparql_tree::Selection;
use std::alloc::Global;

/// Reads a query from all of its terminals. `names` are the prefix declarations of the text.
///
/// # Errors
/// - `Syntax` if the tokens are not a query.
/// - `Memory` if an allocation fails.
pub fn parse(alloc: Global, names: &Declarations, tokens: &[Token]) -> Result<Select, ParseFault>
    ensures query { IsParsed names.now (terminals tokens.now) result }
{
    let (query, rest) = read_query(alloc, names, tokens)?;
    if rest.is_empty() {
        Ok(query)
    } else {
        Err(ParseFault::Syntax)
    }
}

/// Reads a [2] Query with its declarations. `names` already holds these declarations.
fn read_query<'t, 'a>(
    alloc: Global,
    names: &Declarations,
    tokens: &'t [Token<'a>],
) -> Result<(Select, &'t [Token<'a>]), ParseFault>
    ensures reads { Parses names.now the.query (terminals tokens.now) (seen select_of result) }
{
    let Some(first) = accept_word(tokens, Keyword::Prefix) else {
        return read_select_query(alloc, names, tokens);
    };
    let mut rest = read_declaration(alloc, first)?;
    'declarations: while let Some(after) = accept_word(rest, Keyword::Prefix) {
        rest = read_declaration(alloc, after)?;
    }
    read_select_query(alloc, names, rest)
}

/// Reads the rest of a [6] PrefixDecl, after PREFIX.
fn read_declaration<'t, 'a>(
    alloc: Global,
    tokens: &'t [Token<'a>],
) -> Result<&'t [Token<'a>], ParseFault>
    ensures reads { (names : Names) → ParsesDeclaration names (terminals tokens.now) result }
    ensures shorter { IfOk result (λ rest. length rest.now < length tokens.now) }
{
    let Some(after) = accept_namespace(tokens) else {
        return Err(ParseFault::Syntax);
    };
    let Some((_iri, rest)) = accept_reference(alloc, after)? else {
        return Err(ParseFault::Syntax);
    };
    Ok(rest)
}

/// Reads a [7] SelectQuery, after the declarations.
fn read_select_query<'t, 'a>(
    alloc: Global,
    names: &Declarations,
    tokens: &'t [Token<'a>],
) -> Result<(Select, &'t [Token<'a>]), ParseFault>
    ensures reads { Parses names.now the.select_query (terminals tokens.now) (seen select_of result) }
{
    let Some(after) = accept_word(tokens, Keyword::Select) else {
        return Err(ParseFault::Syntax);
    };
    let Some(remaining) = accept_word(after, Keyword::Distinct) else {
        return read_selected(alloc, names, false, after);
    };
    read_selected(alloc, names, true, remaining)
}

/// Reads a query after SELECT and DISTINCT.
fn read_selected<'t, 'a>(
    alloc: Global,
    names: &Declarations,
    distinct: bool,
    tokens: &'t [Token<'a>],
) -> Result<(Select, &'t [Token<'a>]), ParseFault>
    ensures reads { Parses names.now (the.select distinct) (terminals tokens.now) (seen select_of result) }
{
    if let Some(after) = accept(tokens, Sign::Star) {
        return read_pattern(alloc, names, distinct, Selection::All, after);
    }
    let Some((first, mut rest)) = accept_variable(alloc, tokens)? else {
        return Err(ParseFault::Syntax);
    };
    let mut variables = vec![in alloc; first]?;
    'variables: while let Some((variable, remaining)) = accept_variable(alloc, rest)? {
        variables.push(variable)?;
        rest = remaining;
    }
    read_pattern(
        alloc,
        names,
        distinct,
        Selection::Variables(variables),
        rest,
    )
}

/// Reads a query after its [9] SelectClause.
fn read_pattern<'t, 'a>(
    alloc: Global,
    names: &Declarations,
    distinct: bool,
    selection: Selection,
    tokens: &'t [Token<'a>],
) -> Result<(Select, &'t [Token<'a>]), ParseFault>
    ensures reads { Parses names.now (the.pattern distinct (selection_of selection)) (terminals tokens.now) (seen select_of result) }
{
    let Some(after) = accept_word(tokens, Keyword::Where) else {
        return read_pattern_group(alloc, names, distinct, selection, tokens);
    };
    read_pattern_group(alloc, names, distinct, selection, after)
}

/// Reads a query after WHERE: its [53] GroupGraphPattern and its [18] SolutionModifier.
fn read_pattern_group<'t, 'a>(
    alloc: Global,
    names: &Declarations,
    distinct: bool,
    selection: Selection,
    tokens: &'t [Token<'a>],
) -> Result<(Select, &'t [Token<'a>]), ParseFault>
    ensures reads { Parses names.now (the.pattern_group distinct (selection_of selection)) (terminals tokens.now) (seen select_of result) }
{
    let (group, remaining) = read_group(alloc, names, tokens)?;
    let ((limit, offset), rest) = read_modifiers(remaining)?;
    let query = Select {
        distinct,
        selection,
        group,
        limit,
        offset,
    };
    Ok((query, rest))
}

/// Reads the [25] LimitOffsetClauses, if there are any: LIMIT and OFFSET in either order.
fn read_modifiers<'t, 'a>(
    tokens: &'t [Token<'a>],
) -> Result<((Option<u64>, Option<u64>), &'t [Token<'a>]), ParseFault>
    ensures reads { (names : Names) → Parses names the.modifiers (terminals tokens.now) (seen (λ v. v) result) }
{
    if let Some(after) = accept_word(tokens, Keyword::Limit) {
        let Some((limit, remaining)) = accept_count(after) else {
            return Err(ParseFault::Syntax);
        };
        return read_offset(limit, remaining);
    }
    let Some(after) = accept_word(tokens, Keyword::Offset) else {
        return Ok(((None, None), tokens));
    };
    let Some((offset, remaining)) = accept_count(after) else {
        return Err(ParseFault::Syntax);
    };
    read_limit(offset, remaining)
}

/// Reads the [27] OffsetClause after a [26] LimitClause, if there is one. `limit` is the number of
/// LIMIT.
fn read_offset<'t, 'a>(
    limit: u64,
    tokens: &'t [Token<'a>],
) -> Result<((Option<u64>, Option<u64>), &'t [Token<'a>]), ParseFault>
    ensures reads { (names : Names) → Parses names (the.after_limit limit) (terminals tokens.now) (seen (λ v. v) result) }
{
    let Some(after_offset) = accept_word(tokens, Keyword::Offset) else {
        return Ok(((Some(limit), None), tokens));
    };
    let Some((offset, rest)) = accept_count(after_offset) else {
        return Err(ParseFault::Syntax);
    };
    Ok(((Some(limit), Some(offset)), rest))
}

/// Reads the [26] LimitClause after an [27] OffsetClause, if there is one. `offset` is the number of
/// OFFSET.
fn read_limit<'t, 'a>(
    offset: u64,
    tokens: &'t [Token<'a>],
) -> Result<((Option<u64>, Option<u64>), &'t [Token<'a>]), ParseFault>
    ensures reads { (names : Names) → Parses names (the.after_offset offset) (terminals tokens.now) (seen (λ v. v) result) }
{
    let Some(after_limit) = accept_word(tokens, Keyword::Limit) else {
        return Ok(((None, Some(offset)), tokens));
    };
    let Some((limit, rest)) = accept_count(after_limit) else {
        return Err(ParseFault::Syntax);
    };
    Ok(((Some(limit), Some(offset)), rest))
}
