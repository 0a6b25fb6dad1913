//! Reads groups of patterns (SPARQL 1.1 Query Language, section 19.8, [53] GroupGraphPattern).

ghost use Rattle.std.specs.Prelude.{◌≡◌, ◌<◌, ◌≤◌, IfOk, length};
ghost use Rattle.sparql_lexer.specs.Terminal.{terminals};
ghost use Rattle.sparql_tree.specs.ExpressionTree.{expression_of};
ghost use Rattle.sparql_tree.specs.GroupTree.{element_of, group_of};
ghost use Rattle.sparql_grammar.specs.Symbol as the;
ghost use Rattle.sparql_expression.specs.ParseResult.{Parses, seen};
ghost use Rattle.sparql_parse.specs.Groups.{IsAfterDot, ParsesElementRun};

use crate::data_block::read_data_block;
use crate::triples::{read_triples, starts_place};
use sparql_expression::tokens::{accept, accept_name, accept_variable, accept_word};
use sparql_expression::{ParseFault, read_bracket, read_call, read_disjunction};
use sparql_grammar::Declarations;
use sparql_lexer::{Keyword, Sign, Token};
use sparql_tree::{Element, Expression, VarOrIri};
use std::alloc::Global;

/// Reads a [53] GroupGraphPattern. Returns its elements and the tokens after it.
#[cycle(group)]
pub fn read_group<'t, 'a>(
    alloc: Global,
    names: &Declarations,
    tokens: &'t [Token<'a>],
) -> Result<(Vec<Element>, &'t [Token<'a>]), ParseFault>
    ensures reads { Parses names.now the.group (terminals tokens.now) (seen (λ v. group_of v.items) result) }
    ensures shorter { IfOk result (λ p. length p.1.now < length tokens.now) }
{
    let Some(inside) = accept(tokens, Sign::OpenBrace) else {
        return Err(ParseFault::Syntax);
    };
    let mut elements = Vec::new(alloc);
    let mut rest = read_run(alloc, names, &mut elements, inside)?;
    'elements: loop {
        if let Some(remaining) = accept(rest, Sign::CloseBrace) {
            return Ok((elements, remaining));
        }
        let (element, remaining) = read_other(alloc, names, rest)?;
        elements.push(element)?;
        rest = read_run(alloc, names, &mut elements, skip_dot(remaining))?;
    }
}

/// Reads a [55] TriplesBlock if the tokens begin with one, and appends its triples to the elements.
fn read_run<'t, 'a>(
    alloc: Global,
    names: &Declarations,
    elements: &mut Vec<Element>,
    tokens: &'t [Token<'a>],
) -> Result<&'t [Token<'a>], ParseFault>
    ensures reads { ParsesElementRun names.now (group_of elements.old.items) (group_of elements.new.items) (terminals tokens.now) result }
    ensures shorter { IfOk result (λ rest. length rest.now ≤ length tokens.now) }
{
    if !starts_place(tokens) {
        return Ok(tokens);
    }
    let mut triples = Vec::new(alloc);
    let rest = read_triples(alloc, names, &mut triples, tokens)?;
    elements.push(Element::Triples(triples))?;
    Ok(rest)
}

/// Returns the tokens after a dot, or all tokens if the first is not a dot.
fn skip_dot<'t, 'a>(tokens: &'t [Token<'a>]) -> &'t [Token<'a>]
    ensures reads { IsAfterDot (terminals tokens.now) (terminals result.now) }
    ensures shorter { length result.now ≤ length tokens.now }
{
    let Some(after) = accept(tokens, Sign::Dot) else {
        return tokens;
    };
    after
}

/// Reads a [56] GraphPatternNotTriples, an element other than triples.
#[cycle(group)]
fn read_other<'t, 'a>(
    alloc: Global,
    names: &Declarations,
    tokens: &'t [Token<'a>],
) -> Result<(Element, &'t [Token<'a>]), ParseFault>
    ensures reads { Parses names.now the.other (terminals tokens.now) (seen element_of result) }
    ensures shorter { IfOk result (λ p. length p.1.now < length tokens.now) }
{
    if let Some(after) = accept_word(tokens, Keyword::Optional) {
        let (inner, remaining) = read_group(alloc, names, after)?;
        return Ok((Element::Optional(inner), remaining));
    }
    if let Some(after) = accept_word(tokens, Keyword::Minus) {
        let (inner, remaining) = read_group(alloc, names, after)?;
        return Ok((Element::Minus(inner), remaining));
    }
    if let Some(after) = accept_word(tokens, Keyword::Graph) {
        return read_named_graph(alloc, names, after);
    }
    if let Some(_inside) = accept(tokens, Sign::OpenBrace) {
        return read_unions(alloc, names, tokens);
    }
    read_simple(alloc, names, tokens)
}

/// Reads a [67] GroupOrUnionGraphPattern: groups, and UNION between them.
#[cycle(group)]
fn read_unions<'t, 'a>(
    alloc: Global,
    names: &Declarations,
    tokens: &'t [Token<'a>],
) -> Result<(Element, &'t [Token<'a>]), ParseFault>
    ensures reads { Parses names.now the.unions (terminals tokens.now) (seen element_of result) }
    ensures shorter { IfOk result (λ p. length p.1.now < length tokens.now) }
{
    let (first, mut rest) = read_group(alloc, names, tokens)?;
    let mut left = Element::Group(first);
    'groups: while let Some(after) = accept_word(rest, Keyword::Union) {
        let (right, remaining) = read_group(alloc, names, after)?;
        left = Element::Union(Box::new(alloc, left)?, right);
        rest = remaining;
    }
    Ok((left, rest))
}

/// Reads the name and the group of a [58] GraphGraphPattern, after GRAPH.
#[cycle(group)]
fn read_named_graph<'t, 'a>(
    alloc: Global,
    names: &Declarations,
    tokens: &'t [Token<'a>],
) -> Result<(Element, &'t [Token<'a>]), ParseFault>
    ensures reads { Parses names.now the.named_graph (terminals tokens.now) (seen element_of result) }
    ensures shorter { IfOk result (λ p. length p.1.now < length tokens.now) }
{
    let (name, rest) = read_graph_name(alloc, names, tokens)?;
    let (inner, remaining) = read_group(alloc, names, rest)?;
    Ok((Element::Graph(name, inner), remaining))
}

/// Reads a [107] VarOrIri.
fn read_graph_name<'t, 'a>(
    alloc: Global,
    names: &Declarations,
    tokens: &'t [Token<'a>],
) -> Result<(VarOrIri, &'t [Token<'a>]), ParseFault>
    ensures reads { Parses names.now the.graph_name (terminals tokens.now) (seen (λ v. v) result) }
    ensures shorter { IfOk result (λ p. length p.1.now < length tokens.now) }
{
    if let Some((name, after)) = accept_variable(alloc, tokens)? {
        return Ok((VarOrIri::Variable(name), after));
    }
    let Some((iri, after)) = accept_name(alloc, names, tokens)? else {
        return Err(ParseFault::Syntax);
    };
    Ok((VarOrIri::Iri(iri), after))
}

/// Reads a [68] Filter, [60] Bind or [61] InlineData.
fn read_simple<'t, 'a>(
    alloc: Global,
    names: &Declarations,
    tokens: &'t [Token<'a>],
) -> Result<(Element, &'t [Token<'a>]), ParseFault>
    ensures reads { Parses names.now the.simple (terminals tokens.now) (seen element_of result) }
    ensures shorter { IfOk result (λ p. length p.1.now < length tokens.now) }
{
    if let Some(after) = accept_word(tokens, Keyword::Filter) {
        let (condition, remaining) = read_condition(alloc, names, after)?;
        return Ok((Element::Filter(condition), remaining));
    }
    if let Some(after) = accept_word(tokens, Keyword::Bind) {
        return read_binding(alloc, names, after);
    }
    let Some(after) = accept_word(tokens, Keyword::Values) else {
        return Err(ParseFault::Syntax);
    };
    read_data_block(alloc, names, after)
}

/// Reads a [69] Constraint: an expression in parentheses, or a call.
fn read_condition<'t, 'a>(
    alloc: Global,
    names: &Declarations,
    tokens: &'t [Token<'a>],
) -> Result<(Expression, &'t [Token<'a>]), ParseFault>
    ensures reads { Parses names.now the.condition (terminals tokens.now) (seen expression_of result) }
    ensures shorter { IfOk result (λ p. length p.1.now < length tokens.now) }
{
    if let Some(_inside) = accept(tokens, Sign::OpenParenthesis) {
        return read_bracket(alloc, names, tokens);
    }
    read_call(alloc, names, tokens)
}

/// Reads the rest of a [60] Bind, after BIND.
fn read_binding<'t, 'a>(
    alloc: Global,
    names: &Declarations,
    tokens: &'t [Token<'a>],
) -> Result<(Element, &'t [Token<'a>]), ParseFault>
    ensures reads { Parses names.now the.binding (terminals tokens.now) (seen element_of result) }
    ensures shorter { IfOk result (λ p. length p.1.now < length tokens.now) }
{
    let Some(inside) = accept(tokens, Sign::OpenParenthesis) else {
        return Err(ParseFault::Syntax);
    };
    let (value, rest) = read_disjunction(alloc, names, inside)?;
    let Some(after) = accept_word(rest, Keyword::As) else {
        return Err(ParseFault::Syntax);
    };
    let Some((variable, remaining)) = accept_variable(alloc, after)? else {
        return Err(ParseFault::Syntax);
    };
    let Some(end) = accept(remaining, Sign::CloseParenthesis) else {
        return Err(ParseFault::Syntax);
    };
    Ok((Element::Bind(value, variable), end))
}
