//! Reads expressions, with a function for each production.
//!
//! `names` are the prefix declarations of the text. Each reader returns the tree of a text of its
//! production at the start of the tokens, and the tokens after it. It fails with `Syntax` if the
//! tokens do not begin with a text of the production, and with `Memory` if an allocation fails.

ghost use Rattle.std.specs.Prelude.{◌≡◌, ◌<◌, IfOk, length};
ghost use Rattle.sparql_lexer.specs.Terminal.{terminals};
ghost use Rattle.sparql_tree.specs.ExpressionTree.{expression_of, expressions_of};
ghost use Rattle.sparql_grammar.specs.Follow.{heads, is_call};
ghost use Rattle.sparql_grammar.specs.Symbol as the;
ghost use Rattle.sparql_grammar.specs.Values.{Names};
ghost use Rattle.sparql_expression.specs.ParseResult.{Parses, seen};

use crate::fault::ParseFault;
use crate::terms::read_term;
use crate::tokens::classes::{accept_comparison, accept_function, accept_variable};
use crate::tokens::front::{accept, accept_word, next};
use sparql_grammar::Declarations;
use sparql_lexer::{Keyword, Kind, Sign, Token};
use sparql_tree::Expression;
use std::alloc::{AllocError, Global};

/// Moves two expressions into boxes.
fn boxed_pair(
    alloc: Global,
    left: Expression,
    right: Expression,
) -> Result<(Box<Expression>, Box<Expression>), AllocError>
    ensures left { IfOk result (λ p. p.0.value ≡ left) }
    ensures right { IfOk result (λ p. p.1.value ≡ right) }
{
    Ok((Box::new(alloc, left)?, Box::new(alloc, right)?))
}

/// Reads a whole expression ([111] ConditionalOrExpression): conjunctions, and `||` between them.
///
/// `names` are the prefix declarations of the text.
///
/// # Errors
/// - `Syntax` if the tokens do not begin with an expression.
/// - `Memory` if an allocation fails.
#[cycle(expression)]
pub fn read_disjunction<'t, 'a>(
    alloc: Global,
    names: &Declarations,
    tokens: &'t [Token<'a>],
) -> Result<(Expression, &'t [Token<'a>]), ParseFault>
    ensures reads { Parses names.now the.disjunction (terminals tokens.now) (seen expression_of result) }
    ensures shorter { IfOk result (λ p. length p.1.now < length tokens.now) }
{
    let (mut left, mut rest) = read_conjunction(alloc, names, tokens)?;
    'parts: while let Some(after) = accept(rest, Sign::Or) {
        let (right, remaining) = read_conjunction(alloc, names, after)?;
        let (one, other) = boxed_pair(alloc, left, right)?;
        left = Expression::Or(one, other);
        rest = remaining;
    }
    Ok((left, rest))
}

/// Reads a [112] ConditionalAndExpression.
#[cycle(expression)]
fn read_conjunction<'t, 'a>(
    alloc: Global,
    names: &Declarations,
    tokens: &'t [Token<'a>],
) -> Result<(Expression, &'t [Token<'a>]), ParseFault>
    ensures reads { Parses names.now the.conjunction (terminals tokens.now) (seen expression_of result) }
    ensures shorter { IfOk result (λ p. length p.1.now < length tokens.now) }
{
    let (mut left, mut rest) = read_relation(alloc, names, tokens)?;
    'parts: while let Some(after) = accept(rest, Sign::And) {
        let (right, remaining) = read_relation(alloc, names, after)?;
        let (one, other) = boxed_pair(alloc, left, right)?;
        left = Expression::And(one, other);
        rest = remaining;
    }
    Ok((left, rest))
}

/// Reads a [114] RelationalExpression.
#[cycle(expression)]
fn read_relation<'t, 'a>(
    alloc: Global,
    names: &Declarations,
    tokens: &'t [Token<'a>],
) -> Result<(Expression, &'t [Token<'a>]), ParseFault>
    ensures reads { Parses names.now the.relation (terminals tokens.now) (seen expression_of result) }
    ensures shorter { IfOk result (λ p. length p.1.now < length tokens.now) }
{
    let (left, rest) = read_unary(alloc, names, tokens)?;
    if let Some((op, after)) = accept_comparison(rest) {
        let (right, remaining) = read_unary(alloc, names, after)?;
        let (one, other) = boxed_pair(alloc, left, right)?;
        return Ok((Expression::Compare(op, one, other), remaining));
    }
    if let Some(after) = accept_word(rest, Keyword::In) {
        let (members, remaining) = read_members(alloc, names, after)?;
        return Ok((Expression::In(Box::new(alloc, left)?, members), remaining));
    }
    let Some(denied) = accept_word(rest, Keyword::Not) else {
        return Ok((left, rest));
    };
    let Some(after) = accept_word(denied, Keyword::In) else {
        return Err(ParseFault::Syntax);
    };
    let (members, remaining) = read_members(alloc, names, after)?;
    let inner = Expression::In(Box::new(alloc, left)?, members);
    Ok((Expression::Not(Box::new(alloc, inner)?), remaining))
}

/// Reads a [118] UnaryExpression.
#[cycle(expression)]
fn read_unary<'t, 'a>(
    alloc: Global,
    names: &Declarations,
    tokens: &'t [Token<'a>],
) -> Result<(Expression, &'t [Token<'a>]), ParseFault>
    ensures reads { Parses names.now the.unary (terminals tokens.now) (seen expression_of result) }
    ensures shorter { IfOk result (λ p. length p.1.now < length tokens.now) }
{
    let Some(after) = accept(tokens, Sign::Not) else {
        return read_primary(alloc, names, tokens);
    };
    let (inner, remaining) = read_primary(alloc, names, after)?;
    Ok((Expression::Not(Box::new(alloc, inner)?), remaining))
}

fn is_call(kind: Kind) -> bool
    ensures { result ≡ is_call kind }
{
    match kind {
        Kind::Keyword(word) => matches!(
            word,
            Keyword::Str
                | Keyword::Lang
                | Keyword::Datatype
                | Keyword::IsIri
                | Keyword::IsBlank
                | Keyword::IsLiteral
                | Keyword::Bound
                | Keyword::SameTerm
        ),
        _ => false,
    }
}

/// Returns whether the first token can begin a [121] BuiltInCall.
pub fn is_call_next(tokens: &[Token]) -> bool
    ensures { result ≡ heads is_call (terminals tokens.now) }
{
    match next(tokens) {
        Some((kind, _, _)) => is_call(kind),
        None => false,
    }
}

/// Reads a [119] PrimaryExpression.
#[cycle(expression)]
fn read_primary<'t, 'a>(
    alloc: Global,
    names: &Declarations,
    tokens: &'t [Token<'a>],
) -> Result<(Expression, &'t [Token<'a>]), ParseFault>
    ensures reads { Parses names.now the.primary (terminals tokens.now) (seen expression_of result) }
    ensures shorter { IfOk result (λ p. length p.1.now < length tokens.now) }
{
    if let Some(_after) = accept(tokens, Sign::OpenParenthesis) {
        return read_bracket(alloc, names, tokens);
    }
    if is_call_next(tokens) {
        return read_call(alloc, names, tokens);
    }
    if let Some((name, after)) = accept_variable(alloc, tokens)? {
        return Ok((Expression::Variable(name), after));
    }
    let (term, rest) = read_term(alloc, names, tokens)?;
    Ok((Expression::Constant(term), rest))
}

/// Reads a [120] BrackettedExpression, an expression in parentheses.
///
/// # Errors
/// - `Syntax` if the tokens do not begin with one.
/// - `Memory` if an allocation fails.
#[cycle(expression)]
pub fn read_bracket<'t, 'a>(
    alloc: Global,
    names: &Declarations,
    tokens: &'t [Token<'a>],
) -> Result<(Expression, &'t [Token<'a>]), ParseFault>
    ensures reads { Parses names.now the.bracket (terminals tokens.now) (seen expression_of result) }
    ensures shorter { IfOk result (λ p. length p.1.now < length tokens.now) }
{
    let Some(after) = accept(tokens, Sign::OpenParenthesis) else {
        return Err(ParseFault::Syntax);
    };
    let (inner, rest) = read_disjunction(alloc, names, after)?;
    let Some(remaining) = accept(rest, Sign::CloseParenthesis) else {
        return Err(ParseFault::Syntax);
    };
    Ok((inner, remaining))
}

/// Reads a [121] BuiltInCall, a call of a function.
///
/// # Errors
/// - `Syntax` if the tokens do not begin with one.
/// - `Memory` if an allocation fails.
#[cycle(expression)]
pub fn read_call<'t, 'a>(
    alloc: Global,
    names: &Declarations,
    tokens: &'t [Token<'a>],
) -> Result<(Expression, &'t [Token<'a>]), ParseFault>
    ensures reads { Parses names.now the.call (terminals tokens.now) (seen expression_of result) }
    ensures shorter { IfOk result (λ p. length p.1.now < length tokens.now) }
{
    if let Some((function, after)) = accept_function(tokens) {
        let (argument, rest) = read_bracket(alloc, names, after)?;
        let argument = Box::new(alloc, argument)?;
        return Ok((Expression::Call(function, argument), rest));
    }
    if let Some(after) = accept_word(tokens, Keyword::Bound) {
        return read_bound(alloc, after);
    }
    let Some(after) = accept_word(tokens, Keyword::SameTerm) else {
        return Err(ParseFault::Syntax);
    };
    read_same_term(alloc, names, after)
}

/// Reads a variable in parentheses, after `BOUND`.
fn read_bound<'t, 'a>(
    alloc: Global,
    tokens: &'t [Token<'a>],
) -> Result<(Expression, &'t [Token<'a>]), ParseFault>
    ensures reads { (names : Names) → Parses names the.bound (terminals tokens.now) (seen expression_of result) }
    ensures shorter { IfOk result (λ p. length p.1.now < length tokens.now) }
{
    let Some(after) = accept(tokens, Sign::OpenParenthesis) else {
        return Err(ParseFault::Syntax);
    };
    let Some((name, rest)) = accept_variable(alloc, after)? else {
        return Err(ParseFault::Syntax);
    };
    let Some(remaining) = accept(rest, Sign::CloseParenthesis) else {
        return Err(ParseFault::Syntax);
    };
    Ok((Expression::Bound(name), remaining))
}

/// Reads two expressions in parentheses, after `sameTerm`.
#[cycle(expression)]
fn read_same_term<'t, 'a>(
    alloc: Global,
    names: &Declarations,
    tokens: &'t [Token<'a>],
) -> Result<(Expression, &'t [Token<'a>]), ParseFault>
    ensures reads { Parses names.now the.same_term (terminals tokens.now) (seen expression_of result) }
    ensures shorter { IfOk result (λ p. length p.1.now < length tokens.now) }
{
    let Some(after) = accept(tokens, Sign::OpenParenthesis) else {
        return Err(ParseFault::Syntax);
    };
    let (left, middle) = read_disjunction(alloc, names, after)?;
    let Some(second) = accept(middle, Sign::Comma) else {
        return Err(ParseFault::Syntax);
    };
    let (right, rest) = read_disjunction(alloc, names, second)?;
    let Some(remaining) = accept(rest, Sign::CloseParenthesis) else {
        return Err(ParseFault::Syntax);
    };
    let (one, other) = boxed_pair(alloc, left, right)?;
    Ok((Expression::SameTerm(one, other), remaining))
}

/// Reads the [72] ExpressionList of `IN`.
#[cycle(expression)]
fn read_members<'t, 'a>(
    alloc: Global,
    names: &Declarations,
    tokens: &'t [Token<'a>],
) -> Result<(Vec<Expression>, &'t [Token<'a>]), ParseFault>
    ensures reads { Parses names.now the.members (terminals tokens.now) (seen (λ es. expressions_of es.items) result) }
    ensures shorter { IfOk result (λ p. length p.1.now < length tokens.now) }
{
    let Some(mut rest) = accept(tokens, Sign::OpenParenthesis) else {
        return Err(ParseFault::Syntax);
    };
    let mut members = Vec::new(alloc);
    if let Some(remaining) = accept(rest, Sign::CloseParenthesis) {
        return Ok((members, remaining));
    }
    'members: loop {
        let (member, end) = read_disjunction(alloc, names, rest)?;
        members.push(member)?;
        let Some(after) = accept(end, Sign::Comma) else {
            let Some(remaining) = accept(end, Sign::CloseParenthesis) else {
                return Err(ParseFault::Syntax);
            };
            return Ok((members, remaining));
        };
        rest = after;
    }
}
