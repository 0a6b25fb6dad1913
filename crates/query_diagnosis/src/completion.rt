//! An end of a query for each state of the machine.

ghost use Rattle.std.specs.Prelude.{◌≡◌, ◌≤◌, length, nat_eq, IfOk, OnOk};
ghost use Rattle.query_diagnosis.specs.Symbols.{AreEnds, is_optional, may_end};

use crate::machine::Machine;
use crate::symbol::Symbol;
use sparql_lexer::{Keyword, Kind, Sign, Token};
use std::alloc::{AllocError, Global};

const OPEN: Token<'static> = Token {
    kind: Kind::Sign(Sign::OpenParenthesis),
    text: &['('],
};

const CLOSE: Token<'static> = Token {
    kind: Kind::Sign(Sign::CloseParenthesis),
    text: &[')'],
};

const OPEN_BRACE: Token<'static> = Token {
    kind: Kind::Sign(Sign::OpenBrace),
    text: &['{'],
};

const CLOSE_BRACE: Token<'static> = Token {
    kind: Kind::Sign(Sign::CloseBrace),
    text: &['}'],
};

const STAR: Token<'static> = Token {
    kind: Kind::Sign(Sign::Star),
    text: &['*'],
};

const COMMA: Token<'static> = Token {
    kind: Kind::Sign(Sign::Comma),
    text: &[','],
};

const VARIABLE: Token<'static> = Token {
    kind: Kind::Variable,
    text: &['?', 'a'],
};

const IRI: Token<'static> = Token {
    kind: Kind::IriRef,
    text: &['<', 'a', ':', '>'],
};

const PREFIX: Token<'static> = Token {
    kind: Kind::PrefixedNamespace,
    text: &['a', ':'],
};

const ONE: Token<'static> = Token {
    kind: Kind::Integer,
    text: &['1'],
};

const SELECT: Token<'static> = Token {
    kind: Kind::Keyword(Keyword::Select),
    text: &['S', 'E', 'L', 'E', 'C', 'T'],
};

const A: Token<'static> = Token {
    kind: Kind::Keyword(Keyword::A),
    text: &['a'],
};

const AS: Token<'static> = Token {
    kind: Kind::Keyword(Keyword::As),
    text: &['A', 'S'],
};

const IN: Token<'static> = Token {
    kind: Kind::Keyword(Keyword::In),
    text: &['I', 'N'],
};

const UNDEF: Token<'static> = Token {
    kind: Kind::Keyword(Keyword::Undef),
    text: &['U', 'N', 'D', 'E', 'F'],
};

/// Returns terminals that a symbol derives. They are not always the fewest, but there are none if the
/// symbol derives the empty text.
pub fn end_of(symbol: Symbol) -> &'static [Token<'static>]
    ensures empty { nat_eq (length result.now) 0 ≡ is_optional symbol }
{
    match symbol {
        Symbol::Query => &[SELECT, STAR, OPEN_BRACE, CLOSE_BRACE],
        Symbol::Namespace => &[PREFIX],
        Symbol::Reference | Symbol::Name | Symbol::GraphName => &[IRI],
        Symbol::Distinct | Symbol::Selection => &[STAR, OPEN_BRACE, CLOSE_BRACE],
        Symbol::Variables | Symbol::Where | Symbol::Group => &[OPEN_BRACE, CLOSE_BRACE],
        Symbol::Count => &[ONE],
        Symbol::Body | Symbol::AfterTriples | Symbol::AfterElement => &[CLOSE_BRACE],
        Symbol::Property => &[A, VARIABLE],
        Symbol::Object | Symbol::Variable => &[VARIABLE],
        Symbol::DataBlock => &[VARIABLE, OPEN_BRACE, CLOSE_BRACE],
        Symbol::Heading => &[CLOSE, OPEN_BRACE, CLOSE_BRACE],
        Symbol::Rows | Symbol::Column => &[CLOSE_BRACE],
        Symbol::Condition | Symbol::Bracket => &[OPEN, VARIABLE, CLOSE],
        Symbol::Expression | Symbol::Unary | Symbol::Primary => &[VARIABLE],
        Symbol::In => &[IN, OPEN, CLOSE],
        Symbol::Members => &[OPEN, CLOSE],
        Symbol::Cells | Symbol::FirstMember | Symbol::MoreMembers | Symbol::Close => &[CLOSE],
        Symbol::Open => &[OPEN],
        Symbol::OpenBrace => &[OPEN_BRACE],
        Symbol::Comma => &[COMMA],
        Symbol::As => &[AS],
        Symbol::Modifiers
        | Symbol::MoreLimit
        | Symbol::MoreOffset
        | Symbol::MoreUnion
        | Symbol::MoreObjects
        | Symbol::MoreProperties
        | Symbol::AfterSemicolon
        | Symbol::LiteralTail
        | Symbol::MoreRelation
        | Symbol::MoreLogic => &[],
    }
}

/// Appends the values that a row of VALUES lacks.
fn push_cells(end: &mut Vec<Token<'static>>, machine: &Machine) -> Result<(), AllocError>
    ensures more { OnOk result (length end.old.items ≤ length end.new.items) }
{
    'cells: for _ in machine.cells..machine.width {
        end.push(UNDEF)?;
    }
    Ok(())
}

/// Appends terminals that a symbol of the machine derives.
fn push_end(
    end: &mut Vec<Token<'static>>,
    machine: &Machine,
    symbol: Symbol,
) -> Result<(), AllocError>
    ensures ends { OnOk result (AreEnds (is_optional symbol) end.old.items end.new.items) }
{
    if matches!(symbol, Symbol::Cells) {
        push_cells(end, machine)?;
        end.push(CLOSE)?;
        return Ok(());
    }
    end.extend_from_slice(end_of(symbol))
}

/// Appends terminals that the symbols of the machine derive.
fn push_ends(end: &mut Vec<Token<'static>>, machine: &Machine) -> Result<(), AllocError>
    ensures ends { OnOk result
        (AreEnds (may_end machine.now.stack.items) end.old.items end.new.items) }
{
    let stack: &[Symbol] = &machine.stack;
    let mut place = stack.len();
    while place > 0 {
        place -= 1;
        push_end(end, machine, stack[place])?;
    }
    Ok(())
}

/// Returns terminals that complete a query, given the state of the machine after its beginning. There are none if the
/// query may end there.
///
/// # Errors
/// `AllocError` if an allocation fails.
pub fn completion(alloc: Global, machine: &Machine) -> Result<Vec<Token<'static>>, AllocError>
    ensures empty { IfOk result
        (λ end. nat_eq (length end.items) 0 ≡ may_end machine.now.stack.items) }
{
    let mut end: Vec<Token<'static>> = Vec::new(alloc);
    push_ends(&mut end, machine)?;
    Ok(end)
}
