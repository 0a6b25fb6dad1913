//! A machine that reads terminals up to the first after which no query continues.

ghost use Rattle.std.specs.Prelude.{◌≡◌, ◌≢◌, ◌≤◌, ℕ, length, drop, take, true, IfOk, IfSome, MatchBool};
ghost use Rattle.sparql_lexer.specs.Terminal.{terminals};
ghost use Rattle.query_diagnosis.specs.QueryPrefix.{IsQueryPrefix, IsSomeQuery};
ghost use Rattle.query_diagnosis.specs.Symbols.{IsNext, kind_at, may_end, name_of};

use crate::completion::{completion, end_of};
use crate::steps::step;
use crate::symbol::{Step, Symbol};
use sparql_expression::ParseFault;
use sparql_lexer::{Kind, Sign, Token, iri_value, string_value};
use sparql_parse::parse;
use sparql_read::declarations_of;
use std::alloc::{AllocError, Global};

/// The reason why no query continues after a terminal.
#[derive(Clone, Copy)]
pub enum Cause {
    /// No terminal of its kind is allowed there, or the terminals end too early
    Kind,
    /// An escape in it denotes no character that is allowed there
    Escape,
    /// A variable occurs twice in the list of VALUES
    Twice,
    /// A row of VALUES has more values than the list has variables
    LongRow,
    /// A row of VALUES has fewer values than the list has variables
    ShortRow,
    /// The cause is not known. No test has this cause.
    Unexplained,
}

/// The place where the machine stopped.
#[derive(Drop)]
pub struct Stop {
    /// The number of terminals before the place. It is the number of all terminals if they end too
    /// early.
    pub at: usize,
    /// The reason why no query continues after the terminal at the place.
    pub cause: Cause,
    /// The symbols that may come there, the next one last.
    pub stack: Vec<Symbol>,
}

/// The state of the machine between two terminals.
#[derive(Drop)]
pub struct Machine {
    /// The symbols that are still to be read, the next one last.
    pub stack: Vec<Symbol>,
    /// The place of the first variable of the last list of VALUES.
    heading: usize,
    /// The number of variables of that list.
    pub width: usize,
    /// The number of values of the row that are read.
    pub cells: usize,
}

/// Returns the place of the symbol that takes a terminal of this kind, or None if none does. The
/// symbol is the top of the stack, or one below symbols that derive the empty text.
fn taker(stack: &[Symbol], kind: Kind) -> Option<usize>
    ensures next { IfSome result (IsNext stack.now) }
{
    let mut place = stack.len();
    while place > 0 {
        place -= 1;
        match step(stack[place], kind) {
            Step::Take(_, _) => return Some(place),
            Step::Skip => {}
            Step::Stop => return None,
        }
    }
    None
}

/// Returns whether a terminal of this kind may come.
pub fn may_come(stack: &[Symbol], kind: Kind) -> bool
    ensures next { result ≡ true → (place : ℕ) × IsNext stack.now place }
{
    taker(stack, kind).is_some()
}

/// Returns whether the query may end.
pub fn may_end(stack: &[Symbol]) -> bool
    ensures value { result ≡ may_end stack.now }
{
    stack.iter().all(|symbol| end_of(*symbol).is_empty())
}

/// Returns the kind of the terminal at a place, or None if there is no terminal.
pub fn kind_at(tokens: &[Token<'_>], at: usize) -> Option<Kind>
    ensures value { result ≡ kind_at tokens.now at }
{
    match tokens.get(at) {
        Some(token) => Some(token.kind),
        None => None,
    }
}

/// Returns whether the variable at a place is among those from another place on.
fn is_repeated(tokens: &[Token<'_>], from: usize, at: usize) -> bool {
    let Some(variable) = tokens.get(at) else {
        return false;
    };
    let Some(before) = tokens.get(from..at) else {
        return false;
    };
    for token in before {
        if is_same_name(*token, *variable) {
            return true;
        }
    }
    false
}

/// Returns the name of a variable, without its `?` or `$`.
fn name_of<'a>(variable: Token<'a>) -> &'a [char]
    ensures value { result.now ≡ name_of variable.entry }
{
    match variable.text.split_first() {
        Some((_, name)) => name,
        None => &[],
    }
}

/// Returns whether two variables have the same name, with `?` or `$`.
pub fn is_same_name(a: Token<'_>, b: Token<'_>) -> bool
    ensures value { MatchBool result (name_of a.entry ≡ name_of b.entry)
        (name_of a.entry ≢ name_of b.entry) }
{
    name_of(a) == name_of(b)
}

/// Returns whether an escape of the terminal denotes no character that is allowed there.
fn is_misspelled(alloc: Global, token: Token<'_>) -> Result<bool, AllocError> {
    if token.kind == Kind::IriRef {
        Ok(iri_value(alloc, token.text)?.is_none())
    } else if matches!(token.kind, Kind::ShortString | Kind::LongString) {
        Ok(string_value(alloc, token.kind, token.text)?.is_none())
    } else {
        Ok(false)
    }
}

/// Puts symbols on a stack, the first of them on top.
fn push(stack: &mut Vec<Symbol>, symbols: &[Symbol]) -> Result<(), AllocError> {
    let count = symbols.len();
    for i in 0..count {
        stack.push(symbols[count - 1 - i])?;
    }
    Ok(())
}

impl Machine {
    fn new(alloc: Global) -> Result<Machine, AllocError> {
        let mut stack = Vec::new(alloc);
        stack.push(Symbol::Query)?;
        Ok(Machine {
            stack,
            heading: 0,
            width: 0,
            cells: 0,
        })
    }

    /// Returns the error of a terminal that a symbol takes, as a part of VALUES.
    fn cause_in_values(&self, symbol: Symbol, tokens: &[Token<'_>], at: usize) -> Option<Cause> {
        let closes = kind_at(tokens, at) == Some(Kind::Sign(Sign::CloseParenthesis));
        match symbol {
            Symbol::Heading if !closes && is_repeated(tokens, self.heading, at) => {
                Some(Cause::Twice)
            }
            Symbol::Cells if closes && self.cells < self.width => Some(Cause::ShortRow),
            Symbol::Cells if !closes && self.cells >= self.width => Some(Cause::LongRow),
            _ => None,
        }
    }

    /// Counts the variables and the values of VALUES.
    fn count(&mut self, symbol: Symbol, kind: Kind, at: usize) {
        match symbol {
            Symbol::DataBlock => {
                self.heading = at.saturating_add(1);
                self.width = 0;
            }
            Symbol::Heading if kind == Kind::Variable => self.width = self.width.saturating_add(1),
            Symbol::Rows => self.cells = 0,
            Symbol::Cells => self.cells = self.cells.saturating_add(1),
            _ => {}
        }
    }

    /// Reads a terminal. If no query continues after it, returns the cause and leaves the machine
    /// unchanged.
    fn read(
        &mut self,
        alloc: Global,
        tokens: &[Token<'_>],
        at: usize,
    ) -> Result<Option<Cause>, AllocError> {
        let Some(token) = tokens.get(at) else {
            return Ok(Some(Cause::Kind));
        };
        let Some(place) = taker(&self.stack, token.kind) else {
            return Ok(Some(Cause::Kind));
        };
        let Some(symbol) = self.stack.get(place).copied() else {
            return Ok(Some(Cause::Kind));
        };
        if let Some(cause) = self.cause_in_values(symbol, tokens, at) {
            return Ok(Some(cause));
        }
        if is_misspelled(alloc, *token)? {
            return Ok(Some(Cause::Escape));
        }
        self.count(symbol, token.kind, at);
        self.stack.truncate(place);
        if let Step::Take(first, then) = step(symbol, token.kind) {
            push(&mut self.stack, then)?;
            push(&mut self.stack, first)?;
        }
        Ok(None)
    }
}

/// Returns whether the terminals are a query.
fn is_query(alloc: Global, tokens: &[Token<'_>]) -> Result<bool, AllocError>
    ensures query { IfOk result (λ found. found ≡ true → IsSomeQuery (terminals tokens.now)) }
{
    let names = declarations_of(alloc, tokens)?;
    match parse(alloc, &names, tokens) {
        Ok(_) => Ok(true),
        Err(ParseFault::Syntax) => Ok(false),
        Err(ParseFault::Memory) => Err(AllocError),
    }
}

/// Returns whether the terminals followed by this end are a query.
fn is_beginning<'a>(
    alloc: Global,
    front: &[Token<'a>],
    end: &[Token<'a>],
) -> Result<bool, AllocError>
    ensures beginning { IfOk result (λ found. found ≡ true → IsQueryPrefix (terminals front.now)) }
{
    let mut tokens = Vec::from_slice(alloc, front)?;
    tokens.extend_from_slice(end)?;
    is_query(alloc, &tokens)
}

/// Reads terminals up to the first after which no query continues. Returns its place and the cause.
fn read_all(
    machine: &mut Machine,
    alloc: Global,
    tokens: &[Token<'_>],
) -> Result<(usize, Cause), AllocError>
    ensures place { IfOk result (λ found. found.0 ≤ length tokens.now) }
{
    for at in 0..tokens.len() {
        if let Some(cause) = machine.read(alloc, tokens, at)? {
            return Ok((at, cause));
        }
    }
    Ok((tokens.len(), Cause::Kind))
}

/// Returns whether the terminals before a place are the beginning of a query. The end of this query
/// completes the state of the machine.
fn is_verified(
    machine: &Machine,
    alloc: Global,
    tokens: &[Token<'_>],
    at: usize,
) -> Result<bool, AllocError>
    ensures beginning { IfOk result (λ found.
        found ≡ true → IsQueryPrefix (terminals (take at tokens.now))) }
{
    let Some(front) = tokens.get(..at) else {
        return Ok(false);
    };
    let end = completion(alloc, machine)?;
    is_beginning(alloc, front, &end)
}

/// Returns the place and the cause that a machine finds. Returns the first place if it could not be
/// shown that some query begins with the terminals before the place.
fn found_by(
    machine: &mut Machine,
    alloc: Global,
    tokens: &[Token<'_>],
) -> Result<(usize, Cause), AllocError>
    ensures place { IfOk result (λ found. found.0 ≤ length tokens.now) }
    ensures beginning { IfOk result (λ found.
        IsQueryPrefix (terminals (take found.0 tokens.now))) }
{
    let (at, cause) = read_all(machine, alloc, tokens)?;
    if is_verified(machine, alloc, tokens, at)? {
        Ok((at, cause))
    } else {
        Ok((0, Cause::Unexplained))
    }
}

/// Returns the place after which no query continues the terminals: the first terminal after which
/// no query continues, or the end if there is no such terminal (SPARQL 1.1 Query Language, section
/// 19.8).
///
/// Some query begins with the terminals before the place. If this could not be shown, the place is
/// the first and its cause is `Unexplained`. No test has this cause.
///
/// # Errors
/// `AllocError` if an allocation fails.
pub fn stop_of(alloc: Global, tokens: &[Token<'_>]) -> Result<Stop, AllocError>
    ensures place { IfOk result (λ s. s.at ≤ length tokens.now) }
    ensures beginning { IfOk result (λ s. IsQueryPrefix (terminals (take s.at tokens.now))) }
{
    let mut machine = Machine::new(alloc)?;
    let (at, cause) = found_by(&mut machine, alloc, tokens)?;
    Ok(Stop {
        at,
        cause,
        stack: machine.stack,
    })
}
