//! The places at which a query that the grammar derives breaks one of the other rules. Each
//! function returns the first terminal that breaks the rule, or None if there is none.

ghost use Rattle.std.specs.Prelude.{◌≡◌, ◌≤◌, ◌+◌, false, nat_eq, IfOk, IfSome, MatchOption, Some};
ghost use Rattle.std.specs.List.{position, slice_get};
ghost use Rattle.sparql_grammar.specs.Values.{prefix_of};
ghost use Rattle.sparql_lexer.specs.declared.token.Kind.TheVariants.{BlankLabel};
ghost use Rattle.sparql_lexer.specs.declared.token.Token.{Token};
ghost use Rattle.sparql_lexer.specs.Terminal.{terminals};
ghost use Rattle.sparql_read.specs.Depth.{is_too_deep, open_after};
ghost use Rattle.sparql_grammar.specs.Prologue.{declarations, has_undefined_prefix, lacks_declaration};
ghost use Rattle.sparql_read.specs.RelativeIri.{has_relative_iri};
ghost use Rattle.query_diagnosis.specs.Place.{IsFirst};
ghost use Rattle.query_diagnosis.specs.Symbols.{IsRepeated, IsSameVariable, kind_at, name_of};

use crate::machine::{is_same_name, kind_at};
use sparql_grammar::Declarations;
use sparql_lexer::{Keyword, Kind, Sign, Token, text_of};
use sparql_read::{declarations_of, has_relative_iri, has_undefined_prefix};
use std::alloc::{AllocError, Global};
use std::collections::BTreeMap;

/// The maximum number of brackets that may be open at once.
const MAX_DEPTH: usize = 100;

/// A terminal that breaks a rule.
#[derive(Clone, Copy)]
pub struct Breach {
    /// The place of the terminal in the list.
    pub at: usize,
    /// The place of the earlier terminal with which it clashes, if the rule is about two terminals.
    pub earlier: Option<usize>,
}

impl Breach {
    /// Returns the breach of a rule that is about one terminal.
    pub fn alone(at: usize) -> Breach
        ensures { result.at ≡ at }
    {
        Breach { at, earlier: None }
    }
}

/// Returns the place of the first colon of a prefixed name.
fn first_colon(name: &[char]) -> Option<usize>
    ensures value { result ≡ position (λ c. nat_eq c 58) name.now }
{
    name.iter().position(|c| *c == ':')
}

/// Returns the part of a prefixed name before its first colon.
pub fn prefix_of<'a>(name: &'a [char]) -> &'a [char]
    ensures value { result.now ≡ prefix_of name.now }
{
    match first_colon(name) {
        Some(end) => &name[..end.min(name.len())],
        None => name,
    }
}

/// Returns the place of the first prefixed name without a declaration among these.
fn undeclared(
    alloc: Global,
    names: &Declarations,
    tokens: &[Token<'_>],
) -> Result<Option<usize>, AllocError>
    ensures first { IfOk result (λ found. MatchOption found
        (lacks_declaration names.now (terminals tokens.now) ≡ false)
        (IsFirst (lacks_declaration names.now) (terminals tokens.now))) }
{
    for i in 0..tokens.len() {
        if has_undefined_prefix(alloc, names, &tokens[i..i + 1])? {
            return Ok(Some(i));
        }
    }
    Ok(None)
}

/// Returns the place of the first prefixed name without a declaration (SPARQL 1.1 Query Language,
/// section 4.1.1).
///
/// # Errors
/// `AllocError` if an allocation fails.
pub fn undefined_prefix(alloc: Global, tokens: &[Token<'_>]) -> Result<Option<usize>, AllocError>
    ensures first { IfOk result (λ found. MatchOption found
        (has_undefined_prefix (terminals tokens.now) ≡ false)
        (IsFirst (lacks_declaration (declarations (terminals tokens.now)))
        (terminals tokens.now))) }
{
    let names = declarations_of(alloc, tokens)?;
    undeclared(alloc, &names, tokens)
}

/// Returns the place of the first [139] IRIREF without a scheme.
///
/// # Errors
/// `AllocError` if an allocation fails.
pub fn relative_iri(alloc: Global, tokens: &[Token<'_>]) -> Result<Option<usize>, AllocError>
    ensures first { IfOk result (λ found. MatchOption found
        (has_relative_iri (terminals tokens.now) ≡ false)
        (IsFirst has_relative_iri (terminals tokens.now))) }
{
    for i in 0..tokens.len() {
        if has_relative_iri(alloc, &tokens[i..i + 1])? {
            return Ok(Some(i));
        }
    }
    Ok(None)
}

/// Returns the number of open brackets after a terminal, given the number before it.
fn open_after(kind: Kind, depth: usize) -> usize
    requires few { depth ≤ 100 }
    ensures value { result ≡ open_after kind depth }
{
    match kind {
        Kind::Sign(Sign::OpenBrace | Sign::OpenParenthesis) => depth + 1,
        Kind::Sign(Sign::CloseBrace | Sign::CloseParenthesis) => depth.saturating_sub(1),
        _ => depth,
    }
}

/// Returns the place of the first bracket after which more than 100 are open.
pub fn deepest(tokens: &[Token<'_>]) -> Option<usize>
    ensures first { MatchOption result (is_too_deep (terminals tokens.now) ≡ false)
        (IsFirst is_too_deep (terminals tokens.now)) }
{
    let mut depth = 0;
    for i in 0..tokens.len() {
        depth = open_after(tokens[i].kind, depth);
        if depth > MAX_DEPTH {
            return Some(i);
        }
    }
    None
}

/// The blank node labels that were read.
#[derive(Drop)]
struct Labels {
    /// The first place of each label, and its basic graph pattern.
    seen: BTreeMap<String, (usize, usize)>,
    /// The basic graph pattern, by the place before it.
    pattern: usize,
}

impl Labels {
    /// Adds the label at a place. Returns a clash if it is in another basic graph pattern too.
    fn add(&mut self, label: String, at: usize) -> Result<Option<Breach>, AllocError>
        ensures here { IfOk result (λ found. IfSome found (λ b. b.at ≡ at)) }
    {
        match self.seen.get(label.as_str()).copied() {
            Some((earlier, pattern)) if pattern != self.pattern => Ok(Some(Breach {
                at,
                earlier: Some(earlier),
            })),
            Some(_) => Ok(None),
            None => {
                self.seen.insert(label, (at, self.pattern))?;
                Ok(None)
            }
        }
    }

    /// Reads the terminal at a place, and returns a clash of its label.
    fn read(
        &mut self,
        alloc: Global,
        token: Token<'_>,
        at: usize,
    ) -> Result<Option<Breach>, AllocError>
        ensures here { IfOk result (λ found. IfSome found (λ b. b.at ≡ at)) }
        ensures label { IfOk result (λ found. IfSome found (λ b. token.entry.kind ≡ BlankLabel)) }
    {
        match token.kind {
            Kind::Sign(Sign::OpenBrace | Sign::CloseBrace) | Kind::Keyword(Keyword::Bind) => {
                self.pattern = at;
                Ok(None)
            }
            Kind::BlankLabel => self.add(text_of(alloc, token.text)?, at),
            _ => Ok(None),
        }
    }
}

/// Returns the first blank node label that occurs in two basic graph patterns (SPARQL 1.1 Query
/// Language, section 5.1.1). A brace or a BIND ends a basic graph pattern.
///
/// # Errors
/// `AllocError` if an allocation fails.
pub fn reused_blank(alloc: Global, tokens: &[Token<'_>]) -> Result<Option<Breach>, AllocError>
    ensures label { IfOk result
        (λ found. IfSome found (λ b. kind_at tokens.now b.at ≡ Some BlankLabel)) }
{
    let mut labels = Labels {
        seen: BTreeMap::new(alloc),
        pattern: 0,
    };
    for i in 0..tokens.len() {
        if let Some(clash) = labels.read(alloc, tokens[i], i)? {
            return Ok(Some(clash));
        }
    }
    Ok(None)
}

/// A group that is open.
#[derive(Clone, Copy)]
struct Frame {
    /// The number of variables in scope before it.
    first: usize,
    /// Whether it is the right side of MINUS, whose variables are not in scope after it.
    is_minus: bool,
}

/// The variables in scope in the groups of a query (SPARQL 1.1 Query Language, section 18.2.1).
#[derive(Drop)]
struct Scopes {
    frames: Vec<Frame>,
    /// The places of the variables in scope in the groups that are open.
    seen: Vec<usize>,
    is_minus_next: bool,
    /// The next place to visit. The terminals before it are an expression or the values of VALUES.
    next: usize,
}

/// Returns the place after the brackets of the condition that begins at a place.
fn after_condition(tokens: &[Token<'_>], from: usize) -> usize {
    let mut depth = 0usize;
    for i in from.min(tokens.len())..tokens.len() {
        match tokens[i].kind {
            Kind::Sign(Sign::OpenParenthesis) => depth = depth.saturating_add(1),
            Kind::Sign(Sign::CloseParenthesis) => {
                depth = depth.saturating_sub(1);
                if depth == 0 {
                    return i + 1;
                }
            }
            _ => {}
        }
    }
    tokens.len()
}

/// Returns the first place of a terminal of this kind from a place on.
fn find(tokens: &[Token<'_>], from: usize, kind: Kind) -> usize {
    for i in from.min(tokens.len())..tokens.len() {
        if tokens[i].kind == kind {
            return i;
        }
    }
    tokens.len()
}

/// Returns the first of these places at which there is a variable of the same name.
fn place_of(tokens: &[Token<'_>], places: &[usize], variable: Token<'_>) -> Option<usize>
    ensures same { IfSome result (λ place. (first : Token) × (slice_get tokens.now place ≡ Some first)
        × (name_of first ≡ name_of variable.entry)) }
{
    for place in places {
        if let Some(token) = tokens.get(*place) {
            if is_same_name(*token, variable) {
                return Some(*place);
            }
        }
    }
    None
}

impl Scopes {
    fn new(alloc: Global) -> Scopes {
        Scopes {
            frames: Vec::new(alloc),
            seen: Vec::new(alloc),
            is_minus_next: false,
            next: 0,
        }
    }

    fn open(&mut self) -> Result<(), AllocError> {
        self.frames.push(Frame {
            first: self.seen.len(),
            is_minus: self.is_minus_next,
        })?;
        self.is_minus_next = false;
        Ok(())
    }

    fn close(&mut self) {
        if let Some(frame) = self.frames.pop() {
            if frame.is_minus {
                self.seen.truncate(frame.first);
            }
        }
    }

    /// Adds the variables of VALUES, and continues after its values.
    fn add_values(&mut self, tokens: &[Token<'_>], at: usize) -> Result<(), AllocError> {
        let values = find(tokens, at, Kind::Sign(Sign::OpenBrace));
        for i in at..values {
            if kind_at(tokens, i) == Some(Kind::Variable) {
                self.seen.push(i)?;
            }
        }
        self.next = find(tokens, values, Kind::Sign(Sign::CloseBrace)).saturating_add(1);
        Ok(())
    }

    /// Returns the place in the open group that already binds the variable at a place.
    fn earlier(&self, tokens: &[Token<'_>], at: usize) -> Option<usize>
        ensures same { IfSome result (λ place. IsSameVariable tokens.now at place) }
    {
        let variable = tokens.get(at)?;
        let first = match self.frames.last() {
            Some(frame) => frame.first,
            None => 0,
        };
        place_of(tokens, self.seen.get(first..)?, *variable)
    }

    /// Reads BIND, and returns a clash of its variable.
    fn add_bind(&mut self, tokens: &[Token<'_>], at: usize) -> Result<Option<Breach>, AllocError>
        ensures repeated { IfOk result (λ found. IfSome found (IsRepeated tokens.now)) }
    {
        let variable = find(tokens, at, Kind::Keyword(Keyword::As)).saturating_add(1);
        let earlier = self.earlier(tokens, variable);
        if earlier.is_some() {
            return Ok(Some(Breach {
                at: variable,
                earlier,
            }));
        }
        self.seen.push(variable)?;
        self.next = variable.saturating_add(1);
        Ok(None)
    }

    /// Reads the terminal at a place, and returns a clash of the variable of BIND.
    fn read(&mut self, tokens: &[Token<'_>], at: usize) -> Result<Option<Breach>, AllocError>
        ensures repeated { IfOk result (λ found. IfSome found (IsRepeated tokens.now)) }
    {
        let Some(token) = tokens.get(at) else {
            return Ok(None);
        };
        match token.kind {
            Kind::Sign(Sign::OpenBrace) => self.open()?,
            Kind::Sign(Sign::CloseBrace) => self.close(),
            Kind::Keyword(Keyword::Minus) => self.is_minus_next = true,
            Kind::Keyword(Keyword::Filter) => self.next = after_condition(tokens, at),
            Kind::Keyword(Keyword::Values) => self.add_values(tokens, at)?,
            Kind::Keyword(Keyword::Bind) => return self.add_bind(tokens, at),
            Kind::Variable if !self.frames.is_empty() => self.seen.push(at)?,
            _ => {}
        }
        Ok(None)
    }
}

/// Returns the first BIND to a variable that the elements before it in its group bind, and the
/// place where they bind it (SPARQL 1.1 Query Language, section 10.1).
///
/// # Errors
/// `AllocError` if an allocation fails.
pub fn bound_twice(alloc: Global, tokens: &[Token<'_>]) -> Result<Option<Breach>, AllocError>
    ensures repeated { IfOk result (λ found. IfSome found (IsRepeated tokens.now)) }
{
    let mut scopes = Scopes::new(alloc);
    for i in 0..tokens.len() {
        if i < scopes.next {
            continue;
        }
        if let Some(clash) = scopes.read(tokens, i)? {
            return Ok(Some(clash));
        }
    }
    Ok(None)
}
