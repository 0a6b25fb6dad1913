//! The unsupported feature of SPARQL that a query uses at a place.

ghost use Rattle.std.specs.Prelude.{◌≡◌, ◌≢◌, ◌≤◌, [], None, Some, length};
ghost use Rattle.query_diagnosis.specs.declared.hint.Hint.TheVariants.{ByteOrderMark, EmptyQuery};

use crate::hint::Hint;
use crate::machine::{kind_at, may_come, may_end};
use crate::symbol::Symbol;
use sparql_lexer::{Keyword, Kind, Sign, Token};

/// A terminal that may come exactly where an operator of an expression may come.
const OPERATOR: Kind = Kind::Sign(Sign::And);

/// A terminal that may come exactly where an operand of an expression may come.
const OPERAND: Kind = Kind::Keyword(Keyword::Bound);

/// A terminal that may come exactly where a term of a triple pattern may come.
const TERM: Kind = Kind::BlankLabel;

/// Words of SPARQL 1.1 that are not keywords here, and the hint for each.
const WORDS: &[(&str, Hint)] = &[
    ("ORDER", Hint::OrderBy),
    ("GROUP", Hint::Aggregate),
    ("HAVING", Hint::Aggregate),
    ("COUNT", Hint::Aggregate),
    ("SUM", Hint::Aggregate),
    ("MIN", Hint::Aggregate),
    ("MAX", Hint::Aggregate),
    ("AVG", Hint::Aggregate),
    ("SAMPLE", Hint::Aggregate),
    ("REDUCED", Hint::Reduced),
    ("FROM", Hint::From),
    ("BASE", Hint::Base),
    ("ASK", Hint::Ask),
    ("CONSTRUCT", Hint::Construct),
    ("DESCRIBE", Hint::Describe),
    ("INSERT", Hint::Update),
    ("DELETE", Hint::Update),
    ("LOAD", Hint::Update),
    ("CLEAR", Hint::Update),
    ("DROP", Hint::Update),
    ("CREATE", Hint::Update),
    ("COPY", Hint::Update),
    ("MOVE", Hint::Update),
    ("ADD", Hint::Update),
    ("WITH", Hint::Update),
    ("SERVICE", Hint::Service),
    ("EXISTS", Hint::Exists),
    ("ISURI", Hint::IsUri),
    ("LANGMATCHES", Hint::LangMatches),
    ("REGEX", Hint::Function),
    ("IF", Hint::Function),
    ("COALESCE", Hint::Function),
    ("URI", Hint::Function),
    ("IRI", Hint::Function),
    ("BNODE", Hint::Function),
    ("LIKE", Hint::Function),
    ("AND", Hint::Logic),
    ("OR", Hint::Logic),
];

/// Returns whether the characters are those of a word, in upper or lower case.
fn is_word(text: &[char], word: &str) -> bool {
    if text.len() != word.len() {
        return false;
    }
    let bytes = word.as_bytes();
    for i in 0..bytes.len() {
        if text[i].to_ascii_uppercase() != char::from(bytes[i]) {
            return false;
        }
    }
    true
}

/// Returns the hint for a word, or None if it has no hint.
fn hint_of_word(text: &[char]) -> Option<Hint> {
    for entry in WORDS {
        if is_word(text, entry.0) {
            return Some(entry.1);
        }
    }
    None
}

/// Returns the hint for the word at a place, or None if there is no word or it has no hint.
fn word_at(tokens: &[Token<'_>], at: usize) -> Option<Hint> {
    let token = tokens.get(at)?;
    if token.kind == Kind::Word {
        hint_of_word(token.text)
    } else {
        None
    }
}

fn is_verb_next(stack: &[Symbol]) -> bool {
    may_come(stack, Kind::Keyword(Keyword::A)) && !may_come(stack, Kind::Sign(Sign::Dot))
}

/// Returns whether an object must come.
fn is_object_next(stack: &[Symbol]) -> bool {
    may_come(stack, TERM) && !may_come(stack, Kind::Sign(Sign::OpenBrace))
}

/// Returns whether a declaration of the prologue may come.
fn is_prologue_next(stack: &[Symbol]) -> bool {
    may_come(stack, Kind::Keyword(Keyword::Prefix))
}

/// Returns whether a `.` may come, but no further triple without one.
fn is_dot_next(stack: &[Symbol]) -> bool {
    may_come(stack, Kind::Sign(Sign::Dot)) && !may_come(stack, TERM)
}

/// Returns whether the projection of SELECT may come.
fn is_selection_next(stack: &[Symbol]) -> bool {
    may_come(stack, Kind::Sign(Sign::Star)) || matches!(stack.last(), Some(Symbol::Variables))
}

/// Returns the hint for a word that is not allowed.
fn hint_at_word(tokens: &[Token<'_>], at: usize, stack: &[Symbol]) -> Option<Hint> {
    let follows_not = at > 0 && kind_at(tokens, at - 1) == Some(Kind::Keyword(Keyword::Not));
    let is_call = kind_at(tokens, at.saturating_add(1)) == Some(Kind::Sign(Sign::OpenParenthesis));
    match word_at(tokens, at) {
        Some(Hint::Exists) if follows_not => Some(Hint::NotExists),
        Some(hint) => Some(hint),
        None if is_call && may_come(stack, OPERAND) => Some(Hint::Function),
        None if is_selection_next(stack) => Some(Hint::QuestionMark),
        None => None,
    }
}

/// Returns the hint for a keyword that is not allowed.
fn hint_at_keyword(
    tokens: &[Token<'_>],
    at: usize,
    stack: &[Symbol],
    keyword: Keyword,
) -> Option<Hint> {
    let next = word_at(tokens, at.saturating_add(1));
    match keyword {
        Keyword::Not if matches!(next, Some(Hint::Exists)) => Some(Hint::NotExists),
        Keyword::Not if may_come(stack, OPERAND) => Some(Hint::Logic),
        Keyword::Union => Some(Hint::Union),
        Keyword::Select if may_come(stack, TERM) => Some(Hint::Subquery),
        Keyword::Values if may_end(stack) => Some(Hint::TrailingValues),
        _ => None,
    }
}

/// Returns the hint for `(` that is not allowed.
fn hint_at_open(tokens: &[Token<'_>], at: usize, stack: &[Symbol]) -> Option<Hint> {
    let next = word_at(tokens, at.saturating_add(1));
    if is_selection_next(stack) {
        match next {
            Some(Hint::Aggregate) => Some(Hint::Aggregate),
            _ => Some(Hint::SelectExpression),
        }
    } else if may_come(stack, OPERATOR) {
        Some(Hint::Cast)
    } else if is_verb_next(stack) {
        Some(Hint::Path)
    } else if may_come(stack, TERM) {
        Some(Hint::Collection)
    } else {
        None
    }
}

/// Returns the hint for a sign that is not allowed.
fn hint_at_sign(tokens: &[Token<'_>], at: usize, stack: &[Symbol], sign: Sign) -> Option<Hint> {
    match sign {
        Sign::OpenParenthesis => hint_at_open(tokens, at, stack),
        Sign::Comma if is_selection_next(stack) => Some(Hint::NoCommas),
        Sign::Dot | Sign::Semicolon if is_prologue_next(stack) => Some(Hint::Prologue),
        Sign::Not if follows_filter(tokens, at) => { Some(Hint::Parentheses) }
        Sign::Equal if may_come(stack, OPERAND) && follows(tokens, at, Kind::Sign(Sign::Equal)) => {
            Some(Hint::OneEqual)
        }
        Sign::And
        | Sign::Or
        | Sign::Equal
        | Sign::NotEqual
        | Sign::Greater
        | Sign::LessOrEqual
        | Sign::GreaterOrEqual
            if matches!(stack.last(), Some(Symbol::AfterElement)) => { Some(Hint::Parentheses) }
        Sign::Star if may_come(stack, OPERATOR) => Some(Hint::Arithmetic),
        Sign::Star if may_come(stack, TERM) => Some(Hint::Path),
        Sign::Not | Sign::Carets if is_verb_next(stack) => Some(Hint::Path),
        Sign::Less if kind_at(tokens, at.saturating_add(1)) == Some(Kind::Sign(Sign::Less)) => {
            Some(Hint::QuotedTriple)
        }
        Sign::Less if may_come(stack, Kind::IriRef) => Some(Hint::NoIri),
        _ => None,
    }
}

/// Returns whether the terminal before a place is of this kind.
fn follows(tokens: &[Token<'_>], at: usize, kind: Kind) -> bool {
    match at.checked_sub(1) {
        Some(before) => kind_at(tokens, before) == Some(kind),
        None => false,
    }
}

/// Returns whether the terminal before a place is FILTER.
fn follows_filter(tokens: &[Token<'_>], at: usize) -> bool {
    follows(tokens, at, Kind::Keyword(Keyword::Filter))
}

/// Returns whether the terminal at a place is `<>`, the empty IRI.
fn is_empty_iri(tokens: &[Token<'_>], at: usize) -> bool {
    match tokens.get(at) {
        Some(token) => token.kind == Kind::IriRef && token.text.len() == 2,
        None => false,
    }
}

/// Returns the hint for a terminal that is not allowed with these symbols on the stack, or for the
/// end of a text without terminals.
pub fn hint_at(tokens: &[Token<'_>], at: usize, stack: &[Symbol]) -> Option<Hint>
    ensures empty { tokens.now ≡ [] → result ≡ Some EmptyQuery }
    ensures ended { tokens.now ≢ [] → length tokens.now ≤ at → result ≡ None }
{
    if tokens.is_empty() {
        return Some(Hint::EmptyQuery);
    }
    match kind_at(tokens, at)? {
        Kind::Word => hint_at_word(tokens, at, stack),
        Kind::Keyword(keyword) => hint_at_keyword(tokens, at, stack, keyword),
        Kind::Sign(sign) => hint_at_sign(tokens, at, stack, sign),
        Kind::Variable | Kind::ShortString | Kind::Integer | Kind::Decimal
            if follows_filter(tokens, at) => { Some(Hint::Parentheses) }
        Kind::IriRef if may_come(stack, OPERATOR) && is_empty_iri(tokens, at) => {
            Some(Hint::NotEqual)
        }
        Kind::IriRef if may_come(stack, OPERATOR) => Some(Hint::SpaceAfterLess),
        Kind::LanguageTag if is_prologue_next(stack) => Some(Hint::Prologue),
        Kind::PrefixedNamespace if matches!(stack.last(), Some(Symbol::Reference)) => {
            Some(Hint::AngleBrackets)
        }
        Kind::SignedInteger | Kind::SignedDecimal | Kind::SignedDouble
            if may_come(stack, OPERATOR) => { Some(Hint::Arithmetic) }
        kind if is_dot_next(stack) && begins_triple(kind) => Some(Hint::Dot),
        _ => None,
    }
}

/// Returns whether a terminal of this kind may begin a triple.
fn begins_triple(kind: Kind) -> bool {
    matches!(
        kind,
        Kind::Variable | Kind::IriRef | Kind::PrefixedName | Kind::BlankLabel | Kind::Anonymous
    )
}

/// Returns the hint for a character that begins no terminal, with these symbols on the stack, after these terminals and
/// before these characters.
pub fn hint_at_char(tokens: &[Token<'_>], c: char, after: &[char], stack: &[Symbol]) -> Option<Hint>
    ensures mark { c ≡ 0xFEFF → result ≡ Some ByteOrderMark }
    ensures other { c ≢ 0xFEFF → result ≢ Some ByteOrderMark }
{
    match c {
        '[' => Some(Hint::PropertyList),
        '\u{FEFF}' => Some(Hint::ByteOrderMark),
        '/' if after.first().copied() == Some('/') => Some(Hint::AngleBrackets),
        '+' | '-' | '/' if may_come(stack, OPERATOR) || may_come(stack, OPERAND) => {
            Some(Hint::Arithmetic)
        }
        '^' if is_verb_next(stack) => Some(Hint::Path),
        '+' | '/' | '|' | '?' if is_object_next(stack) => Some(Hint::Path),
        '_' if follows(tokens, tokens.len(), Kind::LanguageTag) => Some(Hint::HyphenInTag),
        '“' | '”' | '‘' | '’' => Some(Hint::StraightQuotes),
        _ => None,
    }
}
