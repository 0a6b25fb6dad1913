//! The terminals that may come at a place, as text.

ghost use Rattle.std.specs.Prelude.{◌≡◌, ◌++◌, List, ℕ, OnOk, codes, string_bytes};

use crate::machine::{may_come, may_end};
use crate::symbol::Symbol;
use sparql_lexer::{Keyword, Kind, Sign};
use std::alloc::{AllocError, Global};

/// Kinds of terminals, and the text for each, in the order in which they are listed.
type Phrases = &'static [(Kind, &'static str)];

const VERB: Phrases = &[(
    Kind::Keyword(Keyword::A),
    "a verb (an IRI, a prefixed name, a variable or 'a')",
)];

const EXPRESSION: Phrases = &[(Kind::Variable, "an expression")];

const TERM: Phrases = &[(
    Kind::BlankLabel,
    "a term (an IRI, a prefixed name, a variable, a blank node or a literal)",
)];

const VALUE: Phrases = &[(
    Kind::Keyword(Keyword::Undef),
    "a value (an IRI, a prefixed name, a literal or UNDEF)",
)];

/// The phrases where a prefixed name may come.
const NAMES: Phrases = &[
    (Kind::Variable, "a variable"),
    (Kind::IriRef, "an IRI"),
    (Kind::PrefixedName, "a prefixed name"),
];

/// The phrases where no prefixed name may come.
const NO_NAMES: Phrases = &[
    (Kind::Variable, "a variable"),
    (Kind::IriRef, "an IRI"),
    (Kind::PrefixedNamespace, "a prefix (such as 'ex:')"),
    (Kind::Integer, "a whole number"),
];

/// The phrase where a comparison operator may come.
const OPERATOR: Phrases = &[(Kind::Sign(Sign::Equal), "an operator (such as '=' or '&&')")];

/// The phrases for operators where no comparison operator may come.
const OPERATORS: Phrases = &[
    (Kind::Sign(Sign::And), "'&&'"),
    (Kind::Sign(Sign::Or), "'||'"),
    (Kind::Keyword(Keyword::In), "IN"),
];

const BRACES: Phrases = &[
    (Kind::LanguageTag, "a language tag"),
    (Kind::Sign(Sign::Carets), "'^^'"),
    (Kind::Sign(Sign::OpenBrace), "'{'"),
    (Kind::Sign(Sign::CloseBrace), "'}'"),
];

const OPEN: Phrases = &[(Kind::Sign(Sign::OpenParenthesis), "'('")];

const NONE: Phrases = &[];

const WORDS: Phrases = &[
    (Kind::Sign(Sign::CloseParenthesis), "')'"),
    (Kind::Sign(Sign::Dot), "'.'"),
    (Kind::Sign(Sign::Semicolon), "';'"),
    (Kind::Sign(Sign::Comma), "','"),
    (Kind::Sign(Sign::Star), "'*'"),
    (Kind::Keyword(Keyword::Prefix), "PREFIX"),
    (Kind::Keyword(Keyword::Select), "SELECT"),
    (Kind::Keyword(Keyword::Distinct), "DISTINCT"),
    (Kind::Keyword(Keyword::Where), "WHERE"),
    (Kind::Keyword(Keyword::Limit), "LIMIT"),
    (Kind::Keyword(Keyword::Offset), "OFFSET"),
    (Kind::Keyword(Keyword::Union), "UNION"),
    (Kind::Keyword(Keyword::As), "AS"),
];

const FUNCTION: Phrases = &[(Kind::Keyword(Keyword::Bound), "a function (such as BOUND)")];

const PATTERN: Phrases = &[(
    Kind::Keyword(Keyword::Optional),
    "a pattern (such as OPTIONAL or FILTER)",
)];

/// Returns whether an operand of an expression may come.
fn may_come_expression(stack: &[Symbol]) -> bool {
    may_come(stack, Kind::Keyword(Keyword::Bound)) && may_come(stack, Kind::Variable)
}

/// Returns the phrases for terms, variables and names: one phrase for those that come together.
fn terms(stack: &[Symbol]) -> Phrases {
    if may_come(stack, Kind::Keyword(Keyword::A)) {
        VERB
    } else if may_come_expression(stack) {
        EXPRESSION
    } else if may_come(stack, Kind::BlankLabel) {
        TERM
    } else if may_come(stack, Kind::Keyword(Keyword::Undef)) {
        VALUE
    } else if may_come(stack, Kind::PrefixedName) {
        NAMES
    } else {
        NO_NAMES
    }
}

/// Returns the phrases for the terminals that may come, in the order in which they are listed.
fn phrases(stack: &[Symbol]) -> [Phrases; 7] {
    let has_comparison = may_come(stack, Kind::Sign(Sign::Equal));
    let has_expression = may_come_expression(stack);
    let has_variable = may_come(stack, Kind::Variable);
    [
        terms(stack),
        if has_comparison { OPERATOR } else { OPERATORS },
        BRACES,
        if has_expression { NONE } else { OPEN },
        WORDS,
        if has_variable { NONE } else { FUNCTION },
        PATTERN,
    ]
}

/// Adds the texts of phrases for the terminals that may come.
fn add(list: &mut Vec<&'static str>, stack: &[Symbol], phrases: Phrases) -> Result<(), AllocError> {
    for phrase in phrases {
        if may_come(stack, phrase.0) {
            list.push(phrase.1)?;
        }
    }
    Ok(())
}

/// Adds the texts for the terminals that may come with these symbols on the stack.
fn add_all(list: &mut Vec<&'static str>, stack: &[Symbol]) -> Result<(), AllocError> {
    for group in &phrases(stack) {
        add(list, stack, group)?;
    }
    if may_end(stack) {
        list.push("the end of the query")?;
    }
    Ok(())
}

/// Returns what separates an item of a list from those before it.
fn separator(i: usize, count: usize) -> &'static str {
    match i {
        0 => "",
        _ if i < count.saturating_sub(1) => ", ",
        _ => " or ",
    }
}

/// Appends texts as `a, b or c`.
fn push_items(out: &mut String, items: &[&str]) -> Result<(), AllocError>
    ensures appended { OnOk result ((text : List ℕ)
        × (string_bytes out.new ≡ string_bytes out.old ++ text)) }
{
    for i in 0..items.len() {
        out.push_str(separator(i, items.len()))?;
        out.push_str(items[i])?;
    }
    Ok(())
}

/// Appends the terminals that may come with these symbols on the stack, as `expected a, b or c`.
///
/// # Errors
/// `AllocError` if an allocation fails. `out` may then have a part of the text.
pub fn push_expected(out: &mut String, stack: &[Symbol]) -> Result<(), AllocError>
    ensures appended { OnOk result ((items : List ℕ)
        × (string_bytes out.new ≡ string_bytes out.old ++ (codes "expected " ++ items))) }
{
    let mut list = Vec::new(*out.allocator());
    add_all(&mut list, stack)?;
    out.push_str("expected ")?;
    push_items(out, &list)
}
