//! Words, and which of them are keywords.

ghost use Rattle.std.specs.Prelude.{◌≡◌, nat_eq};
ghost use Rattle.sparql_lexer.specs.Candidates.{LongestOf};
ghost use Rattle.sparql_lexer.specs.Words.{has_letters, is_small_a, capitals_of, keyword_among, keyword_of};

use crate::classes::Class;
use crate::cursor::{next, skip_some};
use crate::token::{Keyword, Kind};

const IN_ANY_CASE: [Keyword; 27] = [
    Keyword::As,
    Keyword::Bind,
    Keyword::Bound,
    Keyword::Datatype,
    Keyword::Distinct,
    Keyword::False,
    Keyword::Filter,
    Keyword::Graph,
    Keyword::In,
    Keyword::IsBlank,
    Keyword::IsIri,
    Keyword::IsLiteral,
    Keyword::Lang,
    Keyword::Limit,
    Keyword::Minus,
    Keyword::Not,
    Keyword::Offset,
    Keyword::Optional,
    Keyword::Prefix,
    Keyword::SameTerm,
    Keyword::Select,
    Keyword::Str,
    Keyword::True,
    Keyword::Undef,
    Keyword::Union,
    Keyword::Values,
    Keyword::Where,
];

/// Returns a keyword in upper case.
fn capitals_of(keyword: Keyword) -> &'static [u8]
    ensures { result.now ≡ capitals_of keyword }
{
    match keyword {
        Keyword::A => b"A",
        Keyword::As => b"AS",
        Keyword::Bind => b"BIND",
        Keyword::Bound => b"BOUND",
        Keyword::Datatype => b"DATATYPE",
        Keyword::Distinct => b"DISTINCT",
        Keyword::False => b"FALSE",
        Keyword::Filter => b"FILTER",
        Keyword::Graph => b"GRAPH",
        Keyword::In => b"IN",
        Keyword::IsBlank => b"ISBLANK",
        Keyword::IsIri => b"ISIRI",
        Keyword::IsLiteral => b"ISLITERAL",
        Keyword::Lang => b"LANG",
        Keyword::Limit => b"LIMIT",
        Keyword::Minus => b"MINUS",
        Keyword::Not => b"NOT",
        Keyword::Offset => b"OFFSET",
        Keyword::Optional => b"OPTIONAL",
        Keyword::Prefix => b"PREFIX",
        Keyword::SameTerm => b"SAMETERM",
        Keyword::Select => b"SELECT",
        Keyword::Str => b"STR",
        Keyword::True => b"TRUE",
        Keyword::Undef => b"UNDEF",
        Keyword::Union => b"UNION",
        Keyword::Values => b"VALUES",
        Keyword::Where => b"WHERE",
    }
}

/// Returns whether the word has these letters, in upper or lower case.
fn has_letters(word: &[char], capitals: &[u8]) -> bool
    ensures { result ≡ has_letters word.now capitals.now }
{
    let mut letters = word;
    let mut expected = capitals;
    'letters: while let Some((letter, after)) = next(letters) {
        let Some((capital, remaining)) = expected.split_first() else {
            return false;
        };
        if letter.to_ascii_uppercase() as u32 != *capital as u32 {
            return false;
        }
        letters = after;
        expected = remaining;
    }
    expected.is_empty()
}

fn is_small_a(word: &[char]) -> bool
    ensures { result ≡ is_small_a word.now }
{
    match word {
        [only] => *only == 'a',
        _ => false,
    }
}

fn keyword_among(keywords: &[Keyword], word: &[char]) -> Option<Keyword>
    ensures { result ≡ keyword_among keywords.now word.now }
{
    let mut rest = keywords;
    'keywords: while let Some((keyword, after)) = rest.split_first() {
        if has_letters(word, capitals_of(*keyword)) {
            return Some(*keyword);
        }
        rest = after;
    }
    None
}

/// Returns the keyword of a word, or None if it is not a keyword. The case of a keyword does not
/// matter, except that `a` is lower case.
#[tactic(auto, unfolding(crate::specs::Words::keyword_of))]
pub fn keyword(word: &[char]) -> Option<Keyword>
    ensures { result ≡ keyword_of word.now }
{
    if is_small_a(word) {
        return Some(Keyword::A);
    }
    keyword_among(&IN_ANY_CASE, word)
}

/// Reads the word at the start of the text. Returns its kind and the text after it.
pub fn scan_word(text: &[char]) -> Option<(Kind, &[char])>
    ensures { LongestOf (nat_eq 15) text.now result }
{
    let rest = skip_some(Class::Letter, text)?;
    let word = &text[..text.len() - rest.len()];
    match keyword(word) {
        Some(keyword) => Some((Kind::Keyword(keyword), rest)),
        None => Some((Kind::Word, rest)),
    }
}
