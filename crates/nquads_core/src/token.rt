//! The terminals of a line.

ghost use Rattle.std.specs.Prelude.{◌≡◌, ◌==◌, ◌&&◌, ◌||◌, ◌++◌, [], ◌∷◌, List, ℕ, Some, None, IfOk, MatchOption, string_bytes, length, map};
ghost use Rattle.std.specs.Char.{to_ascii_lowercase, is_ascii_alphabetic, is_ascii_alphanumeric};
ghost use Rattle.std.specs.Str.{IsUtf8, chars};
ghost use Rattle.rdf_core.specs.Characters.{is_label_start, is_label_char, begins};
ghost use Rattle.rdf_core.specs.Lexical.{has_scheme};
ghost use Rattle.rdf_core.specs.LexicalReading.{Finds};
ghost use Rattle.nquads_core.specs.Terminal.{is_blank};
ghost use Rattle.nquads_core.specs.LineParser.{Gives, next, is_end, iri_at, string_at, label_tail_at, label_at, subtags_at, tag_tail_at, tag_at, after_char, terminal_at, skip_blanks};
ghost use Rattle.nquads_core.specs.Views.{token_view};

use crate::fault::LineFault;
use rdf_core::Text;
use rdf_core::lexical::{
    first_char, has_scheme, is_label_char, is_label_start, lower_tag, read_iri_ref, read_quoted,
};
use std::alloc::Global;

/// A terminal, with what it denotes.
#[derive(Drop)]
pub enum Token {
    Iri(Text),
    Blank(Text),
    Quoted(Text),
    Tag(Text),
    Carets,
    Dot,
}

fn is_blank(c: char) -> bool
    ensures { result ≡ is_blank c }
{
    c == ' ' || c == '\t'
}

/// Returns the part of the text before `rest`. The text ends with `rest`.
fn text_before<'a>(text: &'a str, rest: &str) -> &'a str
    requires { (front : List ℕ) × (text.now ≡ front ++ rest.now) }
    ensures { text.now ≡ result.now ++ rest.now }
{
    &text[..text.len() - rest.len()]
}

/// Skips the blanks at the front, and returns what follows them.
pub fn skip_blanks(text: &str) -> &str
    ensures { chars result.now ≡ skip_blanks (chars text.now) }
{
    let mut rest = text;
    while let Some((c, after)) = first_char(rest) {
        if !is_blank(c) {
            return rest;
        }
        rest = after;
    }
    rest
}

/// Skips a label after its first character, and returns what follows it.
fn skip_label_tail(text: &str) -> &str
    ensures { chars result.now ≡ (label_tail_at (chars text.now)).1 }
{
    let mut good = text;
    let mut rest = text;
    while let Some((c, after)) = first_char(rest) {
        if is_label_char(c) {
            good = after;
            rest = after;
        } else if c == '.' {
            rest = after;
        } else {
            return good;
        }
    }
    good
}

/// Reads a label after `_:`, and returns it with what follows it ([141s] `BLANK_NODE_LABEL`).
fn read_label(alloc: Global, text: &str) -> Result<(Text, &str), LineFault>
    ensures { Gives (λ x. (x.0, chars x.1.now)) result (label_at (chars text.now)) }
{
    let Some((c, after)) = first_char(text) else {
        return Err(LineFault::Bad);
    };
    if !is_label_start(c) {
        return Err(LineFault::Bad);
    }
    let rest = skip_label_tail(after);
    let label = String::from_str(alloc, text_before(text, rest))?;
    Ok((Text::from_string(label), rest))
}

fn begins_alphanumeric(text: &str) -> bool
    ensures { result ≡ begins is_ascii_alphanumeric (chars text.now) }
{
    match first_char(text) {
        Some((c, _)) => c.is_ascii_alphanumeric(),
        None => false,
    }
}

/// Returns whether this character is a hyphen that an ASCII letter or digit follows.
fn is_hyphen(c: char, after: &str) -> bool
    ensures { result ≡ ((c == 45) && begins is_ascii_alphanumeric (chars after.now)) }
{
    c == '-' && begins_alphanumeric(after)
}

fn is_subtag_char(c: char, after: &str) -> bool
    ensures { result ≡ (is_ascii_alphanumeric c || ((c == 45) && begins is_ascii_alphanumeric (chars after.now))) }
{
    c.is_ascii_alphanumeric() || is_hyphen(c, after)
}

/// Skips the subtags after the first hyphen, and returns what follows them.
fn skip_subtags(text: &str) -> &str
    ensures { chars result.now ≡ (subtags_at (chars text.now)).1 }
{
    let mut rest = text;
    while let Some((c, after)) = first_char(rest) {
        if !is_subtag_char(c, after) {
            return rest;
        }
        rest = after;
    }
    rest
}

/// Skips a language tag, and returns what follows it.
fn skip_tag(text: &str) -> &str
    ensures { chars result.now ≡ (tag_tail_at (chars text.now)).1 }
{
    let mut rest = text;
    while let Some((c, after)) = first_char(rest) {
        if c.is_ascii_alphabetic() {
            rest = after;
        } else if is_hyphen(c, after) {
            return skip_subtags(after);
        } else {
            return rest;
        }
    }
    rest
}

/// Reads a tag after `@`, and returns it in lower case with what follows it ([144s] `LANGTAG`).
fn read_tag(alloc: Global, text: &str) -> Result<(Text, &str), LineFault>
    ensures { Gives (λ x. (x.0, chars x.1.now)) result (tag_at (chars text.now)) }
{
    let Some((c, _)) = first_char(text) else {
        return Err(LineFault::Bad);
    };
    if !c.is_ascii_alphabetic() {
        return Err(LineFault::Bad);
    }
    let rest = skip_tag(text);
    let tag = lower_tag(alloc, text_before(text, rest))?;
    Ok((tag, rest))
}

/// Reads an IRI with a scheme after `<`, and returns it with what follows the `>` ([10] `IRIREF`).
fn read_iri(alloc: Global, text: &str) -> Result<(Text, &str), LineFault>
    ensures value { Gives (λ x. (x.0, chars x.1.now)) result (iri_at (chars text.now)) }
{
    match read_iri_ref(alloc, text)? {
        Some((iri, rest)) => {
            if has_scheme(iri.as_str()) {
                Ok((iri, rest))
            } else {
                Err(LineFault::Bad)
            }
        }
        None => Err(LineFault::Bad),
    }
}

/// Reads a string after its opening quote, and returns it with what follows the closing quote
/// ([11] `STRING_LITERAL_QUOTE`).
fn read_string(alloc: Global, text: &str) -> Result<(Text, &str), LineFault>
    ensures value { Gives (λ x. (x.0, chars x.1.now)) result (string_at (chars text.now)) }
{
    match read_quoted(alloc, text)? {
        Some((string, rest)) => Ok((string, rest)),
        None => Err(LineFault::Bad),
    }
}

/// Returns what follows this character, or None if the text does not begin with it.
fn after_char(expected: char, text: &str) -> Option<&str>
    ensures { Finds (λ x. chars x.now) result (after_char expected (chars text.now)) }
{
    let (c, after) = first_char(text)?;
    if c == expected { Some(after) } else { None }
}

/// Reads the terminal that begins with this character, and returns it with what follows it.
#[tactic(auto, unfolding(crate::specs::LineParser::terminal_at))]
fn token_from(alloc: Global, c: char, after: &str) -> Result<(Token, &str), LineFault>
    ensures { Gives (λ x. (token_view x.0, chars x.1.now)) result (terminal_at (c ∷ chars after.now)) }
{
    if c == '<' {
        let (text, rest) = read_iri(alloc, after)?;
        return Ok((Token::Iri(text), rest));
    }
    if c == '"' {
        let (lexical, rest) = read_string(alloc, after)?;
        return Ok((Token::Quoted(lexical), rest));
    }
    if c == '_' {
        let Some(after) = after_char(':', after) else {
            return Err(LineFault::Bad);
        };
        let (name, rest) = read_label(alloc, after)?;
        return Ok((Token::Blank(name), rest));
    }
    if c == '@' {
        let (name, rest) = read_tag(alloc, after)?;
        return Ok((Token::Tag(name), rest));
    }
    if c == '^' {
        let Some(rest) = after_char('^', after) else {
            return Err(LineFault::Bad);
        };
        return Ok((Token::Carets, rest));
    }
    if c == '.' {
        return Ok((Token::Dot, after));
    }
    Err(LineFault::Bad)
}

/// Reads the terminal at the front, and returns it with what follows it.
#[tactic(auto, unfolding(crate::specs::LineParser::terminal_at))]
pub fn token_at(alloc: Global, text: &str) -> Result<(Token, &str), LineFault>
    ensures { Gives (λ x. (token_view x.0, chars x.1.now)) result (terminal_at (chars text.now)) }
{
    let Some((c, after)) = first_char(text) else {
        return Err(LineFault::Bad);
    };
    token_from(alloc, c, after)
}

/// Reads the next terminal, after blanks, and returns it with what follows it.
pub fn next_token(alloc: Global, text: &str) -> Result<(Token, &str), LineFault>
    ensures { Gives (λ x. (token_view x.0, chars x.1.now)) result (next (chars text.now)) }
{
    token_at(alloc, skip_blanks(text))
}

/// Returns whether only blanks and perhaps a comment are left.
pub fn is_end(text: &str) -> bool
    ensures { result ≡ is_end (skip_blanks (chars text.now)) }
{
    match first_char(skip_blanks(text)) {
        Some((c, _)) => c == '#',
        None => true,
    }
}
