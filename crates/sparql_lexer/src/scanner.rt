//! All terminals of a text.

ghost use Rattle.std.specs.Prelude.{◌≡◌, ◌≤◌, IfOk, length};
ghost use Rattle.sparql_lexer.specs.Blanks.{after_blanks};
ghost use Rattle.sparql_lexer.specs.Scan.{Scans};
ghost use Rattle.sparql_lexer.specs.Terminal.{terminals};

use crate::candidates::scan_terminal;
use crate::classes::{Class, is_member};
use crate::cursor::next;
use crate::names::{clear_end, run_end};
use crate::token::Token;
use std::alloc::{AllocError, Global};

/// The terminals of a text up to its end, or up to the first place where there is no terminal.
#[derive(Drop)]
pub struct Scan<'a> {
    /// The terminals, in the order of the text.
    pub tokens: Vec<Token<'a>>,
    /// The text from that place. It is empty if the whole text was read.
    pub rest: &'a [char],
}

/// Skips white space and comments.
fn skip_blanks(text: &[char]) -> &[char]
    ensures value { result.now ≡ after_blanks text.now }
    ensures shorter { length result.now ≤ length text.now }
{
    let mut rest = text;
    let mut in_comment = false;
    'blanks: while let Some((c, after)) = next(rest) {
        if in_comment {
            in_comment = !is_member(Class::LineEnd, c);
        } else if c == '#' {
            in_comment = true;
        } else if !is_member(Class::Space, c) {
            return rest;
        }
        rest = after;
    }
    rest
}

/// Splits a text into its terminals (SPARQL 1.1 Query Language, section 19.8). Each is the longest
/// at its place; white space and comments may occur between them.
///
/// `rest` is empty if and only if the whole text was read. Escapes are delimited here and decoded
/// later, so a terminal is read even if its escape denotes no character.
///
/// # Errors
/// `AllocError` if an allocation fails.
pub fn scan_text<'a>(alloc: Global, text: &'a [char]) -> Result<Scan<'a>, AllocError>
    ensures { IfOk result (λ scan. Scans text.now (terminals scan.tokens.items) scan.rest.now) }
{
    let mut tokens = Vec::new(alloc);
    let mut rest = text;
    let mut end = text;
    'terminals: loop {
        let place = skip_blanks(rest);
        end = run_end(place, end);
        let Some((kind, remaining)) = scan_terminal(place, clear_end(place, end)) else {
            return Ok(Scan {
                tokens,
                rest: place,
            });
        };
        tokens.push(Token {
            kind,
            text: &place[..place.len() - remaining.len()],
        })?;
        rest = remaining;
    }
}
