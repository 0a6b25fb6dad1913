//! Delimited terminals: IRIs, strings, and the brackets of an anonymous blank node.

ghost use Rattle.std.specs.Prelude.{◌≡◌, false, nat_eq};
ghost use Rattle.sparql_lexer.specs.Characters.{is_space, is_escape_letter};
ghost use Rattle.sparql_lexer.specs.Pattern.{character, is, many, perhaps, ◌▸◌, ◌or◌, Ends};
ghost use Rattle.sparql_lexer.specs.Enclosed.{four_digits, numbered, escape, iri_piece, three, comment};
ghost use Rattle.sparql_lexer.specs.Classes.{members};
ghost use Rattle.sparql_lexer.specs.Forms.{open_of, piece_of, close_of, inside_of};

use crate::classes::Class;
use crate::cursor::{accept, accept_one, skip};

/// The delimiters of a terminal. They decide what is allowed between them.
#[derive(Clone, Copy)]
pub enum Enclosure {
    Iri,
    Single,
    Double,
    LongSingle,
    LongDouble,
    Anonymous,
}

fn skip_four_digits(text: &[char]) -> Option<&[char]>
    ensures { Ends four_digits text.now result }
{
    let one = accept_one(Class::Hex, text)?;
    let two = accept_one(Class::Hex, one)?;
    let three = accept_one(Class::Hex, two)?;
    accept_one(Class::Hex, three)
}

/// Skips `u` and four hexadecimal digits, or `U` and eight, after a backslash.
fn skip_numbered(text: &[char]) -> Option<&[char]>
    ensures { Ends numbered text.now result }
{
    if let Some(digits) = accept(text, 'u') {
        return skip_four_digits(digits);
    }
    let digits = accept(text, 'U')?;
    let last = skip_four_digits(digits)?;
    skip_four_digits(last)
}

/// Skips the letter of an [160] ECHAR, or a [12] UCHAR of N-Quads, after its backslash.
fn skip_escaped(text: &[char]) -> Option<&[char]>
    ensures { Ends (character is_escape_letter or numbered) text.now result }
{
    if let Some(after) = accept_one(Class::EscapeLetter, text) {
        return Some(after);
    }
    skip_numbered(text)
}

fn skip_iri_piece(text: &[char]) -> Option<&[char]>
    ensures { Ends iri_piece text.now result }
{
    if let Some(after) = accept_one(Class::InIri, text) {
        return Some(after);
    }
    let after = accept(text, '\\')?;
    skip_numbered(after)
}

/// Skips one character of the class, or an escape.
fn skip_string_piece(class: Class, text: &[char]) -> Option<&[char]>
    requires { members class 92 ≡ false }
    ensures { Ends (character (members class) or escape) text.now result }
{
    if let Some(after) = accept_one(class, text) {
        return Some(after);
    }
    let after = accept(text, '\\')?;
    skip_escaped(after)
}

/// Skips up to two quotes, and then one character of the class or an escape.
fn skip_long_piece(quote: char, class: Class, text: &[char]) -> Option<&[char]>
    requires escaped { members class 92 ≡ false }
    requires quoted { members class quote ≡ false }
    requires backslash { nat_eq 92 quote ≡ false }
    ensures { Ends (perhaps (is quote or (is quote ▸ is quote)) ▸ (character (members class) or escape)) text.now result }
{
    let Some(one) = accept(text, quote) else {
        return skip_string_piece(class, text);
    };
    let Some(two) = accept(one, quote) else {
        return skip_string_piece(class, one);
    };
    skip_string_piece(class, two)
}

fn skip_comment(text: &[char]) -> Option<&[char]>
    ensures { Ends comment text.now result }
{
    let inside = accept(text, '#')?;
    let end = skip(Class::InComment, inside);
    accept_one(Class::LineEnd, end)
}

fn skip_blank(text: &[char]) -> Option<&[char]>
    ensures { Ends (character is_space or comment) text.now result }
{
    if let Some(after) = accept_one(Class::Space, text) {
        return Some(after);
    }
    skip_comment(text)
}

fn skip_three(quote: char, text: &[char]) -> Option<&[char]>
    ensures { Ends (three quote) text.now result }
{
    let one = accept(text, quote)?;
    let two = accept(one, quote)?;
    accept(two, quote)
}

fn skip_open(enclosure: Enclosure, text: &[char]) -> Option<&[char]>
    ensures { Ends (open_of enclosure) text.now result }
{
    match enclosure {
        Enclosure::Iri => accept(text, '<'),
        Enclosure::Single => accept(text, '\''),
        Enclosure::Double => accept(text, '"'),
        Enclosure::LongSingle => skip_three('\'', text),
        Enclosure::LongDouble => skip_three('"', text),
        Enclosure::Anonymous => accept(text, '['),
    }
}

fn skip_close(enclosure: Enclosure, text: &[char]) -> Option<&[char]>
    ensures { Ends (close_of enclosure) text.now result }
{
    match enclosure {
        Enclosure::Iri => accept(text, '>'),
        Enclosure::Single => accept(text, '\''),
        Enclosure::Double => accept(text, '"'),
        Enclosure::LongSingle => skip_three('\'', text),
        Enclosure::LongDouble => skip_three('"', text),
        Enclosure::Anonymous => accept(text, ']'),
    }
}

fn skip_piece(enclosure: Enclosure, text: &[char]) -> Option<&[char]>
    ensures { Ends (piece_of enclosure) text.now result }
{
    match enclosure {
        Enclosure::Iri => skip_iri_piece(text),
        Enclosure::Single => skip_string_piece(Class::InSingle, text),
        Enclosure::Double => skip_string_piece(Class::InDouble, text),
        Enclosure::LongSingle => skip_long_piece('\'', Class::InLongSingle, text),
        Enclosure::LongDouble => skip_long_piece('"', Class::InLongDouble, text),
        Enclosure::Anonymous => skip_blank(text),
    }
}

/// Skips the rest of a delimited terminal, after its opening delimiter.
fn skip_inside(enclosure: Enclosure, text: &[char]) -> Option<&[char]>
    ensures { Ends (inside_of enclosure) text.now result }
{
    let mut rest = text;
    'pieces: loop {
        if let Some(end) = skip_close(enclosure, rest) {
            return Some(end);
        }
        rest = skip_piece(enclosure, rest)?;
    }
}

/// Returns the text after a terminal with these delimiters, or None if the text begins with none.
pub fn skip_enclosed(enclosure: Enclosure, text: &[char]) -> Option<&[char]>
    ensures { Ends (open_of enclosure ▸ inside_of enclosure) text.now result }
{
    let inside = skip_open(enclosure, text)?;
    skip_inside(enclosure, inside)
}
