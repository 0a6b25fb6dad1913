//! Character classes.

ghost use Rattle.std.specs.Prelude.{◌≡◌};
ghost use Rattle.rdf_core.specs.Characters.{in_ranges};
ghost use Rattle.sparql_lexer.specs.Characters.{is_digit, is_letter, is_variable_part, is_local_escape, is_long_character, is_escape_letter, is_space, is_line_end};
ghost use Rattle.sparql_lexer.specs.Classes.{members};

use rdf_core::lexical::{
    echar, is_hex, is_iri_char, is_joining, is_name_char, is_name_start, is_pn_chars_base,
    is_quoted_char,
};

/// A character class of the productions.
#[derive(Clone, Copy)]
pub enum Class {
    Digit,
    Dot,
    NameOrDot,
    Letter,
    LetterOrDigit,
    Hex,
    Base,
    LabelStart,
    VariablePart,
    NamePart,
    LocalStart,
    LocalPart,
    LocalEscape,
    VariableSign,
    PlusOrMinus,
    ExponentLetter,
    InIri,
    InSingle,
    InDouble,
    InLongSingle,
    InLongDouble,
    EscapeLetter,
    Space,
    LineEnd,
    InComment,
}

const LOCAL_ESCAPES: [(u32, u32); 7] = [
    (33, 33),
    (35, 47),
    (59, 59),
    (61, 61),
    (63, 64),
    (95, 95),
    (126, 126),
];

fn in_ranges(ranges: &[(u32, u32)], c: char) -> bool
    ensures { result ≡ in_ranges ranges.now c }
{
    let number = c as u32;
    ranges.iter().any(|r| r.0 <= number && number <= r.1)
}

fn is_digit(c: char) -> bool
    ensures { result ≡ is_digit c }
{
    c >= '0' && c <= '9'
}

fn is_letter(c: char) -> bool
    ensures { result ≡ is_letter c }
{
    c >= 'A' && c <= 'Z' || c >= 'a' && c <= 'z'
}

fn is_variable_part(c: char) -> bool
    ensures { result ≡ is_variable_part c }
{
    is_name_start(c) || is_joining(c)
}

fn is_local_escape(c: char) -> bool
    ensures { result ≡ is_local_escape c }
{
    in_ranges(&LOCAL_ESCAPES, c)
}

fn is_long_character(quote: char, c: char) -> bool
    ensures { result ≡ is_long_character quote c }
{
    !(c == quote || c == '\\')
}

fn is_escape_letter(c: char) -> bool
    ensures { result ≡ is_escape_letter c }
{
    echar(c).is_some()
}

fn is_space(c: char) -> bool
    ensures { result ≡ is_space c }
{
    c == ' ' || (c == '\t' || (c == '\r' || c == '\n'))
}

fn is_line_end(c: char) -> bool
    ensures { result ≡ is_line_end c }
{
    c == '\r' || c == '\n'
}

/// Returns whether the character is in the class.
pub fn is_member(class: Class, c: char) -> bool
    ensures { result ≡ members class c }
{
    match class {
        Class::Digit => is_digit(c),
        Class::Dot => c == '.',
        Class::NameOrDot => is_name_char(c) || c == '.',
        Class::Letter => is_letter(c),
        Class::LetterOrDigit => is_letter(c) || is_digit(c),
        Class::Hex => is_hex(c),
        Class::Base => is_pn_chars_base(c),
        Class::LabelStart => is_name_start(c),
        Class::VariablePart => is_variable_part(c),
        Class::NamePart => is_name_char(c),
        Class::LocalStart => is_name_start(c) || c == ':',
        Class::LocalPart => is_name_char(c) || c == ':',
        Class::LocalEscape => is_local_escape(c),
        Class::VariableSign => c == '?' || c == '$',
        Class::PlusOrMinus => c == '+' || c == '-',
        Class::ExponentLetter => c == 'e' || c == 'E',
        Class::InIri => is_iri_char(c),
        Class::InSingle => is_quoted_char('\'', c),
        Class::InDouble => is_quoted_char('"', c),
        Class::InLongSingle => is_long_character('\'', c),
        Class::InLongDouble => is_long_character('"', c),
        Class::EscapeLetter => is_escape_letter(c),
        Class::Space => is_space(c),
        Class::LineEnd => is_line_end(c),
        Class::InComment => !is_line_end(c),
    }
}
