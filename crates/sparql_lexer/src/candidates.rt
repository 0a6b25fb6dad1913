//! The longest of several terminals at one place.

ghost use Rattle.std.specs.Prelude.{ℕ, List, Bool, nat_eq};
ghost use Rattle.sparql_lexer.specs.Candidates.{LongestOf, IsRow, IsLongestTerminal, row, either, name_rows, number_rows, signed_rows, enclosed_rows, marked_rows};
ghost use Rattle.sparql_lexer.specs.Colonless.{HasNoNamespace};
ghost use Rattle.sparql_lexer.specs.Names.{namespace, prefixed_name};
ghost use Rattle.sparql_lexer.specs.Enclosed.{short_string, long_string};
ghost use Rattle.sparql_lexer.specs.Pattern.{Pattern, Ends, ◌or◌};

use crate::cursor::farther;
use crate::enclosed::{Enclosure, skip_enclosed};
use crate::names::{
    skip_blank_label, skip_language_tag, skip_namespace, skip_prefixed_name, skip_variable,
};
use crate::numbers::{NumberForm, skip_number, skip_signed};
use crate::signs::scan_sign;
use crate::token::Kind;
use crate::words::scan_word;

/// Returns a terminal of this kind that ends at `end`, if there is an end.
pub fn of_kind(kind: Kind, end: Option<&[char]>) -> Option<(Kind, &[char])>
    ensures { (a : Pattern) (text : List ℕ) → IsRow kind a → Ends a text end.entry → LongestOf (nat_eq (row kind)) text result }
{
    match end {
        Some(rest) => Some((kind, rest)),
        None => None,
    }
}

/// Returns the longer of two terminals at one place.
pub fn longer<'a>(
    one: Option<(Kind, &'a [char])>,
    other: Option<(Kind, &'a [char])>,
) -> Option<(Kind, &'a [char])>
    ensures { (m n : ℕ → Bool) (text : List ℕ) → LongestOf m text one.entry → LongestOf n text other.entry → LongestOf (either m n) text result }
{
    let Some((kind, end)) = one else {
        return other;
    };
    let Some((longer, farther)) = other else {
        return Some((kind, end));
    };
    if farther.len() < end.len() {
        Some((longer, farther))
    } else {
        Some((kind, end))
    }
}

/// Skips the [140] PNAME_NS at the start of the text, unless the text begins before `end`.
fn skip_namespace_from<'a>(text: &'a [char], end: &[char]) -> Option<&'a [char]>
    requires { HasNoNamespace text.now end.now }
    ensures { Ends namespace text.now result }
{
    if end.len() < text.len() {
        None
    } else {
        skip_namespace(text)
    }
}

fn skip_prefixed_name_from<'a>(text: &'a [char], end: &[char]) -> Option<&'a [char]>
    requires { HasNoNamespace text.now end.now }
    ensures { Ends prefixed_name text.now result }
{
    if end.len() < text.len() {
        None
    } else {
        skip_prefixed_name(text)
    }
}

fn scan_name<'a>(text: &'a [char], end: &[char]) -> Option<(Kind, &'a [char])>
    requires { HasNoNamespace text.now end.now }
    ensures { LongestOf name_rows text.now result }
{
    let word = scan_word(text);
    let namespace = of_kind(Kind::PrefixedNamespace, skip_namespace_from(text, end));
    let name = of_kind(Kind::PrefixedName, skip_prefixed_name_from(text, end));
    longer(word, longer(namespace, name))
}

fn scan_number(text: &[char]) -> Option<(Kind, &[char])>
    ensures { LongestOf number_rows text.now result }
{
    let integer = of_kind(Kind::Integer, skip_number(NumberForm::Integer, text));
    let decimal = of_kind(Kind::Decimal, skip_number(NumberForm::Decimal, text));
    let double = of_kind(Kind::Double, skip_number(NumberForm::Double, text));
    longer(integer, longer(decimal, double))
}

fn scan_signed(text: &[char]) -> Option<(Kind, &[char])>
    ensures { LongestOf signed_rows text.now result }
{
    let integer = of_kind(Kind::SignedInteger, skip_signed(NumberForm::Integer, text));
    let decimal = of_kind(Kind::SignedDecimal, skip_signed(NumberForm::Decimal, text));
    let double = of_kind(Kind::SignedDouble, skip_signed(NumberForm::Double, text));
    longer(integer, longer(decimal, double))
}

fn skip_short(text: &[char]) -> Option<&[char]>
    ensures { Ends (short_string 39 or short_string 34) text.now result }
{
    let single = skip_enclosed(Enclosure::Single, text);
    let double = skip_enclosed(Enclosure::Double, text);
    farther(single, double)
}

fn skip_long(text: &[char]) -> Option<&[char]>
    ensures { Ends (long_string 39 or long_string 34) text.now result }
{
    let single = skip_enclosed(Enclosure::LongSingle, text);
    let double = skip_enclosed(Enclosure::LongDouble, text);
    farther(single, double)
}

fn scan_enclosed(text: &[char]) -> Option<(Kind, &[char])>
    ensures { LongestOf enclosed_rows text.now result }
{
    let iri = of_kind(Kind::IriRef, skip_enclosed(Enclosure::Iri, text));
    let anonymous = of_kind(Kind::Anonymous, skip_enclosed(Enclosure::Anonymous, text));
    let short = of_kind(Kind::ShortString, skip_short(text));
    let long = of_kind(Kind::LongString, skip_long(text));
    longer(longer(iri, anonymous), longer(short, long))
}

fn scan_marked(text: &[char]) -> Option<(Kind, &[char])>
    ensures { LongestOf marked_rows text.now result }
{
    let variable = of_kind(Kind::Variable, skip_variable(text));
    let label = of_kind(Kind::BlankLabel, skip_blank_label(text));
    let tag = of_kind(Kind::LanguageTag, skip_language_tag(text));
    longer(variable, longer(label, tag))
}

/// Returns the kind of the longest terminal at the start of the text, and the text after it.
/// Returns None if the text begins with no terminal. No PNAME_NS begins in the text before `end`.
pub fn scan_terminal<'a>(text: &'a [char], end: &[char]) -> Option<(Kind, &'a [char])>
    requires { HasNoNamespace text.now end.now }
    ensures { IsLongestTerminal text.now result }
{
    let name = scan_name(text, end);
    let number = longer(scan_number(text), scan_signed(text));
    let other = longer(scan_enclosed(text), scan_marked(text));
    let sign = scan_sign(text);
    longer(name, longer(number, longer(other, sign)))
}
