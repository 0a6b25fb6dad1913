//! Prefixed names, variables, blank node labels and language tags.

ghost use Rattle.std.specs.Prelude.{◌≡◌, ◌∷◌, Some, true, ℕ, List};
ghost use Rattle.sparql_lexer.specs.Colonless.{HasSuffix, HasNoNamespace, NameEndsAt, is_name_or_dot};
ghost use Rattle.sparql_lexer.specs.Characters.{is_local_start};
ghost use Rattle.sparql_lexer.specs.Pattern.{character, many, ◌or◌, Ends, EndsAt};
ghost use Rattle.sparql_lexer.specs.Names.{local_escape, tail, namespace, local, prefixed_name, blank_label, variable, subtag, language_tag};
ghost use Rattle.sparql_lexer.specs.Forms.{part_of};

use crate::classes::Class;
use crate::cursor::{accept, accept_one, skip, skip_some};

/// The characters that a name may have after its first: those of a prefix or a label, or those of a
/// local name.
#[derive(Clone, Copy)]
pub enum Part {
    Name,
    Local,
}

fn skip_local_escape(text: &[char]) -> Option<&[char]>
    ensures { Ends local_escape text.now result }
{
    if let Some(digits) = accept(text, '%') {
        let last = accept_one(Class::Hex, digits)?;
        return accept_one(Class::Hex, last);
    }
    let after = accept(text, '\\')?;
    accept_one(Class::LocalEscape, after)
}

fn skip_part(part: Part, text: &[char]) -> Option<&[char]>
    ensures { Ends (part_of part) text.now result }
{
    match part {
        Part::Name => accept_one(Class::NamePart, text),
        Part::Local => {
            if let Some(after) = accept_one(Class::LocalPart, text) {
                return Some(after);
            }
            skip_local_escape(text)
        }
    }
}

/// Skips all parts at the start of the text, and the dots between them. A dot after the last part
/// is not skipped.
fn skip_tail(part: Part, text: &[char]) -> &[char]
    ensures { EndsAt (tail (part_of part)) text.now result.now }
{
    let mut rest = text;
    'parts: loop {
        let place = skip(Class::Dot, rest);
        let Some(after) = skip_part(part, place) else {
            return rest;
        };
        rest = after;
    }
}

/// Returns the text after a [140] PNAME_NS, or None if the text begins with none.
pub fn skip_namespace(text: &[char]) -> Option<&[char]>
    ensures { Ends namespace text.now result }
{
    if let Some(after) = accept(text, ':') {
        return Some(after);
    }
    let start = accept_one(Class::Base, text)?;
    let end = skip_tail(Part::Name, start);
    accept(end, ':')
}

fn skip_local_start(text: &[char]) -> Option<&[char]>
    ensures { Ends (character is_local_start or local_escape) text.now result }
{
    if let Some(after) = accept_one(Class::LocalStart, text) {
        return Some(after);
    }
    skip_local_escape(text)
}

fn skip_local(text: &[char]) -> Option<&[char]>
    ensures { Ends local text.now result }
{
    let after = skip_local_start(text)?;
    Some(skip_tail(Part::Local, after))
}

/// Returns the text after a [141] PNAME_LN, or None if the text begins with none.
pub fn skip_prefixed_name(text: &[char]) -> Option<&[char]>
    ensures { Ends prefixed_name text.now result }
{
    let after = skip_namespace(text)?;
    skip_local(after)
}

/// Returns the text after a [142] BLANK_NODE_LABEL, or None if the text begins with none.
pub fn skip_blank_label(text: &[char]) -> Option<&[char]>
    ensures { Ends blank_label text.now result }
{
    let colon = accept(text, '_')?;
    let label = accept(colon, ':')?;
    let after = accept_one(Class::LabelStart, label)?;
    Some(skip_tail(Part::Name, after))
}

/// Returns the text after a [143] VAR1 or [144] VAR2, or None if the text begins with none.
pub fn skip_variable(text: &[char]) -> Option<&[char]>
    ensures { Ends variable text.now result }
{
    let name = accept_one(Class::VariableSign, text)?;
    let after = accept_one(Class::LabelStart, name)?;
    Some(skip(Class::VariablePart, after))
}

/// Skips ('-' [a-zA-Z0-9]+)*.
fn skip_subtags(text: &[char]) -> &[char]
    ensures { EndsAt (many subtag) text.now result.now }
{
    let mut rest = text;
    'subtags: loop {
        let Some(hyphen) = accept(rest, '-') else {
            return rest;
        };
        let Some(after) = skip_some(Class::LetterOrDigit, hyphen) else {
            return rest;
        };
        rest = after;
    }
}

/// Returns the text after a [145] LANGTAG, or None if the text begins with none.
pub fn skip_language_tag(text: &[char]) -> Option<&[char]>
    ensures { Ends language_tag text.now result }
{
    let tag = accept(text, '@')?;
    let first = skip_some(Class::Letter, tag)?;
    Some(skip_subtags(first))
}

/// Returns whether the last character before `end` is a dot.
fn ends_with_dot(text: &[char], end: &[char]) -> bool
    requires { HasSuffix text.now end.now }
    ensures { result ≡ true → HasSuffix text.now (46 ∷ end.now) }
{
    end.len() < text.len() && text[text.len() - end.len() - 1] == '.'
}

/// Returns a place before which no PNAME_NS begins, given the `end` of the run of name characters
/// and dots at the start of the text.
///
/// A PNAME_NS is a name followed by a colon, and no name ends with a dot. Therefore no PNAME_NS
/// begins in the run if no colon follows it or if it ends with a dot. Otherwise one may begin at
/// once, and the function returns the text itself.
pub fn clear_end<'a>(text: &'a [char], end: &'a [char]) -> &'a [char]
    requires { EndsAt (many (character is_name_or_dot)) text.now end.now }
    ensures { HasNoNamespace text.now result.now }
{
    match accept(end, ':') {
        None => end,
        Some(_) if ends_with_dot(text, end) => end,
        Some(_) => text,
    }
}

/// Returns the end of the run of name characters and dots at a place, given the `end` of the run at
/// an earlier place.
///
/// A place before that end is in the earlier run, and both runs end at the same place. A long run
/// is therefore scanned once, not again from each terminal in it.
pub fn run_end<'a>(place: &'a [char], end: &'a [char]) -> &'a [char]
    ensures { (text : List ℕ) → HasSuffix text place.now → NameEndsAt text end.now → EndsAt (many (character is_name_or_dot)) place.now result.now }
{
    if end.len() < place.len() {
        end
    } else {
        skip(Class::NameOrDot, place)
    }
}
