//! The start of a text: its first character, a given character, or the characters of a class.

ghost use Rattle.std.specs.Prelude.{◌≡◌, Some, ℕ, List};
ghost use Rattle.sparql_lexer.specs.Pattern.{Pattern, character, is, many, some, ◌or◌, Ends, EndsAt};
ghost use Rattle.sparql_lexer.specs.Classes.{members};
ghost use Rattle.sparql_lexer.specs.NextCharacter.{IsNextCharacter};

use crate::classes::{Class, is_member};

/// Returns the first character and the text after it, or None if the text is empty.
pub fn next(text: &[char]) -> Option<(char, &[char])>
    ensures { IsNextCharacter text.now result }
{
    let (first, after) = text.split_first()?;
    Some((*first, after))
}

/// Returns the text after this character, or None if the text does not begin with it.
pub fn accept(text: &[char], expected: char) -> Option<&[char]>
    ensures { Ends (is expected) text.now result }
{
    let (first, after) = next(text)?;
    if first == expected { Some(after) } else { None }
}

/// Returns the text after one character of the class, or None if the text does not begin with one.
pub fn accept_one(class: Class, text: &[char]) -> Option<&[char]>
    ensures { Ends (character (members class)) text.now result }
{
    let (first, after) = next(text)?;
    if is_member(class, first) {
        Some(after)
    } else {
        None
    }
}

/// Skips all characters of the class at the start of the text. There may be none.
pub fn skip(class: Class, text: &[char]) -> &[char]
    ensures { EndsAt (many (character (members class))) text.now result.now }
{
    let mut rest = text;
    'run: while let Some(after) = accept_one(class, rest) {
        rest = after;
    }
    rest
}

/// Skips all characters of the class at the start of the text. Returns None if there are none.
pub fn skip_some(class: Class, text: &[char]) -> Option<&[char]>
    ensures { Ends (some (character (members class))) text.now result }
{
    let after = accept_one(class, text)?;
    Some(skip(class, after))
}

/// Returns the later of two ends, that is, the one with less text after it.
pub fn farther<'a>(one: Option<&'a [char]>, other: Option<&'a [char]>) -> Option<&'a [char]>
    ensures { (a b : Pattern) (text : List ℕ) → Ends a text one.entry → Ends b text other.entry → Ends (a or b) text result }
{
    let Some(end) = one else {
        return other;
    };
    let Some(farther) = other else {
        return Some(end);
    };
    if farther.len() < end.len() {
        Some(farther)
    } else {
        Some(end)
    }
}
