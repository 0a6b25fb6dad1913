//! Places and names in notes.
ghost use Rattle.std.specs.Prelude.{◌≡◌, ◌<◌, IfOk, length, min, slice_index_or};
ghost use Rattle.std.specs.Str.{chars};
ghost use Rattle.query_diagnosis.specs.Position.{IsPosition};
ghost use Rattle.query_notes.specs.declared.texts.Terminal.{Terminal};

use query_diagnosis::{Position, offset_of, position_of};
use sparql_lexer::{Kind, characters_of, scan_text, text_of};
use std::alloc::{AllocError, Global};

/// A terminal of a query, with the number of characters before it and up to its end.
#[derive(Clone, Copy)]
pub struct Terminal {
    /// Which terminal it is.
    pub kind: Kind,
    /// The number of characters before it.
    pub start: usize,
    /// The number of characters up to its end.
    pub end: usize,
}

/// The text of a query and its terminals.
#[derive(Drop)]
pub struct Text {
    /// The characters of the text.
    pub characters: Vec<char>,
    /// The terminals, in the order of the text.
    pub terminals: Vec<Terminal>,
}

/// Returns the terminals of a text, with their places.
fn terminals_of(alloc: Global, characters: &[char]) -> Result<Vec<Terminal>, AllocError> {
    let scan = scan_text(alloc, characters)?;
    let mut terminals = Vec::with_capacity(alloc, scan.tokens.len())?;
    let mut end: usize = 0;
    for token in &scan.tokens {
        let rest = characters.get(end..).unwrap_or(&[]);
        let start = end.saturating_add(offset_of(rest, &[], 0));
        end = start.saturating_add(token.text.len());
        terminals.push(Terminal {
            kind: token.kind,
            start,
            end,
        })?;
    }
    Ok(terminals)
}

impl Text {
    /// Splits a text into its terminals.
    ///
    /// # Errors
    /// `AllocError` if an allocation fails.
    pub(crate) fn new(alloc: Global, text: &str) -> Result<Text, AllocError>
        ensures characters { IfOk result (λ made. made.characters.items ≡ chars text.now) }
    {
        let characters = characters_of(alloc, text)?;
        let terminals = terminals_of(alloc, &characters)?;
        Ok(Text {
            characters,
            terminals,
        })
    }

    /// Returns the line and the column of the terminal at a place.
    pub(crate) fn position(&self, at: usize) -> Position
        ensures position { (other : Terminal) → at < length self.now.terminals.items
            → IsPosition self.now.characters.items (min (slice_index_or self.now.terminals.items at other).start (length self.now.characters.items)) result }
    {
        let offset = match self.terminals.get(at) {
            Some(terminal) => terminal.start,
            None => self.characters.len(),
        };
        position_of(&self.characters, offset)
    }

    /// Returns the characters of the terminal at a place, or none.
    pub(crate) fn characters_at(&self, at: usize) -> &[char] {
        match self.terminals.get(at) {
            Some(terminal) => self
                .characters
                .get(terminal.start..terminal.end)
                .unwrap_or(&[]),
            None => &[],
        }
    }

    /// Returns the terminal at a place, as it is in the text.
    ///
    /// # Errors
    /// `AllocError` if an allocation fails.
    pub(crate) fn written(&self, alloc: Global, at: usize) -> Result<String, AllocError> {
        text_of(alloc, self.characters_at(at))
    }

    /// Returns the kind of the terminal at a place.
    pub(crate) fn kind_at(&self, at: usize) -> Option<Kind> {
        match self.terminals.get(at) {
            Some(terminal) => Some(terminal.kind),
            None => None,
        }
    }

    /// Returns the name of the variable at a place, without its sign. Returns None for another
    /// terminal.
    pub(crate) fn name_at(&self, at: usize) -> Option<&[char]> {
        if self.kind_at(at) == Some(Kind::Variable) {
            self.characters_at(at).get(1..)
        } else {
            None
        }
    }

    /// Returns the occurrences of all variables, sorted by name, those of one name in the order of
    /// the text.
    ///
    /// # Errors
    /// `AllocError` if an allocation fails.
    pub(crate) fn sorted_variables(
        &self,
        alloc: Global,
    ) -> Result<Vec<(&[char], usize)>, AllocError> {
        let mut found = Vec::new(alloc);
        for at in 0..self.terminals.len() {
            if let Some(name) = self.name_at(at) {
                found.push((name, at))?;
            }
        }
        found.sort()?;
        Ok(found)
    }

    /// Returns the places of each variable, in the order of the text. The variables are sorted by name.
    ///
    /// # Errors
    /// `AllocError` if an allocation fails.
    pub(crate) fn places_by_name(&self, alloc: Global) -> Result<Vec<Vec<usize>>, AllocError> {
        let sorted = self.sorted_variables(alloc)?;
        let mut names = Vec::new(alloc);
        let mut last: &[char] = &[];
        for (name, at) in &sorted {
            push_place(&mut names, alloc, *at, *name != last)?;
            last = name;
        }
        Ok(names)
    }

    /// Returns the first occurrence of the variable with this number in the plan: variables are
    /// numbered in the order of their first occurrences.
    ///
    /// # Errors
    /// `AllocError` if an allocation fails.
    pub(crate) fn variable(
        &self,
        alloc: Global,
        number: usize,
    ) -> Result<Option<usize>, AllocError> {
        let mut names = self.places_by_name(alloc)?;
        names.sort()?;
        match names.get(number) {
            Some(places) => Ok(places.first().copied()),
            None => Ok(None),
        }
    }
}

/// Appends a place to the last list, or to a new one.
fn push_place(
    names: &mut Vec<Vec<usize>>,
    alloc: Global,
    at: usize,
    is_new: bool,
) -> Result<(), AllocError> {
    if is_new {
        names.push(Vec::new(alloc))?;
    }
    match names.last_mut() {
        Some(places) => Ok(places.push(at)?),
        None => Ok(()),
    }
}
