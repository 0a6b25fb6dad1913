//! Places at which a document in memory is split.
ghost use Rattle.std.specs.Prelude.{◌≡◌, ◌↔◌, ◌+◌, ◌<◌, ◌≤◌, IfOk, IsSome, IfSome, IsTrue, length};
ghost use Rattle.piece_cuts.specs.Cuts.{AreCuts, AreEveryFrom, piece_at};

use crate::places::{are_cuts, bounds, next_cut};
use std::alloc::{AllocError, Global};
use std::marker::Model;

/// Places at which a document is split into pieces. In contracts this type is the list of the
/// places.
#[derive(Drop)]
pub struct Cuts {
    places: Vec<usize>,
}

impl Model for Cuts {
    ghost use Rattle.std.specs.Prelude.{List, ℕ};

    ghost Value = { List ℕ };

    ghost view = { λ cuts. cuts.places.items };
}

impl Cuts {
    /// Splits a document after each line feed that makes a piece of at least `size` bytes. A line
    /// feed at the end of the document is no cut. Only the piece of an empty document is thus
    /// empty. The result fits this document (`fits`), so callers need not check it.
    ///
    /// # Requires
    /// `size` is 1 or more.
    ///
    /// # Errors
    /// `AllocError` if an allocation fails.
    pub fn every(alloc: Global, doc: &[u8], size: usize) -> Result<Cuts, AllocError>
        requires some { 1 ≤ size }
        ensures places { IfOk result (AreEveryFrom doc.now size 0) }
        ensures fits { IfOk result (AreCuts doc.now) }
    {
        let mut places = Vec::new(alloc);
        let mut start = 0;
        while let Some(place) = next_cut(doc, start, size) {
            places.push(place)?;
            start = place;
        }
        Ok(Cuts { places })
    }

    /// Creates cuts from a list of places, or returns None and drops the list if they do not fit
    /// the document. They fit it if all of these are true:
    ///
    /// - They increase strictly.
    /// - Each is above 0 and below the length of the document.
    /// - The byte before each is a line feed.
    ///
    /// The empty list makes one piece.
    pub fn of(doc: &[u8], places: Vec<usize>) -> Option<Cuts>
        ensures valid { IsSome result ↔ AreCuts doc.now places.items }
        ensures value { IfSome result (λ cuts. cuts ≡ places.items) }
    {
        if are_cuts(doc, &places) {
            Some(Cuts { places })
        } else {
            None
        }
    }

    /// Returns whether these places are cuts of this document, with the conditions of [`Cuts::of`].
    pub fn fits(&self, doc: &[u8]) -> bool
        ensures value { IsTrue result ↔ AreCuts doc.now self.now }
    {
        are_cuts(doc, &self.places)
    }

    /// Returns the number of pieces. It is the number of places plus one.
    pub fn pieces(&self) -> u64
        ensures value { result ≡ length self.now + 1 }
    {
        self.places.len() as u64 + 1
    }

    /// Returns the bytes of piece `i`, counted from 0. It begins at the place before it, or at the
    /// start of the document. It ends at the next place, or at the end of the document.
    ///
    /// # Requires
    /// These are cuts of the document (`fits`), and `i` is below `pieces`.
    pub fn piece<'a>(&self, doc: &'a [u8], i: u64) -> &'a [u8]
        requires fits { AreCuts doc.now self.now }
        requires inside { i < length self.now + 1 }
        ensures bytes { result.now ≡ piece_at doc.now self.now i }
    {
        let (from, to) = bounds(doc, &self.places, i as usize);
        &doc[from..to]
    }
}
