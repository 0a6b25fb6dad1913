//! Texts in one buffer.
ghost use Rattle.std.specs.Prelude.{◌≡◌, ◌<◌, ◌≤◌, ◌^◌, ◌++◌, ◌∷◌, [], List, length, take, slice_get, get_or, Some, OnOk, OnErr};
ghost use Rattle.text_dict.specs.Texts.{AreEnds, texts_after};

use std::alloc::{AllocError, Global};
use std::marker::Model;

/// Texts by number, which follow each other in one buffer. In contracts this type is their list.
pub struct Texts {
    bytes: Vec<u8>,
    ends: Vec<usize>,
}

impl Drop for Texts {
    /// Frees the buffers. Written by hand (docs/PROOF.md).
    fn drop(self) {
        let Texts { bytes: _, ends: _ } = self;
    }
}

impl Model for Texts {
    ghost use Rattle.std.specs.Prelude.{List, ℕ, length};
    ghost use Rattle.text_dict.specs.Texts.{AreEnds, texts_after};

    ghost Value = { List (List ℕ) };

    ghost view = { λ t. texts_after t.bytes.items 0 t.ends.items };

    ghost invariant = { λ t. AreEnds 0 t.ends.items (length t.bytes.items) };
}

impl Texts {
    /// Creates an empty list of texts. Allocates nothing.
    pub fn new(alloc: Global) -> Texts
        ensures empty { result ≡ [] }
    {
        Texts {
            bytes: Vec::new(alloc),
            ends: Vec::new(alloc),
        }
    }

    /// Returns the number of texts.
    #[inline(always)]
    pub fn len(&self) -> usize
        ensures value { result ≡ length self.now }
        ensures small { result < 2 ^ 63 }
    {
        self.ends.len()
    }

    /// Returns the text with this number.
    ///
    /// # Requires
    /// The number is below `len`.
    #[inline(always)]
    pub fn text(&self, n: usize) -> &[u8]
        requires within { n < length self.now }
        ensures value { slice_get self.now n ≡ Some result.now }
    {
        text_at(self.bytes.as_slice(), self.ends.as_slice(), n)
    }

    /// Appends a text.
    ///
    /// # Errors
    /// `AllocError` if an allocation fails. The texts are unchanged.
    pub fn push(&mut self, text: &[u8]) -> Result<(), AllocError>
        ensures pushed { OnOk result (self.new ≡ self.old ++ text.now ∷ []) }
        ensures unchanged { OnErr result (self.new ≡ self.old) }
    {
        self.ends.reserve(1)?;
        self.bytes.extend_from_slice(text)?;
        self.ends.push_reserved(self.bytes.len());
        Ok(())
    }

    /// Removes the texts from this number on.
    pub fn truncate(&mut self, len: usize)
        ensures value { self.new ≡ take len self.old }
    {
        if len >= self.ends.len() {
            return;
        }
        self.bytes.truncate(start_of(self.ends.as_slice(), len));
        self.ends.truncate(len);
    }
}

/// Returns where the text with this number begins.
#[inline(always)]
fn start_of(ends: &[usize], n: usize) -> usize
    requires within { n < length ends.now }
    ensures value { result ≡ get_or (0 ∷ ends.now) n 0 }
{
    if n == 0 { 0 } else { ends[n - 1] }
}

/// Returns the text with this number, given the fields.
#[inline(always)]
fn text_at<'a>(bytes: &'a [u8], ends: &[usize], n: usize) -> &'a [u8]
    requires ends { AreEnds 0 ends.now (length bytes.now) }
    requires within { n < length ends.now }
    ensures value { slice_get (texts_after bytes.now 0 ends.now) n ≡ Some result.now }
{
    &bytes[start_of(ends, n)..ends[n]]
}
