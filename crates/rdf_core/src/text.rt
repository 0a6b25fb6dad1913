//! Texts, which contracts view as UTF-8 bytes.
ghost use Rattle.std.specs.Prelude.{◌≡◌, IsUtf8, IfOk, Some, nat_eq, refl, string_bytes};
ghost use Rattle.std.specs.Ordering.{nat_cmp};
ghost use Rattle.std.specs.Hash as fed;
ghost use Rattle.std.specs.Cmp.Lexicographic.{pointwise, slice_cmp, nat_list_eq_equiv, nat_list_cmp_total, texts_ties, texts_po};
ghost use Rattle.std.specs.Cmp.{partial_equiv_from_equiv};
ghost use Rattle.std.specs.Cmp.Rules.{hashing};
ghost use Rattle.std.proofs.Common.{rules};

use std::alloc::{AllocError, Global};
use std::cmp::Ordering;
use std::fmt;
use std::hash::{Hash, Hasher};
use std::marker::Model;

/// A text: a blank node label, an IRI, a lexical form or a language tag.
///
/// A contract views it as its UTF-8 bytes. Equality, order and hash use these bytes.
pub struct Text {
    string: String,
}

impl Drop for Text {
    /// Drops the string. Written by hand (docs/PROOF.md).
    #[inline(always)]
    fn drop(self) {
        let Text { string: _ } = self;
    }
}

impl Model for Text {
    ghost use Rattle.std.specs.Prelude.{ℕ, List, string_bytes};

    ghost Value = { List ℕ };

    ghost view = { λ t. string_bytes t.string };
}

impl Text {
    /// Returns the text of a string. Allocates nothing.
    #[inline(always)]
    pub fn from_string(string: String) -> Text
        ensures value { result ≡ string_bytes string }
    {
        Text { string }
    }

    /// Returns the string of this text. Allocates nothing.
    #[inline(always)]
    pub fn into_string(self) -> String
        ensures value { string_bytes result ≡ self }
    {
        let Text { string } = self;
        string
    }

    /// Borrows the text as a string slice.
    #[inline(always)]
    pub fn as_str(&self) -> &str
        ensures value { result.now ≡ self.now }
    {
        self.string.as_str()
    }

    /// Returns an equal text that owns its bytes.
    ///
    /// # Errors
    /// `AllocError` if an allocation fails.
    pub fn copy(&self, alloc: Global) -> Result<Text, AllocError>
        ensures value { IfOk result (λ text. text ≡ self.now) }
    {
        Ok(Text {
            string: String::from_str(alloc, self.as_str())?,
        })
    }
}

impl PartialEq for Text {
    ghost eq = { pointwise nat_eq };

    ghost laws = { partial_equiv_from_equiv nat_list_eq_equiv };

    #[inline(always)]
    fn eq(&self, other: &Text) -> bool {
        self.as_str() == other.as_str()
    }
}

impl Eq for Text {
    ghost laws = { nat_list_eq_equiv };
}

impl PartialOrd for Text {
    ghost partial_cmp = { λ x y. Some (slice_cmp nat_cmp x y) };

    ghost laws = { texts_po };

    fn partial_cmp(&self, other: &Text) -> Option<Ordering> {
        Some(self.cmp(other))
    }
}

impl Ord for Text {
    ghost cmp = { slice_cmp nat_cmp };

    ghost total = { nat_list_cmp_total };

    ghost matches_partial_cmp = { λ x y. refl };

    ghost matches_eq = { texts_ties };

    fn cmp(&self, other: &Text) -> Ordering {
        self.as_str().cmp(other.as_str())
    }
}

impl Hash for Text {
    ghost hash_input = { fed.str };

    ghost respects_eq = { Prim.search (hashing, rules) };

    #[inline(always)]
    fn hash<H: Hasher>(&self, state: &mut H) {
        self.as_str().hash(state);
    }
}

impl fmt::Debug for Text {
    fn fmt<W: fmt::Write>(&self, f: &mut fmt::Formatter<W>) -> fmt::Result {
        f.write_str(self.as_str())
    }
}

impl fmt::Display for Text {
    ghost output = { λ text. Some text };

    fn fmt<W: fmt::Write>(&self, f: &mut fmt::Formatter<W>) -> fmt::Result {
        f.write_str(self.as_str())
    }
}
