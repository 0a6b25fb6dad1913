//! Terms as JSON, each printed once.
ghost use Rattle.std.specs.Prelude.{◌≡◌, ◌⊎◌, ◌<◌, [], length, IfOk};
ghost use Rattle.dict_core.specs.Dict.{term_at};
ghost use Rattle.result_json.specs.Ranks.{terms_of};
ghost use Rattle.result_json.specs.Results.{term_text};

use crate::values::put_term;
use rdf_core::Term;
use std::alloc::{AllocError, Global};
use std::marker::Model;

/// Terms, with the texts of those that are printed already, all in one buffer. In contracts this
/// type is the list of the terms.
pub(crate) struct TermTexts<'a> {
    terms: &'a [(&'a Term, u64)],
    /// The texts, in the order in which they were printed.
    printed: Vec<u8>,
    /// The buffer in which a text is printed before it is appended to the others. They are
    /// unchanged if an allocation fails halfway.
    latest: Vec<u8>,
    /// The beginning and the end of each term's text. They are equal if the term is not printed
    /// yet.
    spans: Vec<(usize, usize)>,
}

impl<'a> Drop for TermTexts<'a> {
    /// Drops the texts. Written by hand (docs/PROOF.md).
    fn drop(self) {
        let TermTexts {
            terms: _,
            printed: _,
            latest: _,
            spans: _,
        } = self;
    }
}

impl<'a> Model for TermTexts<'a> {
    ghost use Rattle.std.specs.Prelude.{List};
    ghost use Rattle.rdf_core.specs.declared.term.Term.{Term};
    ghost use Rattle.result_json.specs.Ranks.{terms_of};
    ghost use Rattle.result_json.specs.Texts.{ArePrinted};

    ghost Value = { List Term };

    ghost view = { λ t. terms_of t.terms.now };

    ghost invariant = { λ t. ArePrinted (terms_of t.terms.now) t.printed.items t.spans.items };
}

impl<'a> TermTexts<'a> {
    /// Creates the table of the terms. None is printed yet.
    ///
    /// # Errors
    /// `AllocError` if an allocation fails.
    pub(crate) fn new(
        alloc: Global,
        terms: &'a [(&'a Term, u64)],
    ) -> Result<TermTexts<'a>, AllocError>
        ensures terms { IfOk result (λ made. made ≡ terms_of terms.now) }
    {
        let spans = vec![in alloc; (0, 0); terms.len()]?;
        let printed = Vec::new(alloc);
        let latest = Vec::new(alloc);
        Ok(TermTexts {
            terms,
            printed,
            latest,
            spans,
        })
    }

    /// Prints the term at a place, if it is not printed yet.
    ///
    /// # Errors
    /// `AllocError` if an allocation fails.
    pub(crate) fn print(&mut self, alloc: Global, place: usize) -> Result<(), AllocError>
        requires inside { place < length self.old }
        ensures same { self.new ≡ self.old }
    {
        let (start, end) = self.spans[place];
        if start < end {
            return Ok(());
        }
        let term = self.terms[place].0;
        self.latest.clear();
        put_term(alloc, &mut self.latest, term)?;
        let start = self.printed.len();
        self.printed.extend_from_slice(&self.latest)?;
        self.spans[place] = (start, self.printed.len());
        Ok(())
    }

    /// Returns the text of the term at a place. It is empty if the term is not printed yet.
    pub(crate) fn printed(&self, place: usize) -> &[u8]
        requires inside { place < length self.now }
        ensures text { (result.now ≡ []) ⊎ (result.now ≡ term_text (term_at self.now place)) }
    {
        let (start, end) = self.spans[place];
        if start < end {
            &self.printed[start..end]
        } else {
            &[]
        }
    }
}
