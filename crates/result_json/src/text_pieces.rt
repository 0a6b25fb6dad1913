//! Terms as JSON in pieces, each term printed once. Workers print the pieces in parallel.
//!
//! A piece has consecutive terms and a buffer of its own for their texts. The shown terms of a piece
//! are printed in the order of their numbers, so they are read sequentially from memory.
ghost use Rattle.std.specs.Prelude.{◌≡◌, ◌⊎◌, ◌++◌, ◌<◌, [], length, All, IfErr, IfOk, MatchOption, None, OnOk, Some};
ghost use Rattle.dict_core.specs.Dict.{term_at};
ghost use Rattle.row_pieces.specs.How.{HasOneWorker, IsRunnable};
ghost use Rattle.row_pieces.specs.declared.fault.EvalFault.TheVariants.{Memory};
ghost use Rattle.result_json.specs.Ranks.{ranked_cell, terms_of};
ghost use Rattle.result_json.specs.Results.{term_text};

use crate::pieces::{piece, worker_piece_size};
use crate::term_texts::TermTexts;
use crate::values::put_term;
use piece_pool::{Job, JobFault, OpenGate, Outcome, run_all};
use rdf_core::Term;
use row_pieces::{EvalFault, How};
use std::alloc::{AllocError, Global};
use std::marker::Model;
use std::sync::Wait;
use std::thread::Threads;

/// Returns the place of a rank's term in the list, or None if the rank has no term.
pub(crate) fn place_of(terms: &[(&Term, u64)], rank: u64) -> Option<usize>
    ensures place { MatchOption result (ranked_cell (terms_of terms.now) rank ≡ None)
        (λ i. (i < length (terms_of terms.now))
        × (ranked_cell (terms_of terms.now) rank ≡ Some (term_at (terms_of terms.now) i))) }
{
    if rank == 0 || rank > terms.len() as u64 {
        None
    } else {
        Some((rank - 1) as usize)
    }
}

/// Returns the term at a place in the list.
fn term_of<'a>(terms: &[(&'a Term, u64)], place: usize) -> &'a Term
    requires inside { place < length (terms_of terms.now) }
    ensures term { result.now ≡ term_at (terms_of terms.now) place }
{
    terms[place].0
}

/// Returns the places of the shown terms, each after the number of its term, in ascending order of
/// these numbers. A term without a mark is not shown.
fn shown_places(
    alloc: Global,
    terms: &[(&Term, u64)],
    shown: &[bool],
) -> Result<Vec<(u64, usize)>, AllocError>
    ensures inside { IfOk result
        (λ places. All (λ e. e.1 < length (terms_of terms.now)) places.items) }
{
    let mut places = Vec::new(alloc);
    for place in 0..terms.len().min(shown.len()) {
        if shown[place] {
            places.push((terms[place].1, place))?;
        }
    }
    places.sort_unstable();
    Ok(places)
}

/// Returns the table of the terms, in which the shown ones are printed. They are printed in the
/// order of their numbers.
fn shown_texts<'a>(
    alloc: Global,
    terms: &'a [(&'a Term, u64)],
    shown: &[bool],
) -> Result<TermTexts<'a>, AllocError>
    ensures terms { IfOk result (λ texts. texts ≡ terms_of terms.now) }
{
    let places = shown_places(alloc, terms, shown)?;
    let mut texts = TermTexts::new(alloc, terms)?;
    for (_number, place) in &places {
        texts.print(alloc, *place)?;
    }
    Ok(texts)
}

/// The terms of a result in pieces of `size` terms, each term with a mark that says whether it is
/// shown. The output of a piece has the texts of its shown terms.
#[derive(Drop)]
struct ShownPieces<'a, 's> {
    terms: &'a [(&'a Term, u64)],
    shown: &'s [bool],
    size: usize,
}

impl<'a, 's> Job for ShownPieces<'a, 's> {
    ghost use Rattle.std.specs.Prelude.{◌≡◌};
    ghost use Rattle.row_pieces.specs.Pieces.{piece_of};
    ghost use Rattle.result_json.specs.Ranks.{terms_of};

    type Out = TermTexts<'a>;

    type Fault = ();

    ghost answers = { λ job i out. out ≡ terms_of (piece_of job.size i job.terms.now) };

    ghost faults = { λ _ _ _. ⊥ };

    fn run(&self, alloc: Global, i: u64) -> Result<TermTexts<'a>, JobFault<()>> {
        let terms = piece(self.terms, self.size, i);
        let shown = piece(self.shown, self.size, i);
        Ok(shown_texts(alloc, terms, shown)?)
    }

    ghost exclusive = { λ job i out fault _ absurd. absurd };
}

/// Terms, with the texts of those that are printed, in pieces of `size` terms. The last piece may
/// have fewer. In contracts this type is the list of the terms.
pub(crate) struct TextPieces<'a> {
    terms: &'a [(&'a Term, u64)],
    pieces: Vec<TermTexts<'a>>,
    size: usize,
}

impl<'a> Drop for TextPieces<'a> {
    /// Drops the texts. Written by hand (docs/PROOF.md).
    fn drop(self) {
        let TextPieces {
            terms: _,
            pieces: _,
            size: _,
        } = self;
    }
}

impl<'a> Model for TextPieces<'a> {
    ghost use Rattle.std.specs.Prelude.{List};
    ghost use Rattle.rdf_core.specs.declared.term.Term.{Term};
    ghost use Rattle.result_json.specs.Ranks.{terms_of};
    ghost use Rattle.result_json.specs.Texts.{ArePieces};

    ghost Value = { List Term };

    ghost view = { λ t. terms_of t.terms.now };

    ghost invariant = { λ t. ArePieces t.size (terms_of t.terms.now) t.pieces.items };
}

impl<'a> TextPieces<'a> {
    /// Prints the terms whose mark says that they are shown. Each worker gets a piece of the terms,
    /// unless that has fewer terms than `how` has rows in a piece.
    ///
    /// # Requires
    /// `how` is within its limits.
    ///
    /// # Errors
    /// - `WorkerRefused` if a worker thread could not be started. It cannot occur with one worker.
    /// - `Memory` if an allocation fails.
    pub(crate) fn print<R: Threads + Wait>(
        rt: &R,
        alloc: Global,
        terms: &'a [(&'a Term, u64)],
        shown: &[bool],
        how: &How,
    ) -> Result<TextPieces<'a>, EvalFault>
        requires how { IsRunnable how.now }
        ensures terms { IfOk result (λ texts. texts ≡ terms_of terms.now) }
        ensures one_worker { HasOneWorker how.now → IfErr result (λ fault. fault ≡ Memory) }
    {
        let count = terms.len();
        let size = worker_piece_size(count, how);
        let number = count.div_ceil(size) as u64;
        let job = ShownPieces { terms, shown, size };
        match run_all(rt, alloc, how.workers, number, &job, &OpenGate)? {
            Outcome::All(pieces) => Ok(TextPieces {
                terms,
                pieces,
                size,
            }),
            Outcome::First { .. } => unreachable!(),
        }
    }

    /// Returns the place of a rank's term, or None if the rank has no term.
    pub(crate) fn place(&self, rank: u64) -> Option<usize>
        ensures place { MatchOption result (ranked_cell self.now rank ≡ None)
            (λ i. (i < length self.now) × (ranked_cell self.now rank ≡ Some (term_at self.now i))) }
    {
        place_of(self.terms, rank)
    }

    /// Returns the piece of the term at a place, and the place of the term in this piece.
    fn piece_at(&self, place: usize) -> (&TermTexts<'a>, usize)
        requires inside { place < length self.now }
        ensures inside { result.1 < length result.0.now }
        ensures term { term_at result.0.now result.1 ≡ term_at self.now place }
    {
        (&self.pieces[place / self.size], place % self.size)
    }

    /// Returns the text of the term at a place. It is empty if the term is not printed yet.
    pub(crate) fn printed(&self, place: usize) -> &[u8]
        requires inside { place < length self.now }
        ensures text { (result.now ≡ []) ⊎ (result.now ≡ term_text (term_at self.now place)) }
    {
        let (piece, place) = self.piece_at(place);
        piece.printed(place)
    }

    /// Prints the term at a place, whether it is printed already or not, and appends it.
    ///
    /// # Errors
    /// `AllocError` if an allocation fails.
    pub(crate) fn put(
        &self,
        alloc: Global,
        out: &mut Vec<u8>,
        place: usize,
    ) -> Result<(), AllocError>
        requires inside { place < length self.now }
        ensures text { OnOk result
            (out.new.items ≡ out.old.items ++ term_text (term_at self.now place)) }
    {
        put_term(alloc, out, term_of(self.terms, place))
    }
}
