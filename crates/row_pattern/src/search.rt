//! The depth-first search for the solutions of a pattern, one triple pattern after another, over
//! one row.
ghost use Rattle.std.specs.Prelude.{◌≡◌, ◌≤◌, ◌++◌, ◌∷◌, [], nat_eq, length, map, filter_map, OnOk};
ghost use Rattle.std.specs.Bool.{OnTrue, OnFalse};
ghost use Rattle.algebra_model.specs.Bag.{IsSameBag};
ghost use Rattle.algebra_model.specs.Solve.{extend_by};
ghost use Rattle.row_pattern.specs.Numbered.{triple_of, triples_of};
ghost use Rattle.row_pattern.specs.Steps.{step_pattern, solutions_from, solutions_over};
ghost use Rattle.row_pattern.specs.Search.{put_back};

use crate::cells::{Binding, bind, given, put};
use crate::steps::Step;
use dict_core::NumQuad;
use quad_index::{Index, Quads};
use row_core::Rows;
use std::alloc::AllocError;

/// What the places of a step held before they were bound to a quad, and whether each then has the
/// quad's number.
#[derive(Clone, Copy)]
pub(crate) struct StepBinding {
    pub subject: Option<u64>,
    pub predicate: Option<u64>,
    pub object: Option<u64>,
    pub fits: bool,
}

/// Binds the places of a step to a quad.
fn bind_step(row: &mut [Option<u64>], step: &Step, quad: &NumQuad) -> StepBinding
    ensures fits { OnTrue result.fits
        (extend_by nat_eq 0 (step_pattern step.now) row.old (triple_of quad.now) ≡ Some row.new) }
    ensures apart { OnFalse result.fits
        (extend_by nat_eq 0 (step_pattern step.now) row.old (triple_of quad.now) ≡ None) }
    ensures back { put_back step.now result row.new ≡ row.old }
{
    let subject = bind(row, step.subject, quad.s);
    let predicate = bind(row, step.predicate, quad.p);
    let object = bind(row, step.object, quad.o);
    StepBinding {
        subject: subject.held,
        predicate: predicate.held,
        object: object.held,
        fits: subject.fits && predicate.fits && object.fits,
    }
}

/// Restores what the places of a step held.
fn unbind_step(row: &mut [Option<u64>], step: &Step, held: StepBinding)
    ensures value { row.new ≡ put_back step.now held row.old }
{
    put(row, step.object, held.object);
    put(row, step.predicate, held.predicate);
    put(row, step.subject, held.subject);
}

/// A search in one graph of an index, for solutions of `width` variables.
#[derive(Clone, Copy)]
pub(crate) struct Search<'a> {
    pub index: &'a Index,
    pub graph: Option<u64>,
    pub width: usize,
}

impl<'a> Search<'a> {
    /// Returns the quads that may extend a row by a step: those that agree with what the row binds.
    pub fn matches(&self, row: &[Option<u64>], step: &Step) -> Quads<'a>
        ensures same { IsSameBag
            (filter_map (extend_by nat_eq 0 (step_pattern step.now) row.now) (map triple_of result))
            (filter_map (extend_by nat_eq 0 (step_pattern step.now) row.now)
            (triples_of self.now.graph self.now.index.now)) }
    {
        self.index.scan(
            self.graph,
            given(row, step.subject),
            given(row, step.predicate),
            given(row, step.object),
        )
    }

    /// Adds the solutions that extend the row over the steps.
    ///
    /// # Errors
    /// `AllocError` if an allocation fails. The solutions found so far and the bindings of the row
    /// are then unspecified.
    #[cycle(search)]
    pub fn add_solutions(
        &self,
        row: &mut [Option<u64>],
        steps: &[Step],
        found: &mut Rows,
    ) -> Result<(), AllocError>
        requires wide { self.now.width ≤ length row.old }
        requires same_width { found.old.width ≡ self.now.width }
        ensures found { OnOk result (IsSameBag found.new.rows (found.old.rows
            ++ solutions_from self.now.width (triples_of self.now.graph self.now.index.now)
            steps.now row.old)) }
        ensures width { found.new.width ≡ found.old.width }
        ensures row { OnOk result (row.new ≡ row.old) }
    {
        match steps.split_first() {
            None => found.push(&row[..self.width]),
            Some((step, rest)) => {
                let quads = self.matches(row, step);
                self.add_matches(row, step, rest, &quads, found)
            }
        }
    }

    /// Adds the solutions that extend the row by a step to one of the quads, and over the other
    /// steps.
    #[cycle(search)]
    pub fn add_matches(
        &self,
        row: &mut [Option<u64>],
        step: &Step,
        rest: &[Step],
        quads: &Quads<'_>,
        found: &mut Rows,
    ) -> Result<(), AllocError>
        requires wide { self.now.width ≤ length row.old }
        requires same_width { found.old.width ≡ self.now.width }
        ensures found { OnOk result (IsSameBag found.new.rows (found.old.rows
            ++ solutions_over self.now.width (triples_of self.now.graph self.now.index.now)
            step.now rest.now row.old (map triple_of quads.now))) }
        ensures width { found.new.width ≡ found.old.width }
        ensures row { OnOk result (row.new ≡ row.old) }
    {
        for place in 0..quads.len() {
            self.add_match(row, step, rest, &quads.get(place), found)?;
        }
        Ok(())
    }

    /// Adds the solutions that extend the row by a step to the quad, and over the other steps.
    #[cycle(search)]
    fn add_match(
        &self,
        row: &mut [Option<u64>],
        step: &Step,
        rest: &[Step],
        quad: &NumQuad,
        found: &mut Rows,
    ) -> Result<(), AllocError>
        requires wide { self.now.width ≤ length row.old }
        requires same_width { found.old.width ≡ self.now.width }
        ensures found { OnOk result (IsSameBag found.new.rows (found.old.rows
            ++ solutions_over self.now.width (triples_of self.now.graph self.now.index.now)
            step.now rest.now row.old (triple_of quad.now ∷ []))) }
        ensures width { found.new.width ≡ found.old.width }
        ensures row { OnOk result (row.new ≡ row.old) }
    {
        let held = bind_step(row, step, quad);
        if held.fits {
            self.add_solutions(row, rest, found)?;
        }
        unbind_step(row, step, held);
        Ok(())
    }
}
