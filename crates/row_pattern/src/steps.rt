//! The steps of a search: the triple patterns of a pattern with labels as further variables, the
//! most selective one first.
ghost use Rattle.std.specs.Prelude.{◌≡◌, ◌+◌, ◌<◌, ◌≤◌, ◌^◌, length, map, IfOk, IsPermutation, replicate, None};
ghost use Rattle.algebra_model.specs.Solve.{IsBelow, IsTripleBelow, AreBelow};
ghost use Rattle.row_pattern.specs.Numbered.{pattern_term_of, pattern_of};
ghost use Rattle.row_pattern.specs.Places.{place_term};
ghost use Rattle.row_pattern.specs.Steps.{step_pattern, placed, placed_pattern};

use crate::cells::{Place, bind, given};
use crate::numbered::{NumberedTriple, PatternNumber};
use quad_index::Index;
use std::alloc::{AllocError, Global};

/// The number of steps that are compared to choose the next one. The limit keeps the time linear
/// for a long pattern.
const COMPARED: usize = 256;

/// A triple pattern. In a row, the places of its labels follow those of the variables.
#[derive(Clone, Copy)]
pub(crate) struct Step {
    pub subject: Place,
    pub predicate: Place,
    pub object: Place,
    /// The number of quads of the graph that have the numbers of the pattern.
    pub matches: usize,
}

/// Returns where a row has the value of one position of a pattern.
fn place_of(width: usize, number: PatternNumber) -> Place
    requires below { IsBelow width (2 ^ 64) (pattern_term_of number) }
    ensures place { place_term result ≡ placed width (pattern_term_of number) }
{
    match number {
        PatternNumber::Variable(v) => Place::Cell(v),
        PatternNumber::Label(l) => Place::Cell(width + l),
        PatternNumber::Term(n) => Place::Number(n),
    }
}

/// Returns the step of a triple pattern.
fn step_of(index: &Index, graph: Option<u64>, width: usize, triple: &NumberedTriple) -> Step
    requires below { IsTripleBelow width (2 ^ 64) (pattern_of triple.now) }
    ensures step { step_pattern result ≡ placed_pattern width (pattern_of triple.now) }
{
    let subject = place_of(width, triple.subject);
    let predicate = place_of(width, triple.predicate);
    let object = place_of(width, triple.object);
    let nothing = [];
    let matches = index
        .scan(
            graph,
            given(&nothing, subject),
            given(&nothing, predicate),
            given(&nothing, object),
        )
        .len();
    Step {
        subject,
        predicate,
        object,
        matches,
    }
}

/// Returns the steps of a pattern, in the order of its triple patterns.
fn steps_of(
    alloc: Global,
    index: &Index,
    graph: Option<u64>,
    width: usize,
    patterns: &[NumberedTriple],
) -> Result<Vec<Step>, AllocError>
    requires below { AreBelow width (2 ^ 64) (map pattern_of patterns.now) }
    ensures steps { IfOk result (λ steps.
        map step_pattern steps.items ≡ map (placed_pattern width) (map pattern_of patterns.now)) }
{
    let mut steps = Vec::with_capacity(alloc, patterns.len())?;
    for triple in patterns {
        steps.push(step_of(index, graph, width, triple))?;
    }
    Ok(steps)
}

/// Estimates how many quads a step gives for one row in which these cells are bound. Returns 0 if
/// the step has nothing to bind. A place whose variable is bound is assumed to select one quad of
/// 65536. So triple patterns that share a variable with earlier ones come first, unless another one
/// matches few quads.
fn cost(step: &Step, row: &[Option<u64>]) -> usize {
    let mut cost = step.matches;
    let mut binds = false;
    for place in [step.subject, step.predicate, step.object] {
        if given(row, place).is_none() {
            binds = true;
        } else if let Place::Cell(_) = place {
            cost /= 65_536;
        }
    }
    if binds { cost.saturating_add(1) } else { 0 }
}

/// Returns the place of a step of least cost among the next steps from `from` on. Of equal costs,
/// the step that matches fewest quads is taken.
fn least(steps: &[Step], from: usize, row: &[Option<u64>]) -> usize
    requires inside { from < length steps.now }
    ensures inside { result < length steps.now }
{
    let mut least = from;
    let mut least_cost = cost(&steps[from], row);
    let end = steps.len().min(from.saturating_add(COMPARED));
    for i in from..end {
        let next_cost = cost(&steps[i], row);
        let fewer = steps[i].matches < steps[least].matches;
        if next_cost < least_cost || (next_cost == least_cost && fewer) {
            least = i;
            least_cost = next_cost;
        }
    }
    least
}

/// Returns a row of `cells` unbound cells.
pub(crate) fn unbound(alloc: Global, cells: usize) -> Result<Vec<Option<u64>>, AllocError>
    ensures row { IfOk result (λ row. row.items ≡ replicate cells None) }
{
    let mut row = Vec::new(alloc);
    row.resize(cells, None)?;
    Ok(row)
}

/// Returns the steps of a pattern in the order of the search. Each step is, of those compared, the
/// one of least estimated cost after the steps before it have bound their variables.
pub(crate) fn ordered_steps(
    alloc: Global,
    index: &Index,
    graph: Option<u64>,
    width: usize,
    cells: usize,
    patterns: &[NumberedTriple],
) -> Result<Vec<Step>, AllocError>
    requires below { AreBelow width (2 ^ 64) (map pattern_of patterns.now) }
    ensures same { IfOk result (λ steps. IsPermutation
        (map (placed_pattern width) (map pattern_of patterns.now))
        (map step_pattern steps.items)) }
{
    let mut steps = steps_of(alloc, index, graph, width, patterns)?;
    let mut row = unbound(alloc, cells)?;
    for i in 0..steps.len() {
        let next = least(steps.as_slice(), i, row.as_slice());
        steps.swap(i, next);
        mark(&mut row, steps[i]);
    }
    Ok(steps)
}

/// Marks the cells of a step as bound.
fn mark(row: &mut [Option<u64>], step: Step) {
    let _ = bind(row, step.subject, 0);
    let _ = bind(row, step.predicate, 0);
    let _ = bind(row, step.object, 0);
}
