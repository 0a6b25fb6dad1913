//! The solutions of a basic graph pattern, as one job over pieces of the first step's matches.
ghost use Rattle.std.specs.Prelude.{◌≡◌, ℕ, ◌+◌, ◌≤◌, ◌∷◌, [], nat_eq, map, replicate, None, IfErr, IfOk, Contains};
ghost use Rattle.algebra_model.specs.Bag.{IsSameBag, IsWithoutRepeats};
ghost use Rattle.algebra_model.specs.Bgp.{bgp, occurring};
ghost use Rattle.algebra_model.specs.Renaming.{Each, EachBound};
ghost use Rattle.algebra_model.specs.Solve.{AreBelow};
ghost use Rattle.dict_core.specs.Equality.{quad_eq};
ghost use Rattle.row_pieces.specs.How.{IsRunnable, HasOneWorker};
ghost use Rattle.row_pieces.specs.declared.fault.EvalFault.TheVariants.{Memory};
ghost use Rattle.row_pattern.specs.Numbered.{pattern_of, triple_of, triples_of};
ghost use Rattle.row_pattern.specs.Steps.{solutions_from, solutions_over};

use crate::numbered::NumberedTriple;
use crate::search::Search;
use crate::steps::{Step, ordered_steps, unbound};
use piece_pool::Gate;
use quad_index::{Index, Quads};
use row_core::Rows;
use row_pieces::{EvalFault, How, RowWork, over_pieces};
use std::alloc::{AllocError, Global};
use std::sync::Wait;
use std::thread::Threads;

/// The quads that match the first step. Each gives the solutions that extend it over the other
/// steps.
#[derive(Drop)]
struct Matches<'a> {
    search: Search<'a>,
    first: &'a Step,
    rest: &'a [Step],
    quads: Quads<'a>,
    cells: usize,
    ghost wide: { search.width ≤ cells },
}

impl<'a> RowWork for Matches<'a> {
    ghost use Rattle.std.specs.Prelude.{map, replicate, None, [], ◌∷◌};
    ghost use Rattle.row_pattern.specs.Numbered.{triple_of, triples_of};
    ghost use Rattle.row_pattern.specs.Steps.{solutions_over};

    ghost width = { λ work. work.search.width };

    ghost parts = { λ work. map
        (λ quad. solutions_over work.search.width
        (triples_of work.search.graph work.search.index.now)
        work.first.now work.rest.now (replicate work.cells None) (triple_of quad ∷ []))
        work.quads };

    fn row_width(&self) -> usize {
        self.search.width
    }

    fn count(&self) -> usize {
        self.quads.len()
    }

    fn run(&self, alloc: Global, from: usize, to: usize) -> Result<Rows, AllocError> {
        let mut found = Rows::new(alloc, self.search.width);
        let mut row = unbound(alloc, self.cells)?;
        let quads = self.quads.part(from, to);
        self.search
            .add_matches(&mut row, self.first, self.rest, &quads, &mut found)?;
        Ok(found)
    }
}

/// Returns the solutions of a basic graph pattern (SPARQL 1.1 Query Language, section 18.3) in one
/// graph of an index. None is the default graph. The rows are solutions of the pattern's variables,
/// and a solution occurs once for each assignment of its blank node labels. The empty pattern has
/// one row, which binds nothing.
///
/// # Requires
/// The variables of the triples are below `width`, their blank node labels below `labels`, and
/// `how` is within its limits.
///
/// # Errors
/// - `WorkerRefused` if a worker thread could not be started. It cannot occur with one worker.
/// - `Memory` if an allocation fails.
pub fn pattern<R: Threads + Wait, G: Gate + Sync>(
    rt: &R,
    alloc: Global,
    index: &Index,
    graph: Option<u64>,
    width: usize,
    labels: usize,
    patterns: &[NumberedTriple],
    how: &How,
    gate: &G,
) -> Result<Rows, EvalFault>
    requires how { IsRunnable how.now }
    requires below { AreBelow width (width + labels) (map pattern_of patterns.now) }
    ensures width { IfOk result (λ found. found.width ≡ width) }
    ensures rows { IfOk result (λ found. IsSameBag found.rows
        (bgp nat_eq width labels (map pattern_of patterns.now) (triples_of graph index.now))) }
    ensures known { IfOk result (λ found.
        Each (EachBound (λ n. Contains (occurring (triples_of graph index.now)) n)) found.rows) }
    ensures one_worker { HasOneWorker how.now → IfErr result (λ fault. fault ≡ Memory) }
{
    quads_occur_once(index);
    let cells = width.saturating_add(labels);
    let row = unbound(alloc, cells)?;
    let steps = ordered_steps(alloc, index, graph, width, cells, patterns)?;
    let search = Search {
        index,
        graph,
        width,
    };
    match steps.as_slice().split_first() {
        None => Ok(empty_pattern(alloc, &search, cells)?),
        Some((first, rest)) => {
            let work = Matches {
                search,
                first,
                rest,
                quads: search.matches(&row, first),
                cells,
            };
            over_pieces(rt, alloc, &work, how, gate)
        }
    }
}

/// Returns the one solution of the empty pattern.
fn empty_pattern(alloc: Global, search: &Search<'_>, cells: usize) -> Result<Rows, AllocError>
    requires wide { search.now.width ≤ cells }
    ensures width { IfOk result (λ found. found.width ≡ search.now.width) }
    ensures rows { IfOk result (λ found. IsSameBag found.rows
        (solutions_from search.now.width (triples_of search.now.graph search.now.index.now) []
        (replicate cells None))) }
{
    let mut found = Rows::new(alloc, search.width);
    let mut row = unbound(alloc, cells)?;
    search.add_solutions(&mut row, &[], &mut found)?;
    Ok(found)
}

/// Proves that no quad occurs twice in an index, on which the count of a solution depends. It runs
/// no code.
#[inline(always)]
fn quads_occur_once(index: &Index)
    ensures distinct { IsWithoutRepeats quad_eq index.now }
{
    let _ = index.quads();
}
