//! LeftJoin (SPARQL 1.1 Query Language, section 18.5).
ghost use Rattle.std.specs.Prelude.{◌≡◌, ◌≤◌, ℕ, Bool, true, IfErr, IfOk, length, nat_eq};
ghost use Rattle.algebra_model.specs.Bag.{IsSameBag};
ghost use Rattle.algebra_model.specs.Operators.{left_join};
ghost use Rattle.row_join.specs.Numbers.{all_pass};
ghost use Rattle.row_pieces.specs.How.{IsRunnable, HasOneWorker};
ghost use Rattle.row_pieces.specs.declared.fault.EvalFault.TheVariants.{Memory};

use crate::left_rows::{Buffers, Pairing, pair_rows};
use crate::merging::add_merges;
use crate::right_side::RightSide;
use crate::row_ref::RowRef;
use piece_pool::Gate;
use row_core::Rows;
use row_pieces::{Context, EvalFault, How};
use std::alloc::{AllocError, Global};
use std::hash::RandomState;
use std::sync::Wait;
use std::thread::Threads;

/// The condition of a left join: a test of merged rows.
pub trait RowTest {
    ghost use Rattle.std.specs.Prelude.{◌≡◌, ℕ, Bool, true, IfOk, IsTrue};
    ghost use Rattle.algebra_model.specs.Solution.{Solution};
    ghost use Rattle.row_join.specs.Numbers.{passes};

    /// The numbers that the test accepts in rows, such as those that number a term.
    ghost knows: { Self → ℕ → Bool };

    /// Whether the condition is true of the row. An error counts as not true.
    ghost keeps: { Self → Solution ℕ → Bool };

    /// Returns whether the condition is true of a row whose numbers the test accepts.
    ///
    /// # Errors
    /// `AllocError` if an allocation fails.
    fn keeps(&self, alloc: Global, row: &[Option<u64>]) -> Result<bool, AllocError>
        requires known { passes (knows self.now) row.now ≡ true }
        ensures value { IfOk result (λ answer. answer ≡ keeps self.now row.now) };

    /// Returns true only if the condition is true of every row. A join then tests no row.
    fn is_certain(&self) -> bool
        ensures all { IsTrue result → (row : Solution ℕ) → keeps self.now row ≡ true };
}

/// Computes LeftJoin: the merges of compatible pairs for which the condition is true, and each left
/// row that has no such merge. The right side is hashed by variables that both sides bind, and the
/// tasks over the left side borrow it.
///
/// # Requires
/// Both sides have the same width, the condition accepts the numbers of both, and `how` is within
/// its limits.
///
/// # Errors
/// - `WorkerRefused` if a worker thread could not be started. It cannot occur with one worker, or
///   if one piece holds all left rows.
/// - `Memory` if an allocation fails.
pub fn left_join<R: Threads + Wait, T: RowTest + Sync, G: Gate + Sync>(
    rt: &R,
    alloc: Global,
    state: RandomState,
    left: &Rows,
    right: &Rows,
    test: &T,
    how: &How,
    gate: &G,
) -> Result<Rows, EvalFault>
    requires same_width { left.now.width ≡ right.now.width }
    requires left_known { all_pass (T.knows test.now) left.now.rows ≡ true }
    requires right_known { all_pass (T.knows test.now) right.now.rows ≡ true }
    requires how { IsRunnable how.now }
    ensures width { IfOk result (λ rows. rows.width ≡ left.now.width) }
    ensures rows { IfOk result (λ rows. IsSameBag rows.rows
        (left_join nat_eq (T.keeps test.now) left.now.rows right.now.rows)) }
    ensures numbers { IfOk result (λ rows. (p : ℕ → Bool) → all_pass p left.now.rows ≡ true
        → all_pass p right.now.rows ≡ true → all_pass p rows.rows ≡ true) }
    ensures alone { length left.now.rows ≤ how.now.rows → IfErr result (λ fault. fault ≡ Memory) }
    ensures one_worker { HasOneWorker how.now → IfErr result (λ fault. fault ≡ Memory) }
{
    let pairing = MergesOrItself { test };
    let context = Context {
        rt,
        alloc,
        how,
        gate,
    };
    pair_rows(&context, state, left, right, &pairing)
}

/// Pairs a left row with the right side: its merges for which the condition is true, or the row
/// itself if there are none.
#[derive(Drop)]
struct MergesOrItself<'t, T> {
    test: &'t T,
}

impl<'t, T: RowTest> Pairing for MergesOrItself<'t, T> {
    ghost use Rattle.std.specs.Prelude.{nat_eq};
    ghost use Rattle.algebra_model.specs.Solve.{left_row};

    ghost knows = { λ pairing n. T.knows pairing.test.now n };

    ghost gives = { λ pairing rows μ. left_row nat_eq (T.keeps pairing.test.now) rows μ };

    fn add(
        &self,
        alloc: Global,
        row: RowRef<'_>,
        right: &RightSide,
        buffers: &mut Buffers,
        made: &mut Rows,
    ) -> Result<(), AllocError> {
        if add_merges(alloc, self.test, row, right, buffers, made)? {
            made.push_row(row.rows, row.at)?;
        }
        Ok(())
    }
}
