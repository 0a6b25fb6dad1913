//! Join (SPARQL 1.1 Query Language, section 18.5).
ghost use Rattle.std.specs.Prelude.{◌≡◌, ◌≤◌, ℕ, Bool, true, IfErr, IfOk, length, nat_eq};
ghost use Rattle.algebra_model.specs.Bag.{IsSameBag};
ghost use Rattle.algebra_model.specs.Operators.{join};
ghost use Rattle.row_join.specs.Numbers.{all_pass};
ghost use Rattle.row_pieces.specs.How.{IsRunnable, HasOneWorker};
ghost use Rattle.row_pieces.specs.declared.fault.EvalFault.TheVariants.{Memory};

use crate::left_joins::RowTest;
use crate::left_rows::{Buffers, Pairing, pair_rows};
use crate::merging::add_merges;
use crate::right_side::RightSide;
use crate::row_ref::RowRef;
use piece_pool::Gate;
use row_core::Rows;
use row_pieces::{Context, EvalFault, How};
use std::alloc::{AllocError, Global};
use std::hash::RandomState;
use std::sync::Wait;
use std::thread::Threads;

/// Computes Join: the merge of each compatible pair, once for each pair. The right side is hashed
/// by variables that both sides bind, and the tasks over the left side borrow it.
///
/// # Requires
/// Both sides have the same width, and `how` is within its limits.
///
/// # Errors
/// - `WorkerRefused` if a worker thread could not be started. It cannot occur with one worker, or
///   if one piece holds all left rows.
/// - `Memory` if an allocation fails.
pub fn join<R: Threads + Wait, G: Gate + Sync>(
    rt: &R,
    alloc: Global,
    state: RandomState,
    left: &Rows,
    right: &Rows,
    how: &How,
    gate: &G,
) -> Result<Rows, EvalFault>
    requires same_width { left.now.width ≡ right.now.width }
    requires how { IsRunnable how.now }
    ensures width { IfOk result (λ rows. rows.width ≡ left.now.width) }
    ensures rows { IfOk result (λ rows. IsSameBag rows.rows (join nat_eq left.now.rows right.now.rows)) }
    ensures numbers { IfOk result (λ rows. (p : ℕ → Bool) → all_pass p left.now.rows ≡ true
        → all_pass p right.now.rows ≡ true → all_pass p rows.rows ≡ true) }
    ensures alone { length left.now.rows ≤ how.now.rows → IfErr result (λ fault. fault ≡ Memory) }
    ensures one_worker { HasOneWorker how.now → IfErr result (λ fault. fault ≡ Memory) }
{
    let context = Context {
        rt,
        alloc,
        how,
        gate,
    };
    pair_rows(&context, state, left, right, &Merges {})
}

/// Pairs a left row with the right side: its merges.
struct Merges {}

impl Pairing for Merges {
    ghost use Rattle.std.specs.Prelude.{true, nat_eq};
    ghost use Rattle.algebra_model.specs.Operators.{merges};

    ghost knows = { λ _ _. true };

    ghost gives = { λ _ rows μ. merges nat_eq μ rows };

    fn add(
        &self,
        alloc: Global,
        row: RowRef<'_>,
        right: &RightSide,
        buffers: &mut Buffers,
        made: &mut Rows,
    ) -> Result<(), AllocError> {
        add_merges(alloc, &Always {}, row, right, buffers, made)?;
        Ok(())
    }
}

/// The condition of a join, which is true of every row.
struct Always {}

impl RowTest for Always {
    ghost use Rattle.std.specs.Prelude.{true};

    ghost knows = { λ _ _. true };

    ghost keeps = { λ _ _. true };

    fn keeps(&self, _alloc: Global, _row: &[Option<u64>]) -> Result<bool, AllocError> {
        Ok(true)
    }

    fn is_certain(&self) -> bool {
        true
    }
}
