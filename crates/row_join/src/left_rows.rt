//! The loop over the left rows of a join, in pieces.
ghost use Rattle.std.specs.Prelude.{◌≡◌, ◌≤◌, ◌++◌, ℕ, Bool, true, List, OnOk, IfErr, IfOk, length, flat_map};
ghost use Rattle.algebra_model.specs.Bag.{IsSameBag};
ghost use Rattle.algebra_model.specs.Solution.{Solution};
ghost use Rattle.row_join.specs.Numbers.{passes, all_pass};
ghost use Rattle.row_join.specs.Row.{row_of};
ghost use Rattle.row_pieces.specs.How.{HasOneWorker};
ghost use Rattle.row_pieces.specs.declared.fault.EvalFault.TheVariants.{Memory};

use crate::right_side::RightSide;
use crate::row_ref::RowRef;
use piece_pool::Gate;
use row_core::Rows;
use row_pieces::{Context, EvalFault, RowWork, over_pieces};
use std::alloc::{AllocError, Global};
use std::hash::RandomState;
use std::sync::Wait;
use std::thread::Threads;

/// Lists that are reused for each left row, so that a row needs no allocations for them.
#[derive(Drop)]
pub(crate) struct Buffers {
    /// The numbers of the left row's key.
    pub(crate) numbers: Vec<u64>,
    /// The merge of both rows, for a test.
    pub(crate) merged: Vec<Option<u64>>,
}

/// What one left row gives with the right rows.
pub(crate) trait Pairing {
    /// The numbers that may occur in the rows.
    ghost knows: { Self → ℕ → Bool };

    /// The rows that a left row gives with the right rows.
    ghost gives: { Self → List (Solution ℕ) → Solution ℕ → List (Solution ℕ) };

    /// Appends to `made` what the left row gives.
    fn add(
        &self,
        alloc: Global,
        row: RowRef<'_>,
        right: &RightSide,
        buffers: &mut Buffers,
        made: &mut Rows,
    ) -> Result<(), AllocError>
        requires row_wide { row.rows.now.width ≡ right.now.rows.now.width }
        requires made_wide { made.old.width ≡ right.now.rows.now.width }
        requires row_known { passes (knows self.now) (row_of row) ≡ true }
        requires right_known { all_pass (knows self.now) right.now.rows.now.rows ≡ true }
        ensures rows { OnOk result (IsSameBag made.new.rows
            (made.old.rows ++ gives self.now right.now.rows.now.rows (row_of row.entry))) }
        ensures width { OnOk result (made.new.width ≡ made.old.width) };
}

/// The left rows, each to be paired with the right side.
#[derive(Drop)]
struct LeftRows<'w, 'r, P: Pairing> {
    left: &'w Rows,
    right: &'w RightSide<'r>,
    pairing: &'w P,
    ghost same_width: { left.now.width ≡ right.now.rows.now.width },
    ghost left_known: { all_pass (P.knows pairing.now) left.now.rows ≡ true },
    ghost right_known: { all_pass (P.knows pairing.now) right.now.rows.now.rows ≡ true },
}

impl<'w, 'r, P: Pairing> RowWork for LeftRows<'w, 'r, P> {
    ghost use Rattle.std.specs.Prelude.{map};

    ghost width = { λ work. work.left.now.width };

    ghost parts = { λ work. map (P.gives work.pairing.now work.right.now.rows.now.rows) work.left.now.rows };

    fn row_width(&self) -> usize {
        self.left.width()
    }

    fn count(&self) -> usize {
        self.left.len()
    }

    fn run(&self, alloc: Global, from: usize, to: usize) -> Result<Rows, AllocError> {
        let mut made = Rows::new(alloc, self.left.width());
        let mut buffers = Buffers {
            numbers: Vec::new(alloc),
            merged: Vec::new(alloc),
        };
        for i in from..to {
            let row = RowRef {
                rows: self.left,
                at: i,
            };
            self.pairing
                .add(alloc, row, self.right, &mut buffers, &mut made)?;
        }
        Ok(made)
    }
}

/// Returns what all left rows give with the right rows. The right rows are hashed once, by variables
/// that both sides bind. The left rows are cut into pieces as the context says.
///
/// # Errors
/// - `WorkerRefused` if a worker thread could not be started. It cannot occur with one worker, or
///   if one piece holds all left rows.
/// - `Memory` if an allocation fails.
pub(crate) fn pair_rows<R: Threads + Wait, P: Pairing + Sync, G: Gate + Sync>(
    context: &Context<R, G>,
    state: RandomState,
    left: &Rows,
    right: &Rows,
    pairing: &P,
) -> Result<Rows, EvalFault>
    requires same_width { left.now.width ≡ right.now.width }
    requires left_known { all_pass (P.knows pairing.now) left.now.rows ≡ true }
    requires right_known { all_pass (P.knows pairing.now) right.now.rows ≡ true }
    ensures width { IfOk result (λ rows. rows.width ≡ left.now.width) }
    ensures rows { IfOk result (λ rows. IsSameBag rows.rows
        (flat_map (P.gives pairing.now right.now.rows) left.now.rows)) }
    ensures alone { length left.now.rows ≤ context.now.how.now.rows → IfErr result (λ fault. fault ≡ Memory) }
    ensures one_worker { HasOneWorker context.now.how.now → IfErr result (λ fault. fault ≡ Memory) }
{
    let side = RightSide::build(context.alloc, state, left, right)?;
    let work = LeftRows {
        left,
        right: &side,
        pairing,
    };
    over_pieces(context.rt, context.alloc, &work, context.how, context.gate)
}
