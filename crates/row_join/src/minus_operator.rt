//! Minus (SPARQL 1.1 Query Language, section 18.5).
ghost use Rattle.std.specs.Prelude.{◌≡◌, ◌<◌, ◌≤◌, ℕ, Bool, true, All, IfErr, IfOk, length, nat_eq};
ghost use Rattle.algebra_model.specs.Bag.{IsSameBag};
ghost use Rattle.algebra_model.specs.Operators.{minus};
ghost use Rattle.row_join.specs.Numbers.{all_pass};
ghost use Rattle.row_join.specs.Pairing.{is_apart};
ghost use Rattle.row_join.specs.Places.{rows_at};
ghost use Rattle.row_join.specs.Row.{row_of};
ghost use Rattle.row_join.specs.Tried.{places_of};
ghost use Rattle.row_pieces.specs.How.{IsRunnable, HasOneWorker};
ghost use Rattle.row_pieces.specs.declared.fault.EvalFault.TheVariants.{Memory};

use crate::left_rows::{Buffers, Pairing, pair_rows};
use crate::right_side::RightSide;
use crate::row_ref::RowRef;
use crate::tried::Tried;
use piece_pool::Gate;
use row_core::Rows;
use row_pieces::{Context, EvalFault, How};
use std::alloc::{AllocError, Global};
use std::hash::RandomState;
use std::sync::Wait;
use std::thread::Threads;

/// Computes Minus: the left rows for which each right row is incompatible or shares no bound
/// variable. The right side is hashed by variables that both sides bind, and the tasks over the
/// left side borrow it. A left row that shares no bound variable with any right row is compared
/// with none.
///
/// # Requires
/// Both sides have the same width, and `how` is within its limits.
///
/// # Errors
/// - `WorkerRefused` if a worker thread could not be started. It cannot occur with one worker, or
///   if one piece holds all left rows.
/// - `Memory` if an allocation fails.
pub fn minus<R: Threads + Wait, G: Gate + Sync>(
    rt: &R,
    alloc: Global,
    state: RandomState,
    left: &Rows,
    right: &Rows,
    how: &How,
    gate: &G,
) -> Result<Rows, EvalFault>
    requires same_width { left.now.width ≡ right.now.width }
    requires how { IsRunnable how.now }
    ensures width { IfOk result (λ rows. rows.width ≡ left.now.width) }
    ensures rows { IfOk result (λ rows. IsSameBag rows.rows (minus nat_eq left.now.rows right.now.rows)) }
    ensures numbers { IfOk result (λ rows. (p : ℕ → Bool) → all_pass p left.now.rows ≡ true
        → all_pass p rows.rows ≡ true) }
    ensures alone { length left.now.rows ≤ how.now.rows → IfErr result (λ fault. fault ≡ Memory) }
    ensures one_worker { HasOneWorker how.now → IfErr result (λ fault. fault ≡ Memory) }
{
    let context = Context {
        rt,
        alloc,
        how,
        gate,
    };
    pair_rows(&context, state, left, right, &Remainder {})
}

/// Keeps a left row unless a right row removes it.
struct Remainder {}

impl Pairing for Remainder {
    ghost use Rattle.std.specs.Prelude.{true};
    ghost use Rattle.row_join.specs.Pairing.{is_apart, row_if};

    ghost knows = { λ _ _. true };

    ghost gives = { λ _ rows μ. row_if (is_apart rows μ) μ };

    fn add(
        &self,
        _alloc: Global,
        row: RowRef<'_>,
        right: &RightSide,
        buffers: &mut Buffers,
        made: &mut Rows,
    ) -> Result<(), AllocError> {
        if stays(row, right, &mut buffers.numbers)? {
            made.push_row(row.rows, row.at)?;
        }
        Ok(())
    }
}

/// Returns whether no right row removes the left row. A left row that shares no bound variable with
/// any right row is kept without a comparison.
///
/// # Errors
/// `AllocError` if an allocation fails.
fn stays(row: RowRef<'_>, right: &RightSide, numbers: &mut Vec<u64>) -> Result<bool, AllocError>
    requires wide { row.rows.now.width ≡ right.now.rows.now.width }
    ensures value { IfOk result (λ answer. answer
        ≡ is_apart right.now.rows.now.rows (row_of row.entry)) }
{
    if !right.shares(row) {
        return Ok(true);
    }
    let tried = right.tried(row, numbers)?;
    Ok(is_apart(row, right.rows, tried))
}

/// Returns whether each of the rows at these places is incompatible with the row, or shares no
/// bound variable with it.
fn is_apart(row: RowRef<'_>, right: &Rows, tried: Tried<'_>) -> bool
    requires row_wide { row.rows.now.width ≡ right.now.width }
    requires inside { All (λ i. i < length right.now.rows) (places_of tried) }
    ensures value { result ≡ is_apart (rows_at right.now.rows (places_of tried.entry)) (row_of row.entry) }
{
    for i in 0..tried.len() {
        let other = RowRef {
            rows: right,
            at: tried.place(i),
        };
        if row.is_compatible(other) && row.shares(other) {
            return false;
        }
    }
    true
}
