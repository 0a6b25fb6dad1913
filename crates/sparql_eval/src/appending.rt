//! Copies of rows, appended to other rows.
ghost use Rattle.std.specs.Prelude.{◌≡◌, ◌++◌, ℕ, take, OnErr, OnOk};

use row_core::Rows;
use std::alloc::AllocError;

/// Appends copies of the rows to `made`. On error, `made` keeps its rows, followed by copies of
/// some of the first rows.
pub(crate) fn add_rows(made: &mut Rows, rows: &Rows) -> Result<(), AllocError>
    requires same_width { rows.now.width ≡ made.old.width }
    ensures added { OnOk result (made.new.rows ≡ made.old.rows ++ rows.now.rows) }
    ensures in_part { OnErr result ((k : ℕ)
        × (made.new.rows ≡ made.old.rows ++ take k rows.now.rows)) }
    ensures width { made.new.width ≡ made.old.width }
{
    made.extend(rows)
}
