//! Rows from the rows of other lists: the copy of one, and the merge of two.
ghost use Rattle.row_core.specs.Cells.{cells_of};
ghost use Rattle.row_core.specs.RowList.{padded};
ghost use Rattle.algebra_model.specs.Solution.{is_compatible, merge};
ghost use Rattle.std.specs.Prelude.{◌≡◌, ◌+◌, ◌<◌, ◌≤◌, take, drop, [], ◌∷◌, ◌++◌, length, if◌then◌else◌, nat_eq, get_or, IfOk, OnOk, OnErr};

use crate::cells::Cells;
use crate::rows::{Rows, add_cells, start_of};
use std::alloc::AllocError;

/// Appends the cells of a row of another list, or one empty cell if the row has none.
fn add_part(cells: &mut Cells, others: &Cells, start: usize, width: usize) -> Result<(), AllocError>
    requires inside { start + width ≤ length (cells_of others.now) }
    ensures added { OnOk result (cells_of cells.new
        ≡ cells_of cells.old ++ padded (take width (drop start (cells_of others.now)))) }
    ensures unchanged { OnErr result (cells_of cells.new ≡ cells_of cells.old) }
{
    if width == 0 {
        return add_cells(cells, &[]);
    }
    cells.append_part(others, start, width)
}

/// Appends the cells of the merge of two rows if these are compatible, or one empty cell if the rows
/// have none. Returns whether they are compatible.
fn add_merge(
    cells: &mut Cells,
    left: &Cells,
    i: usize,
    right: &Cells,
    j: usize,
    width: usize,
) -> Result<bool, AllocError>
    requires left_inside { i + width ≤ length (cells_of left.now) }
    requires right_inside { j + width ≤ length (cells_of right.now) }
    ensures merged { IfOk result (λ met. cells_of cells.new ≡ (if met
        then cells_of cells.old ++ padded (merge (take width (drop i (cells_of left.now)))
        (take width (drop j (cells_of right.now))))
        else cells_of cells.old)) }
    ensures met { IfOk result (λ met. met ≡ is_compatible nat_eq
        (take width (drop i (cells_of left.now))) (take width (drop j (cells_of right.now)))) }
    ensures unchanged { OnErr result (cells_of cells.new ≡ cells_of cells.old) }
{
    if width == 0 {
        add_cells(cells, &[])?;
        return Ok(true);
    }
    cells.push_merge(left, i, right, j, width)
}

impl Rows {
    /// Appends a row of another list.
    ///
    /// # Requires
    /// The other list has the same width, and `i` is below its `len`.
    ///
    /// # Errors
    /// `AllocError` if an allocation fails. The rows are unchanged.
    pub fn push_row(&mut self, others: &Rows, i: usize) -> Result<(), AllocError>
        requires same_width { others.now.width ≡ self.old.width }
        requires inside { i < length others.now.rows }
        ensures added { OnOk result (self.new.rows
            ≡ self.old.rows ++ get_or others.now.rows i [] ∷ []) }
        ensures unchanged { OnErr result (self.new.rows ≡ self.old.rows) }
        ensures width { self.new.width ≡ self.old.width }
    {
        let start = start_of(&others.cells, others.width, others.count, i);
        add_part(&mut self.cells, &others.cells, start, self.width)?;
        let _long = self.cells.len();
        self.count += 1;
        Ok(())
    }

    /// Appends the merge of a row of one list and a row of another (their union; SPARQL 1.1 Query
    /// Language, section 18.3) if the rows are compatible. Returns whether they are.
    ///
    /// # Requires
    /// Both lists have the width of this one. `i` is below `left.len()`, and `j` below `right.len()`.
    ///
    /// # Errors
    /// `AllocError` if an allocation fails. The rows are unchanged.
    pub fn push_merge(
        &mut self,
        left: &Rows,
        i: usize,
        right: &Rows,
        j: usize,
    ) -> Result<bool, AllocError>
        requires left_width { left.now.width ≡ self.old.width }
        requires right_width { right.now.width ≡ self.old.width }
        requires left_inside { i < length left.now.rows }
        requires right_inside { j < length right.now.rows }
        ensures merged { IfOk result (λ met. self.new.rows ≡ (if met
            then self.old.rows ++ merge (get_or left.now.rows i []) (get_or right.now.rows j []) ∷ []
            else self.old.rows)) }
        ensures met { IfOk result (λ met. met
            ≡ is_compatible nat_eq (get_or left.now.rows i []) (get_or right.now.rows j [])) }
        ensures unchanged { OnErr result (self.new.rows ≡ self.old.rows) }
        ensures width { self.new.width ≡ self.old.width }
    {
        let first = start_of(&left.cells, left.width, left.count, i);
        let second = start_of(&right.cells, right.width, right.count, j);
        let met = add_merge(
            &mut self.cells,
            &left.cells,
            first,
            &right.cells,
            second,
            self.width,
        )?;
        if !met {
            return Ok(false);
        }
        let _long = self.cells.len();
        self.count += 1;
        Ok(true)
    }
}
