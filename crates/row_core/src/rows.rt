//! Lists of rows of optional numbers. All rows of a list have the same width.
ghost use Rattle.row_core.specs.Cells.{cells_of};
ghost use Rattle.row_core.specs.RowList.{stride, padded, rows_in};
ghost use Rattle.algebra_model.specs.Operators.{restrict};
ghost use Rattle.std.specs.Prelude.{◌≡◌, ◌+◌, ◌-◌, ◌*◌, ◌<◌, ◌≤◌, take, drop, [], ◌∷◌, ◌++◌, length, false, map, Some, None, slice_get, get_or, All, OnOk, OnErr};

use crate::cells::Cells;
use std::alloc::{AllocError, Global};
use std::marker::Model;

mod copies;

/// A list of rows with one cell for each variable. A cell is the number of the variable's term, or
/// None if the row leaves the variable unbound.
///
/// In contracts this type is its width and the list of its rows. One buffer holds the cells of all
/// rows, one row after another. A cell takes 4 bytes if every number is below 2^32 - 1, and 16 bytes
/// otherwise.
pub struct Rows {
    width: usize,
    count: usize,
    cells: Cells,
}

impl Drop for Rows {
    /// Frees the cells. Written by hand (docs/PROOF.md).
    fn drop(self) {
        let Rows {
            width: _,
            count: _,
            cells: _,
        } = self;
    }
}

impl Model for Rows {
    ghost use Rattle.std.specs.Prelude.{◌≡◌, ◌*◌, length};
    ghost use Rattle.row_core.specs.Cells.{cells_of};
    ghost use Rattle.row_core.specs.RowList.{RowList, rows_in, stride};

    ghost Value = { RowList };

    ghost view = { λ r. record { width = r.width; rows = rows_in r.width (stride r.width) r.count (cells_of r.cells) } };

    ghost invariant = { λ r. length (cells_of r.cells) ≡ r.count * stride r.width };
}

/// Returns the number of cells that one row takes. It is at least one, so that rows without
/// variables are counted too.
fn stride(width: usize) -> usize
    ensures value { result ≡ stride width }
{
    width.max(1)
}

/// Returns the place of the first cell of a row.
fn start_of(cells: &Cells, width: usize, count: usize, row: usize) -> usize
    requires whole { length (cells_of cells.now) ≡ count * stride width }
    requires below { row < count }
    ensures value { result ≡ row * stride width }
    ensures inside { result + width ≤ length (cells_of cells.now) }
{
    let _long = cells.len();
    row * stride(width)
}

/// Appends the cells of a row, or one empty cell if the row has none.
fn add_cells(cells: &mut Cells, row: &[Option<u64>]) -> Result<(), AllocError>
    ensures added { OnOk result (cells_of cells.new ≡ cells_of cells.old ++ padded row.now) }
    ensures unchanged { OnErr result (cells_of cells.new ≡ cells_of cells.old) }
{
    if row.is_empty() {
        return cells.extend(&[None]);
    }
    cells.extend(row)
}

/// Unbinds the variables of the row from a place on that are not kept.
fn restrict_row(cells: &mut Cells, start: usize, kept: &[bool])
    requires inside { start + length kept.now ≤ length (cells_of cells.old) }
    ensures restricted { cells_of cells.new ≡ take start (cells_of cells.old)
        ++ (restrict (λ k. get_or kept.now k false) (take (length kept.now) (drop start (cells_of cells.old)))
        ++ drop (length kept.now) (drop start (cells_of cells.old))) }
{
    for i in 0..kept.len() {
        if !kept[i] {
            cells.unbind(start + i);
        }
    }
}

/// Unbinds, in the cells of consecutive rows, the variables that are not kept.
fn restrict_cells(cells: &mut Cells, count: usize, kept: &[bool])
    requires whole { length (cells_of cells.old) ≡ count * stride (length kept.now) }
    ensures restricted { rows_in (length kept.now) (stride (length kept.now)) count (cells_of cells.new)
        ≡ map (restrict (λ k. get_or kept.now k false))
        (rows_in (length kept.now) (stride (length kept.now)) count (cells_of cells.old)) }
    ensures length { length (cells_of cells.new) ≡ length (cells_of cells.old) }
{
    let _long = cells.len();
    let step = stride(kept.len());
    for i in 0..count {
        restrict_row(cells, i * step, kept);
    }
}

impl Rows {
    /// Creates an empty list. Allocates nothing.
    pub fn new(alloc: Global, width: usize) -> Rows
        ensures empty { result ≡ record { width = width; rows = [] } }
    {
        Rows {
            width,
            count: 0,
            cells: Cells::new(alloc),
        }
    }

    /// Returns the number of variables, which is the length of each row.
    pub fn width(&self) -> usize
        ensures value { result ≡ self.now.width }
        ensures wide { All (λ row. length row ≡ self.now.width) self.now.rows }
    {
        self.width
    }

    /// Returns the number of rows.
    pub fn len(&self) -> usize
        ensures value { result ≡ length self.now.rows }
    {
        self.count
    }

    /// Replaces the contents of `row` with a row of the list.
    ///
    /// # Requires
    /// `i` is below `len`.
    ///
    /// # Errors
    /// `AllocError` if an allocation fails. The contents of `row` are then unspecified. If `row` has
    /// room for a row, nothing is allocated.
    pub fn read(&self, i: usize, row: &mut Vec<Option<u64>>) -> Result<(), AllocError>
        requires inside { i < length self.now.rows }
        ensures found { OnOk result (slice_get self.now.rows i ≡ Some row.new.items) }
        ensures wide { OnOk result (length row.new.items ≡ self.now.width) }
    {
        let start = start_of(&self.cells, self.width, self.count, i);
        self.cells.read(start, self.width, row)?;
        Ok(())
    }

    /// Appends a row.
    ///
    /// # Requires
    /// The row is as long as `width`.
    ///
    /// # Errors
    /// `AllocError` if an allocation fails. The rows are unchanged.
    pub fn push(&mut self, row: &[Option<u64>]) -> Result<(), AllocError>
        requires wide { length row.now ≡ self.old.width }
        ensures added { OnOk result (self.new.rows ≡ self.old.rows ++ row.now ∷ []) }
        ensures unchanged { OnErr result (self.new.rows ≡ self.old.rows) }
        ensures width { self.new.width ≡ self.old.width }
    {
        add_cells(&mut self.cells, row)?;
        let _long = self.cells.len();
        self.count += 1;
        Ok(())
    }

    /// Removes the last row. Allocates nothing.
    ///
    /// # Requires
    /// There is a row.
    pub fn pop(&mut self)
        requires some { 0 < length self.old.rows }
        ensures popped { self.new.rows ≡ take (length self.old.rows - 1) self.old.rows }
        ensures width { self.new.width ≡ self.old.width }
    {
        let last = self.count - 1;
        let start = start_of(&self.cells, self.width, self.count, last);
        self.cells.truncate(start);
        self.count = last;
    }

    /// Returns the number that a row binds a variable to, or None.
    ///
    /// # Requires
    /// `row` is below `len`, and `variable` below `width`.
    pub fn get(&self, row: usize, variable: usize) -> Option<u64>
        requires row { row < length self.now.rows }
        requires variable { variable < self.now.width }
        ensures value { result ≡ get_or (get_or self.now.rows row []) variable None }
    {
        let start = start_of(&self.cells, self.width, self.count, row);
        self.cells.get(start + variable)
    }

    /// Unbinds the variables that are not kept, in every row (the restriction of a solution mapping
    /// to the variables of a projection; SPARQL 1.1 Query Language, section 18.5, Project).
    /// Allocates nothing.
    ///
    /// # Requires
    /// `kept` is as long as `width`.
    pub fn restrict(&mut self, kept: &[bool])
        requires wide { length kept.now ≡ self.old.width }
        ensures restricted { self.new.rows
            ≡ map (restrict (λ k. get_or kept.now k false)) self.old.rows }
        ensures width { self.new.width ≡ self.old.width }
    {
        restrict_cells(&mut self.cells, self.count, kept);
    }

    /// Appends the rows of another list. If there are no rows yet, none is copied.
    ///
    /// # Requires
    /// The other list has the same width.
    ///
    /// # Errors
    /// `AllocError` if an allocation fails. The rows are unchanged, and the other list is dropped.
    pub fn append(&mut self, others: Rows) -> Result<(), AllocError>
        requires same_width { others.width ≡ self.old.width }
        ensures added { OnOk result (self.new.rows ≡ self.old.rows ++ others.rows) }
        ensures unchanged { OnErr result (self.new.rows ≡ self.old.rows) }
        ensures width { self.new.width ≡ self.old.width }
    {
        if self.count == 0 {
            *self = others;
            return Ok(());
        }
        self.extend(&others)
    }

    /// Appends copies of the rows of another list.
    ///
    /// # Requires
    /// The other list has the same width.
    ///
    /// # Errors
    /// `AllocError` if an allocation fails. The rows are unchanged.
    pub fn extend(&mut self, others: &Rows) -> Result<(), AllocError>
        requires same_width { others.now.width ≡ self.old.width }
        ensures added { OnOk result (self.new.rows ≡ self.old.rows ++ others.now.rows) }
        ensures unchanged { OnErr result (self.new.rows ≡ self.old.rows) }
        ensures width { self.new.width ≡ self.old.width }
    {
        self.cells.append(&others.cells)?;
        let _long = self.cells.len();
        self.count += others.count;
        Ok(())
    }
}
