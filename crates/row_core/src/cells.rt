//! The cells of rows in one buffer. A cell takes 4 bytes, unless a number of the rows is too large.
ghost use Rattle.std.specs.Prelude.{◌≡◌, ◌+◌, ◌<◌, ◌≤◌, ◌^◌, ◌++◌, true, [], length, map, set, take, drop, get_or, None, IfOk, OnOk, OnErr};
ghost use Rattle.std.specs.List.{list_all};
ghost use Rattle.row_core.specs.Cells.{cell_of, cells_of, has_code, is_small};

use std::alloc::{AllocError, Global};

/// The code of an unbound cell. A smaller number is its own code.
pub(crate) const UNBOUND: u32 = u32::MAX;

/// A list of cells. A cell is a number, or None if it is unbound.
#[derive(Drop)]
pub(crate) enum Cells {
    /// The code of each cell, in 4 bytes.
    Narrow(Vec<u32>),
    /// The cells as they are, in 16 bytes each. Some number has no code.
    Wide(Vec<Option<u64>>),
}

/// Returns whether a number is its own code.
fn is_small(number: u64) -> bool
    ensures value { result ≡ is_small number }
{
    number < UNBOUND as u64
}

/// Returns the cell of a code.
fn cell_of(code: u32) -> Option<u64>
    ensures value { result ≡ cell_of code }
{
    is_small(code as u64).then_some(code as u64)
}

/// Returns whether a cell has a code.
fn has_code(cell: Option<u64>) -> bool
    ensures value { result ≡ has_code cell }
{
    match cell {
        Some(number) => is_small(number),
        None => true,
    }
}

/// Returns the code of a cell.
fn code_of(cell: Option<u64>) -> u32
    requires coded { has_code cell ≡ true }
    ensures cell { cell_of result ≡ cell }
{
    match cell {
        Some(number) => number as u32,
        None => UNBOUND,
    }
}

/// Returns whether each cell has a code.
fn have_codes(cells: &[Option<u64>]) -> bool
    ensures value { result ≡ list_all has_code cells.now }
{
    for i in 0..cells.len() {
        if !has_code(cells[i]) {
            return false;
        }
    }
    true
}

/// Appends the codes of cells.
fn push_codes(codes: &mut Vec<u32>, cells: &[Option<u64>]) -> Result<(), AllocError>
    requires coded { list_all has_code cells.now ≡ true }
    ensures added { OnOk result (map cell_of codes.new.items ≡ map cell_of codes.old.items ++ cells.now) }
    ensures unchanged { OnErr result (codes.new.items ≡ codes.old.items) }
{
    codes.reserve(cells.len())?;
    for cell in cells {
        codes.push_reserved(code_of(*cell));
    }
    Ok(())
}

/// Appends the cells of codes.
fn push_cells(cells: &mut Vec<Option<u64>>, codes: &[u32]) -> Result<(), AllocError>
    ensures added { OnOk result (cells.new.items ≡ cells.old.items ++ map cell_of codes.now) }
    ensures unchanged { OnErr result (cells.new.items ≡ cells.old.items) }
{
    cells.reserve(codes.len())?;
    for code in codes {
        cells.push_reserved(cell_of(*code));
    }
    Ok(())
}

/// Returns the cells of codes, followed by further cells.
fn widened(codes: &Vec<u32>, further: &[Option<u64>]) -> Result<Vec<Option<u64>>, AllocError>
    ensures cells { IfOk result (λ cells. cells.items ≡ map cell_of codes.now.items ++ further.now) }
{
    let mut cells = Vec::new(*codes.allocator());
    push_cells(&mut cells, codes)?;
    cells.extend_from_slice(further)?;
    Ok(cells)
}

impl Cells {
    /// Creates an empty list. Allocates nothing.
    pub(crate) fn new(alloc: Global) -> Cells
        ensures empty { cells_of result ≡ [] }
    {
        Cells::Narrow(Vec::new(alloc))
    }

    /// Returns the number of cells.
    pub(crate) fn len(&self) -> usize
        ensures value { result ≡ length (cells_of self.now) }
    {
        match self {
            Cells::Narrow(codes) => codes.len(),
            Cells::Wide(cells) => cells.len(),
        }
    }

    /// Returns a cell.
    pub(crate) fn get(&self, at: usize) -> Option<u64>
        requires within { at < length (cells_of self.now) }
        ensures value { result ≡ get_or (cells_of self.now) at None }
    {
        match self {
            Cells::Narrow(codes) => cell_of(codes[at]),
            Cells::Wide(cells) => cells[at],
        }
    }

    /// Replaces the contents of `row` with `width` cells from a place on.
    ///
    /// # Errors
    /// `AllocError` if an allocation fails. The contents of `row` are then unspecified.
    pub(crate) fn read(
        &self,
        start: usize,
        width: usize,
        row: &mut Vec<Option<u64>>,
    ) -> Result<(), AllocError>
        requires inside { start + width ≤ length (cells_of self.now) }
        ensures read { OnOk result (row.new.items ≡ take width (drop start (cells_of self.now))) }
    {
        row.clear();
        match self {
            Cells::Narrow(codes) => push_cells(row, &codes[start..start + width]),
            Cells::Wide(cells) => row.extend_from_slice(&cells[start..start + width]),
        }
    }

    /// Unbinds a cell.
    pub(crate) fn unbind(&mut self, at: usize)
        requires within { at < length (cells_of self.old) }
        ensures unbound { cells_of self.new ≡ set (cells_of self.old) at None }
    {
        match self {
            Cells::Narrow(codes) => codes[at] = UNBOUND,
            Cells::Wide(cells) => cells[at] = None,
        }
    }

    /// Appends cells. If one of them has no code, all cells take 16 bytes from then on.
    ///
    /// # Errors
    /// `AllocError` if an allocation fails. The cells are unchanged.
    pub(crate) fn extend(&mut self, further: &[Option<u64>]) -> Result<(), AllocError>
        ensures added { OnOk result (cells_of self.new ≡ cells_of self.old ++ further.now) }
        ensures unchanged { OnErr result (cells_of self.new ≡ cells_of self.old) }
    {
        match self {
            Cells::Narrow(codes) => {
                if have_codes(further) {
                    return push_codes(codes, further);
                }
                let cells = widened(codes, further)?;
                *self = Cells::Wide(cells);
                Ok(())
            }
            Cells::Wide(cells) => cells.extend_from_slice(further),
        }
    }

    /// Appends the cells of codes.
    ///
    /// # Errors
    /// `AllocError` if an allocation fails. The cells are unchanged.
    fn extend_by_codes(&mut self, further: &[u32]) -> Result<(), AllocError>
        ensures added { OnOk result (cells_of self.new ≡ cells_of self.old ++ map cell_of further.now) }
        ensures unchanged { OnErr result (cells_of self.new ≡ cells_of self.old) }
    {
        match self {
            Cells::Narrow(codes) => codes.extend_from_slice(further),
            Cells::Wide(cells) => push_cells(cells, further),
        }
    }

    /// Appends the cells of another list.
    ///
    /// # Errors
    /// `AllocError` if an allocation fails. The cells are unchanged.
    pub(crate) fn append(&mut self, others: &Cells) -> Result<(), AllocError>
        ensures added { OnOk result (cells_of self.new ≡ cells_of self.old ++ cells_of others.now) }
        ensures unchanged { OnErr result (cells_of self.new ≡ cells_of self.old) }
    {
        match others {
            Cells::Narrow(codes) => self.extend_by_codes(codes),
            Cells::Wide(cells) => self.extend(cells),
        }
    }
    /// Appends `width` cells of another list, from a place on.
    ///
    /// # Errors
    /// `AllocError` if an allocation fails. The cells are unchanged.
    pub(crate) fn append_part(
        &mut self,
        others: &Cells,
        start: usize,
        width: usize,
    ) -> Result<(), AllocError>
        requires inside { start + width ≤ length (cells_of others.now) }
        ensures added { OnOk result (cells_of self.new
            ≡ cells_of self.old ++ take width (drop start (cells_of others.now))) }
        ensures unchanged { OnErr result (cells_of self.new ≡ cells_of self.old) }
    {
        match others {
            Cells::Narrow(codes) => self.extend_by_codes(&codes[start..start + width]),
            Cells::Wide(cells) => self.extend(&cells[start..start + width]),
        }
    }

    /// Keeps the first cells. Allocates nothing.
    pub(crate) fn truncate(&mut self, len: usize)
        ensures kept { cells_of self.new ≡ take len (cells_of self.old) }
    {
        match self {
            Cells::Narrow(codes) => codes.truncate(len),
            Cells::Wide(cells) => cells.truncate(len),
        }
    }

    /// Returns the allocator.
    pub(crate) fn allocator(&self) -> Global {
        match self {
            Cells::Narrow(codes) => *codes.allocator(),
            Cells::Wide(cells) => *cells.allocator(),
        }
    }
}
