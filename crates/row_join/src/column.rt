//! One variable of rows: how many rows leave it unbound, and between which bounds its numbers are.
//! If these are close together, each row has a slot, and no hash is needed.
ghost use Rattle.std.specs.Prelude.{◌≡◌, ◌+◌, ◌<◌, ◌≤◌, ◌^◌, IfSome, None, filter, get_or, is_none, length};
ghost use Rattle.row_join.specs.Slots.{AreBetween, slot_at};

use row_core::Rows;

/// Numbers are close together if from the least to the greatest there are at most this many for
/// each row.
const NUMBERS_A_ROW: usize = 8;

/// A variable of rows, with what one pass over the rows finds: the number of rows that leave it
/// unbound, and the least and the greatest number. If no row binds it, the least number is above
/// the greatest.
#[derive(Clone, Copy)]
pub(crate) struct Column<'r> {
    rows: &'r Rows,
    variable: usize,
    open_rows: usize,
    least: u64,
    greatest: u64,
    ghost below: { variable < rows.now.width },
    ghost between: { AreBetween rows.now.rows variable least (greatest + 1) },
}

/// A variable of rows whose numbers are close together. The slot of a number is how far it is above
/// the least one; there are `span` of these. The rows that leave the variable unbound have the
/// slot after them.
#[derive(Clone, Copy)]
pub(crate) struct CloseColumn<'r> {
    rows: &'r Rows,
    pub(crate) variable: usize,
    pub(crate) least: u64,
    pub(crate) span: usize,
    ghost below: { variable < rows.now.width },
    ghost between: { AreBetween rows.now.rows variable least (least + span) },
    ghost few: { length rows.now.rows < 2 ^ 32 },
}

impl<'r> Column<'r> {
    /// Reads a variable of all rows.
    pub(crate) fn read(rows: &'r Rows, variable: usize) -> Column<'r>
        requires below { variable < rows.now.width }
        ensures rows { result.rows.now ≡ rows.now }
        ensures variable { result.variable ≡ variable }
        ensures open_rows { result.open_rows
            ≡ length (filter (λ μ. is_none (get_or μ variable None)) rows.now.rows) }
    {
        let mut open_rows: usize = 0;
        let mut least = u64::MAX;
        let mut greatest: u64 = 0;
        for i in 0..rows.len() {
            let cell = rows.get(i, variable);
            if cell.is_none() {
                open_rows += 1;
            }
            least = least.min(cell.unwrap_or(u64::MAX));
            greatest = greatest.max(cell.unwrap_or(0));
        }
        Column {
            rows,
            variable,
            open_rows,
            least,
            greatest,
        }
    }

    /// Returns the number of rows.
    pub(crate) fn len(&self) -> usize {
        self.rows.len()
    }

    /// Returns the number of rows that leave the variable unbound.
    pub(crate) fn open_rows(&self) -> usize {
        self.open_rows
    }

    /// Returns the column with slots, if its numbers are close together. Returns None if they are
    /// not, if no row binds the variable, or if there are 2^32 rows or more.
    pub(crate) fn close(&self) -> Option<CloseColumn<'r>>
        ensures rows { IfSome result (λ column. column.rows.now ≡ self.now.rows.now) }
        ensures variable { IfSome result (λ column. column.variable ≡ self.now.variable) }
    {
        let above = self.greatest.checked_sub(self.least)?;
        let most = self.rows.len().saturating_mul(NUMBERS_A_ROW) as u64;
        if above < most && self.rows.len() <= u32::MAX as usize {
            return Some(CloseColumn {
                rows: self.rows,
                variable: self.variable,
                least: self.least,
                span: above as usize + 1,
            });
        }
        None
    }
}

impl<'r> CloseColumn<'r> {
    /// Returns the number of rows.
    pub(crate) fn len(&self) -> usize
        ensures value { result ≡ length self.now.rows.now.rows }
    {
        self.rows.len()
    }

    /// Returns the slot of the row at a place.
    pub(crate) fn slot(&self, place: usize) -> usize
        requires within { place < length self.now.rows.now.rows }
        ensures value { result
            ≡ slot_at self.now.rows.now.rows self.now.variable self.now.least self.now.span place }
        ensures within { result ≤ self.now.span }
    {
        match self.rows.get(place, self.variable) {
            Some(number) => (number - self.least) as usize,
            None => self.span,
        }
    }
}
