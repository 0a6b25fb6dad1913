//! A row in its list. Its cells are read where they are; the row is not copied.
ghost use Rattle.std.specs.Prelude.{◌≡◌, ◌<◌, All, IfOk, IsTrue, None, Some, get_or, length, map, nat_eq};
ghost use Rattle.algebra_model.specs.Keys.{is_keyed};
ghost use Rattle.algebra_model.specs.Operators.{share};
ghost use Rattle.algebra_model.specs.RowOrder.{cells};
ghost use Rattle.algebra_model.specs.Solution.{agree, is_compatible};

use row_core::Rows;
use std::alloc::AllocError;

/// A row of a list, named by its place.
#[derive(Clone, Copy)]
pub(crate) struct RowRef<'r> {
    pub(crate) rows: &'r Rows,
    pub(crate) at: usize,
    pub(crate) ghost inside: { at < length rows.now.rows },
}

/// Returns whether two cells are equal or at least one of them is unbound.
fn agrees(x: Option<u64>, y: Option<u64>) -> bool
    ensures value { result ≡ agree nat_eq x y }
{
    match (x, y) {
        (Some(x), Some(y)) => x == y,
        _ => true,
    }
}

impl<'r> RowRef<'r> {
    ghost use Rattle.row_join.specs.Row.{row_of};

    /// Returns the number of variables, which is the length of the row.
    pub(crate) fn width(self) -> usize
        ensures value { result ≡ self.entry.rows.now.width }
        ensures wide { length (row_of self.entry) ≡ self.entry.rows.now.width }
    {
        self.rows.width()
    }

    /// Returns the number that the row binds a variable to, or None.
    pub(crate) fn get(self, variable: usize) -> Option<u64>
        requires below { variable < self.rows.now.width }
        ensures value { result ≡ get_or (row_of self.entry) variable None }
    {
        self.rows.get(self.at, variable)
    }

    /// Returns whether two rows agree on every variable that both bind (SPARQL 1.1 Query Language,
    /// section 18.3, compatible mappings).
    pub(crate) fn is_compatible(self, other: RowRef<'_>) -> bool
        requires same_width { self.rows.now.width ≡ other.rows.now.width }
        ensures value { result ≡ is_compatible nat_eq (row_of self.entry) (row_of other.entry) }
    {
        let _wide = other.width();
        for variable in 0..self.width() {
            if !agrees(self.get(variable), other.get(variable)) {
                return false;
            }
        }
        true
    }

    /// Returns whether some variable is bound in both rows.
    pub(crate) fn shares(self, other: RowRef<'_>) -> bool
        requires same_width { self.rows.now.width ≡ other.rows.now.width }
        ensures value { result ≡ share (row_of self.entry) (row_of other.entry) }
    {
        let _wide = other.width();
        for variable in 0..self.width() {
            if self.get(variable).is_some() && other.get(variable).is_some() {
                return true;
            }
        }
        false
    }

    /// Replaces the contents of `numbers` with the numbers that the row binds the key's variables to,
    /// and returns whether the row binds them all. If it does not, the contents of `numbers` are
    /// unspecified.
    ///
    /// # Errors
    /// `AllocError` if an allocation fails. The contents of `numbers` are then unspecified.
    pub(crate) fn read_key(self, key: &[usize], numbers: &mut Vec<u64>) -> Result<bool, AllocError>
        requires below { All (λ v. v < self.rows.now.width) key.now }
        ensures keyed { IfOk result (λ b. b ≡ is_keyed key.now (row_of self.entry)) }
        ensures read { IfOk result (λ b. IsTrue b
            → map Some numbers.new.items ≡ cells key.now (row_of self.entry)) }
    {
        numbers.clear();
        for i in 0..key.len() {
            match self.get(key[i]) {
                Some(number) => numbers.push(number)?,
                None => return Ok(false),
            }
        }
        Ok(true)
    }
}
