//! The merge of two rows from their cells. If all cells are codes, no row is copied first.
ghost use Rattle.std.specs.Prelude.{◌≡◌, ◌+◌, ◌≤◌, ◌++◌, length, map, take, drop, nat_eq, if◌then◌else◌, IfOk, OnOk, OnErr};
ghost use Rattle.algebra_model.specs.Solution.{agree, bound_or, is_compatible, merge};
ghost use Rattle.row_core.specs.Cells.{cell_of, cells_of};

use crate::cells::{Cells, UNBOUND};
use crate::merging::{is_compatible, merge_into};
use std::alloc::{AllocError, Global};

/// Returns whether the cells of two codes are equal or at least one of them is unbound.
fn agrees(x: u32, y: u32) -> bool
    ensures value { result ≡ agree nat_eq (cell_of x) (cell_of y) }
{
    x == y || x == UNBOUND || y == UNBOUND
}

/// Returns the first code if its cell is bound, and the second one otherwise.
fn first_bound(x: u32, y: u32) -> u32
    ensures value { cell_of result ≡ bound_or (cell_of x) (cell_of y) }
{
    if x == UNBOUND { y } else { x }
}

/// Returns whether two rows of codes agree on every variable that both bind.
fn codes_agree(a: &[u32], b: &[u32]) -> bool
    requires same_width { length a.now ≡ length b.now }
    ensures value { result ≡ is_compatible nat_eq (map cell_of a.now) (map cell_of b.now) }
{
    for i in 0..a.len() {
        if !agrees(a[i], b[i]) {
            return false;
        }
    }
    true
}

/// Appends the codes of the merge of two rows.
fn push_bound(codes: &mut Vec<u32>, a: &[u32], b: &[u32]) -> Result<(), AllocError>
    requires same_width { length a.now ≡ length b.now }
    ensures added { OnOk result (map cell_of codes.new.items
        ≡ map cell_of codes.old.items ++ merge (map cell_of a.now) (map cell_of b.now)) }
    ensures unchanged { OnErr result (codes.new.items ≡ codes.old.items) }
{
    codes.reserve(a.len())?;
    for i in 0..a.len() {
        codes.push_reserved(first_bound(a[i], b[i]));
    }
    Ok(())
}

/// Appends the codes of the merge of two rows if these are compatible. Returns whether they are.
fn push_codes(codes: &mut Vec<u32>, a: &[u32], b: &[u32]) -> Result<bool, AllocError>
    requires same_width { length a.now ≡ length b.now }
    ensures merged { IfOk result (λ met. map cell_of codes.new.items ≡ (if met
        then map cell_of codes.old.items ++ merge (map cell_of a.now) (map cell_of b.now)
        else map cell_of codes.old.items)) }
    ensures met { IfOk result (λ met. met
        ≡ is_compatible nat_eq (map cell_of a.now) (map cell_of b.now)) }
    ensures unchanged { OnErr result (codes.new.items ≡ codes.old.items) }
{
    if !codes_agree(a, b) {
        return Ok(false);
    }
    push_bound(codes, a, b)?;
    Ok(true)
}

impl Cells {
    /// Appends the merge of two rows, whose cells are given by the place of the first one, if the rows
    /// are compatible. Returns whether they are.
    ///
    /// # Errors
    /// `AllocError` if an allocation fails. The cells are unchanged.
    pub(crate) fn push_merge(
        &mut self,
        left: &Cells,
        i: usize,
        right: &Cells,
        j: usize,
        width: usize,
    ) -> Result<bool, AllocError>
        requires left_inside { i + width ≤ length (cells_of left.now) }
        requires right_inside { j + width ≤ length (cells_of right.now) }
        ensures merged { IfOk result (λ met. cells_of self.new ≡ (if met
            then cells_of self.old ++ merge (take width (drop i (cells_of left.now)))
            (take width (drop j (cells_of right.now)))
            else cells_of self.old)) }
        ensures met { IfOk result (λ met. met ≡ is_compatible nat_eq
            (take width (drop i (cells_of left.now))) (take width (drop j (cells_of right.now)))) }
        ensures unchanged { OnErr result (cells_of self.new ≡ cells_of self.old) }
    {
        if let (Cells::Narrow(a), Cells::Narrow(b)) = (left, right) {
            if let Cells::Narrow(codes) = self {
                return push_codes(codes, &a[i..i + width], &b[j..j + width]);
            }
        }
        self.push_merge_read(left, i, right, j, width)
    }

    /// Does the same as `push_merge`, however the cells are held. Reads both rows first.
    ///
    /// # Errors
    /// `AllocError` if an allocation fails. The cells are unchanged.
    fn push_merge_read(
        &mut self,
        left: &Cells,
        i: usize,
        right: &Cells,
        j: usize,
        width: usize,
    ) -> Result<bool, AllocError>
        requires left_inside { i + width ≤ length (cells_of left.now) }
        requires right_inside { j + width ≤ length (cells_of right.now) }
        ensures merged { IfOk result (λ met. cells_of self.new ≡ (if met
            then cells_of self.old ++ merge (take width (drop i (cells_of left.now)))
            (take width (drop j (cells_of right.now)))
            else cells_of self.old)) }
        ensures met { IfOk result (λ met. met ≡ is_compatible nat_eq
            (take width (drop i (cells_of left.now))) (take width (drop j (cells_of right.now)))) }
        ensures unchanged { OnErr result (cells_of self.new ≡ cells_of self.old) }
    {
        let alloc = self.allocator();
        let mut a = Vec::new(alloc);
        let mut b = Vec::new(alloc);
        left.read(i, width, &mut a)?;
        right.read(j, width, &mut b)?;
        if !is_compatible(&a, &b) {
            return Ok(false);
        }
        let mut merged = Vec::new(alloc);
        merge_into(&mut merged, &a, &b)?;
        self.extend(&merged)?;
        Ok(true)
    }
}
