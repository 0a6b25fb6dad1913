//! Pairs of rows that a join by one key leaves out, counted by the classes of their terms.
//!
//! One pair of each two classes is tested, for all pairs of rows with terms of these classes. The number of
//! pairs follows from the keys of both sides.
use crate::equalities::Equality;
use crate::keyed_rows::key_number;
use crate::pair_counts::{all_pairs, equal_pairs};
use crate::separated_pairs::{PAIRS_AT_LEAST, Pairs, Side};
use expression_errors::TermClass;
use std::alloc::AllocError;

/// The number of classes of one side. Rows of further classes are not counted by classes.
const MOST_CLASSES: usize = 32;

/// The rows whose terms have one class, and the first of them.
#[derive(Clone, Copy)]
struct ClassRows<'a> {
    class: TermClass<'a>,
    first: usize,
    rows: u64,
}

impl<'a> Pairs<'a> {
    /// Counts the pairs with different keys over which the condition is an error. The condition is the
    /// equality of the key.
    pub(crate) fn count_by_classes(&self, key: Equality) -> Result<(), AllocError> {
        let (lefts, has_lefts) = self.classes(Side::Left, key)?;
        let (rights, has_rights) = self.classes(Side::Right, key)?;
        if !has_lefts || !has_rights {
            if all_pairs(self.left, self.right) <= PAIRS_AT_LEAST {
                return self.count_one_by_one();
            }
            self.place.note_partial();
        }
        for one in &lefts {
            for other in &rights {
                if one.class.is_error_with(other.class) {
                    self.count_classes(key, *one, *other)?;
                }
            }
        }
        Ok(())
    }

    /// Counts the pairs of rows of these classes.
    fn count_classes(
        &self,
        key: Equality,
        one: ClassRows<'_>,
        other: ClassRows<'_>,
    ) -> Result<(), AllocError> {
        if let Some((row, other_row)) = self.apart_rows(key, one, other) {
            let rows = self.separated_rows(key, one, other)?;
            self.count_pair(row, other_row, rows)?;
        }
        Ok(())
    }

    /// Returns the classes of the terms of a side, and whether they are all.
    fn classes(&self, side: Side, key: Equality) -> Result<(Vec<ClassRows<'a>>, bool), AllocError> {
        let mut found = Vec::new(self.alloc);
        let mut are_all = true;
        for row in 0..self.len(side) {
            if let Some(number) = self.cell(side, row, side.variable(key)) {
                are_all &= add_row(&mut found, TermClass::new(self.dict.term(number)), row)?;
            }
        }
        Ok((found, are_all))
    }

    /// Returns two rows with terms of these classes and different keys, if the first row of one of the
    /// classes is one of them.
    fn apart_rows(
        &self,
        key: Equality,
        one: ClassRows<'_>,
        other: ClassRows<'_>,
    ) -> Option<(usize, usize)> {
        if let Some(row) = self.first_apart(key, Side::Right, other, one.first) {
            return Some((one.first, row));
        }
        match self.first_apart(key, Side::Left, one, other.first) {
            Some(row) => Some((row, other.first)),
            None => None,
        }
    }

    /// Returns the first row of a side with a term of this class whose key is not that of a row of the
    /// other side.
    fn first_apart(
        &self,
        key: Equality,
        side: Side,
        class: ClassRows<'_>,
        other_row: usize,
    ) -> Option<usize> {
        let opposite = side.other();
        let other = self.cell(opposite, other_row, opposite.variable(key))?;
        for row in class.first..self.len(side) {
            if let Some(number) = self.cell(side, row, side.variable(key)) {
                let is_of_class = TermClass::new(self.dict.term(number)) == class.class;
                if is_of_class && key_number(self.dict, number) != key_number(self.dict, other) {
                    return Some(row);
                }
            }
        }
        None
    }

    /// Returns the number of pairs of rows with terms of these classes and different keys.
    fn separated_rows(
        &self,
        key: Equality,
        one: ClassRows<'_>,
        other: ClassRows<'_>,
    ) -> Result<u64, AllocError> {
        let keys = self.sorted_keys(Side::Left, key, one)?;
        let other_keys = self.sorted_keys(Side::Right, key, other)?;
        let met = equal_pairs(keys.as_slice(), other_keys.as_slice());
        Ok(one.rows.saturating_mul(other.rows).saturating_sub(met))
    }

    /// Returns the key numbers of the terms of this class, sorted.
    fn sorted_keys(
        &self,
        side: Side,
        key: Equality,
        class: ClassRows<'_>,
    ) -> Result<Vec<u64>, AllocError> {
        let mut keys = Vec::new(self.alloc);
        for row in class.first..self.len(side) {
            if let Some(number) = self.cell(side, row, side.variable(key)) {
                if TermClass::new(self.dict.term(number)) == class.class {
                    keys.push(key_number(self.dict, number))?;
                }
            }
        }
        keys.sort_unstable();
        Ok(keys)
    }
}

/// Adds a row to those of its class. Returns whether there is room for the class.
fn add_row<'a>(
    found: &mut Vec<ClassRows<'a>>,
    class: TermClass<'a>,
    row: usize,
) -> Result<bool, AllocError> {
    for i in 0..found.len() {
        if found[i].class == class {
            found[i].rows = found[i].rows.saturating_add(1);
            return Ok(true);
        }
    }
    if found.len() >= MOST_CLASSES {
        return Ok(false);
    }
    found.push(ClassRows {
        class,
        first: row,
        rows: 1,
    })?;
    Ok(true)
}
