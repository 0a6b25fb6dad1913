//! Errors of conditions over pairs of rows that a join by keys leaves out.
//!
//! No condition that requires two terms to be equal is true of a pair with different keys, so a join
//! leaves such pairs out. But the condition may be an error over them: the equality of an xsd:double
//! and another literal is one, and so is STR of a blank node. These pairs are counted here. They do
//! not change the result.
//!
//! If a condition is one equality of variables, its value over a pair depends on the classes of the two
//! terms (`separated_classes`). Other conditions are tested on each pair with such a term, up to a
//! limit (`separated_pairs`).
//!
//! If the condition is tested after other filters or joins, and there are few pairs, all pairs are joined, so
//! that it is tested on each of them. If there are too many, those with such a term are added to the rows of
//! the join (`separated_rows`), but no more than further joins make few rows of (`tree_sizes`). If there are
//! more, it is noted that some were left out.
ghost use Rattle.std.specs.Prelude.{◌≡◌};
ghost use Rattle.sparql_eval.specs.Evaluated.{AreKnown};
ghost use Rattle.sparql_eval.specs.Fitting.{AreStillEvaluated};

use crate::equalities::Equality;
use crate::pair_counts::{all_pairs, may_share, most_compatible};
use crate::separated_pairs::{PAIRS_AT_LEAST, PAIRS_FOR_A_VALUE, Pairs, Side, may_fail};
use dict_core::Dict;
use expression_errors::Place;
use row_core::Rows;
use sparql_algebra::Expr;
use std::alloc::{AllocError, Global};

/// The number of rows that further joins may make of pairs that are all joined.
const ROWS_AT_MOST: usize = 1_000_000;

/// A condition that is tested on the rows of a join, and the place where its errors are counted.
#[derive(Clone, Copy)]
pub(crate) struct Tested<'a> {
    pub(crate) condition: &'a Expr,
    pub(crate) place: Place<'a>,
    /// The number of rows that further joins make of one row, if there are further joins before all
    /// equalities are tested.
    pub(crate) further: Option<usize>,
    /// The places of the filters around this one, if they require some of the equalities. The first is
    /// that of the outermost filter.
    pub(crate) around: &'a [Place<'a>],
}

impl<'a> Tested<'a> {
    /// Returns the condition for rows that are joined to this number of others before it is tested.
    pub(crate) fn after_a_join(&self, others: usize) -> Tested<'a> {
        Tested {
            condition: self.condition,
            place: self.place,
            further: Some(self.rows_of(others)),
            around: self.around,
        }
    }

    /// Returns whether the condition is tested on all rows of the join: they are not joined to others
    /// before, and pass no other filter.
    fn is_last(&self) -> bool {
        self.further.is_none() && self.around.is_empty()
    }

    /// Returns the number of pairs of which further joins make few rows.
    fn most_pairs(&self) -> usize {
        ROWS_AT_MOST / self.rows_of(1).max(1)
    }

    /// Returns whether all pairs are joined to find a row over which the condition has a value: it had none
    /// over the rows before, and further joins make few rows of these pairs.
    fn looks_for_a_value(&self, pairs: usize) -> bool {
        pairs.max(self.rows_of(pairs)) <= PAIRS_FOR_A_VALUE && !self.place.is_valued()
    }

    /// Returns the number of rows that further joins make of some pairs.
    fn rows_of(&self, pairs: usize) -> usize {
        pairs.saturating_mul(self.further.unwrap_or(1))
    }
}

/// Returns the places of a filter and of those around it for a filter below it, if they require equalities.
pub(crate) fn places_around<'a>(
    alloc: Global,
    pairs: &[Equality],
    outer: Option<&Tested<'a>>,
) -> Result<Vec<Place<'a>>, AllocError> {
    let mut places = Vec::new(alloc);
    if let Some(outer) = outer {
        if !pairs.is_empty() {
            places.extend_from_slice(outer.around)?;
            places.push(outer.place)?;
        }
    }
    Ok(places)
}

/// Returns the number of rows that further joins make of one row of a filter, if there are further joins
/// before the equalities are tested that the filter around it requires.
pub(crate) fn further_around(pairs: &[Equality], outer: Option<&Tested<'_>>) -> Option<usize> {
    match outer {
        Some(outer) if !pairs.is_empty() => outer.further,
        _ => None,
    }
}

/// Returns whether all pairs of rows are to be joined: there is no key, or errors over pairs with
/// different keys are counted when the condition is tested on them. This holds in these cases:
///
/// - The condition is tested on all rows of the join. Without the keys it is tested on few pairs, since
///   they have terms for a common variable. Otherwise they are counted apart.
/// - The rows pass other filters later, but are tested at once. They are few.
/// - The rows are joined to others before. They are few, and further joins make few rows of them. An equality
///   may be an error over them, or they are even fewer and no row before had a value.
pub(crate) fn is_joined_whole(
    alloc: Global,
    dict: &Dict,
    left: &Rows,
    right: &Rows,
    keys: &[Equality],
    tested: &Tested<'_>,
) -> bool
    requires known_left { AreKnown dict.now left.now }
    requires known_right { AreKnown dict.now right.now }
{
    if keys.is_empty() {
        return true;
    }
    if !tested.place.is_counted() {
        return false;
    }
    let pairs = all_pairs(left, right);
    let are_few = pairs <= PAIRS_AT_LEAST;
    if tested.further.is_some() {
        are_few
            && tested.rows_of(pairs) <= ROWS_AT_MOST
            && (!tested.around.is_empty()
                || tested.looks_for_a_value(pairs)
                || may_fail_at_all(dict, left, right, keys))
    } else if tested.around.is_empty() {
        !are_few
            && may_be_few_compatible(left, right)
            && may_fail_at_all(dict, left, right, keys)
            && are_few_compatible(alloc, left, right)
    } else {
        are_few || are_few_compatible(alloc, left, right)
    }
}

/// Returns whether an equality may be an error over a term and a term with another key.
fn may_fail_at_all(dict: &Dict, left: &Rows, right: &Rows, keys: &[Equality]) -> bool
    requires known_left { AreKnown dict.now left.now }
    requires known_right { AreKnown dict.now right.now }
{
    may_fail(dict, left, keys, Side::Left) || may_fail(dict, right, keys, Side::Right)
}

/// Returns false if the compatible pairs are more than the rows, and a look at the first rows shows it.
fn may_be_few_compatible(left: &Rows, right: &Rows) -> bool {
    may_share(left, right) || all_pairs(left, right) <= left.len().saturating_add(right.len())
}

/// Returns whether the compatible pairs are not more than the rows.
fn are_few_compatible(alloc: Global, left: &Rows, right: &Rows) -> bool {
    match most_compatible(alloc, left, right) {
        Ok(pairs) => pairs <= left.len().saturating_add(right.len()),
        Err(_) => false,
    }
}

/// Counts the pairs of rows with different keys over which the condition is an error. Without memory for
/// it, they are not counted. Does nothing if the condition is not tested on all rows of the join.
#[tactic(auto, using(crate::proofs::ReadingLaws::rows_known_at))]
pub(crate) fn count_separated(
    alloc: Global,
    dict: &Dict,
    left: &Rows,
    right: &Rows,
    keys: &[Equality],
    tested: &Tested<'_>,
)
    requires same_width { left.now.width ≡ right.now.width }
    requires known_left { AreKnown dict.now left.now }
    requires known_right { AreKnown dict.now right.now }
{
    if tested.place.is_counted() && tested.is_last() {
        let pairs = Pairs {
            alloc,
            dict,
            left,
            right,
            keys,
            condition: tested.condition,
            place: tested.place,
        };
        let _ = pairs.count();
    }
}

/// Adds to the rows of a join by keys the pairs with different keys over which an equality may be an error, so
/// that the condition is tested on them later. Then notes that nobody looks at the others, if there are any.
/// Does nothing if the condition is tested on all rows of the join.
#[tactic(auto, using(crate::proofs::ReadingLaws::rows_known_at))]
pub(crate) fn add_separated(
    alloc: Global,
    dict: &Dict,
    left: &Rows,
    right: &Rows,
    keys: &[Equality],
    tested: &Tested<'_>,
    made: &mut Rows,
)
    requires same_width { left.now.width ≡ right.now.width }
    requires known_left { AreKnown dict.now left.now }
    requires known_right { AreKnown dict.now right.now }
    requires wide { made.old.width ≡ left.now.width }
    ensures evaluated { AreStillEvaluated dict.now keys.now made.old made.new }
{
    if !tested.place.is_counted() || tested.is_last() {
        return;
    }
    let pairs = Pairs {
        alloc,
        dict,
        left,
        right,
        keys,
        condition: tested.condition,
        place: tested.place,
    };
    let fails = add_failing(&pairs, tested, made);
    pairs.note(tested.around, made.len(), fails);
}

/// Adds the pairs over which an equality may be an error, if there is room for them. Returns whether there may
/// be more of them. Without memory for it, not all of them are added.
fn add_failing(pairs: &Pairs<'_>, tested: &Tested<'_>, made: &mut Rows) -> bool
    requires wide { made.old.width ≡ pairs.now.left.now.width }
    ensures evaluated { AreStillEvaluated pairs.now.dict.now pairs.now.keys.now made.old made.new }
{
    if !pairs.may_fail() {
        return false;
    }
    let most = made.len().saturating_add(tested.most_pairs());
    match pairs.add_to(made, most) {
        Ok(are_all) => !are_all,
        Err(_) => true,
    }
}
