//! How often each reason occurs, and where first.
ghost use Rattle.std.specs.Prelude.{◌≡◌, ◌≢◌, ◌+◌, ◌≤◌, ◌<◌, ◌^◌, ◌++◌, ◌∷◌, [], List, ℕ, Bool, IfOk, MatchBool, OnOk, OnErr, length, slice_index_or, vec_len, vec_capacity};
ghost use Rattle.std.specs.List.{All};
ghost use Rattle.line_diagnosis.specs.declared.summary.Summary.{Summary};
ghost use Rattle.malformed_lines.specs.Counts.{AreDistinct, HasNone, IsFirst, NameLinesFrom, NamesLineFrom, moved, reasons_of, sum_of, total_of};
ghost use Rattle.malformed_lines.specs.declared.reason_counts.ReasonCount.{ReasonCount};

use line_diagnosis::{Counted, Summary};
use std::alloc::{AllocError, Global};

/// How often a reason occurs, and the first line that has it.
#[derive(Clone, Copy)]
pub struct ReasonCount {
    /// The reason, without what was found in the line.
    pub reason: Summary,
    /// The number of malformed lines with this reason.
    pub count: u128,
    /// The number of the first of these lines. In the list of a piece it counts from 0, otherwise from 1.
    pub first: u128,
    /// The column of the place in the first of these lines, from 1.
    pub column: usize,
    /// The unit of the column.
    pub counted: Counted,
}

/// How often each reason occurs, in the order of the first lines. Each reason has one count.
#[derive(Drop)]
pub struct ReasonCounts {
    pub counts: Vec<ReasonCount>,
    ghost distinct: { AreDistinct counts.items },
}

/// Returns whether two reasons are the same.
fn is_same(a: Summary, b: Summary) -> bool
    ensures value { MatchBool result (a ≡ b) (a ≢ b) }
{
    a == b
}

impl ReasonCounts {
    /// Returns no counts. Allocates nothing.
    pub(crate) fn new(alloc: Global) -> ReasonCounts
        ensures empty { result.counts.items ≡ [] }
    {
        ReasonCounts {
            counts: Vec::new(alloc),
        }
    }

    /// Returns the place of a reason, or the number of reasons if it has no count yet.
    fn place_of(&self, reason: Summary) -> usize
        ensures within { result ≤ length self.now.counts.items }
        ensures same { result < length self.now.counts.items → (d : Summary)
            → slice_index_or (reasons_of self.now.counts.items) result d ≡ reason }
        ensures none { length self.now.counts.items ≤ result → HasNone reason self.now.counts.items }
    {
        for i in 0..self.counts.len() {
            if is_same(self.counts[i].reason, reason) {
                return i;
            }
        }
        self.counts.len()
    }

    /// Makes room for more reasons.
    ///
    /// # Errors
    /// `AllocError` if an allocation fails. The counts are unchanged.
    fn reserve(&mut self, n: usize) -> Result<(), AllocError>
        ensures unchanged { self.new.counts.items ≡ self.old.counts.items }
        ensures room { OnOk result (vec_len self.new.counts + n ≤ vec_capacity self.new.counts) }
    {
        self.counts.reserve(n)
    }

    /// Adds a count to that of its reason. A new reason takes room that was reserved.
    fn add_reserved(&mut self, more: ReasonCount)
        requires countable { total_of self.old.counts.items + more.count < 2 ^ 128 }
        requires room { vec_len self.old.counts < vec_capacity self.old.counts }
        ensures total { total_of self.new.counts.items
            ≡ total_of self.old.counts.items + more.count }
        ensures named { (n : ℕ) (lines : List (List ℕ)) → NameLinesFrom n lines self.old.counts.items
            → NamesLineFrom n lines more → NameLinesFrom n lines self.new.counts.items }
        ensures sums { (test : Summary → Bool) → sum_of test self.new.counts.items
            ≡ sum_of test self.old.counts.items + sum_of test (more ∷ []) }
        ensures firsts { (singles : List ReasonCount) → All (IsFirst singles) self.old.counts.items
            → (HasNone more.reason self.old.counts.items → IsFirst singles more)
            → All (IsFirst singles) self.new.counts.items }
        ensures complete { (r : Summary) → HasNone r self.new.counts.items
            → HasNone r self.old.counts.items × (more.reason ≢ r) }
        ensures few { vec_len self.new.counts ≤ vec_len self.old.counts + 1 }
        ensures capacity { vec_capacity self.new.counts ≡ vec_capacity self.old.counts }
    {
        let place = self.place_of(more.reason);
        if place < self.counts.len() {
            self.counts[place].count += more.count;
        } else {
            self.counts.push_reserved(more);
        }
    }

    /// Adds a count to that of its reason.
    ///
    /// # Errors
    /// `AllocError` if an allocation fails. The counts are unchanged.
    pub(crate) fn add(&mut self, more: ReasonCount) -> Result<(), AllocError>
        requires countable { total_of self.old.counts.items + more.count < 2 ^ 128 }
        ensures named { OnOk result ((n : ℕ) (lines : List (List ℕ))
            → NameLinesFrom n lines self.old.counts.items → NamesLineFrom n lines more
            → NameLinesFrom n lines self.new.counts.items) }
        ensures total { OnOk result (total_of self.new.counts.items
            ≡ total_of self.old.counts.items + more.count) }
        ensures sums { OnOk result ((test : Summary → Bool) → sum_of test self.new.counts.items
            ≡ sum_of test self.old.counts.items + sum_of test (more ∷ [])) }
        ensures firsts { OnOk result ((singles : List ReasonCount)
            → All (IsFirst singles) self.old.counts.items
            → (HasNone more.reason self.old.counts.items → IsFirst singles more)
            → All (IsFirst singles) self.new.counts.items) }
        ensures complete { OnOk result ((r : Summary) → HasNone r self.new.counts.items
            → HasNone r self.old.counts.items × (more.reason ≢ r)) }
        ensures unchanged { OnErr result (self.new.counts.items ≡ self.old.counts.items) }
    {
        self.reserve(1)?;
        self.add_reserved(more);
        Ok(())
    }

    /// Adds the counts of a piece. `before` is the number of lines before the piece.
    ///
    /// # Errors
    /// `AllocError` if an allocation fails. The counts are unchanged.
    pub(crate) fn add_all(&mut self, before: u128, more: &[ReasonCount]) -> Result<(), AllocError>
        requires countable { total_of self.old.counts.items + total_of more.now < 2 ^ 128 }
        ensures named { OnOk result ((front back : List (List ℕ)) → before ≡ length front
            → length front + length back < 2 ^ 128
            → NameLinesFrom 1 (front ++ back) self.old.counts.items → NameLinesFrom 0 back more.now
            → NameLinesFrom 1 (front ++ back) self.new.counts.items) }
        ensures total { OnOk result (total_of self.new.counts.items
            ≡ total_of self.old.counts.items + total_of more.now) }
        ensures sums { OnOk result ((test : Summary → Bool) → sum_of test self.new.counts.items
            ≡ sum_of test self.old.counts.items + sum_of test more.now) }
        ensures firsts { OnOk result ((singles : List ReasonCount)
            → All (λ c. before + (c.first + 1) < 2 ^ 128) more.now
            → All (IsFirst singles) self.old.counts.items
            → All (λ c. HasNone c.reason self.old.counts.items → IsFirst singles (moved before c)) more.now
            → All (IsFirst singles) self.new.counts.items) }
        ensures complete { OnOk result ((r : Summary) → HasNone r self.new.counts.items
            → HasNone r self.old.counts.items × HasNone r more.now) }
        ensures unchanged { OnErr result (self.new.counts.items ≡ self.old.counts.items) }
    {
        self.reserve(more.len())?;
        for count in more {
            self.add_reserved(ReasonCount {
                first: before.saturating_add(count.first).saturating_add(1),
                ..*count
            });
        }
        Ok(())
    }
}
