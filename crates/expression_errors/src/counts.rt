//! The number of rows for each expression and cause. Workers share it.
ghost use Rattle.std.specs.Prelude.{◌≡◌, ◌<◌, All, IfOk, OnOk, false, true};
ghost use Rattle.expression_errors.specs.Counts.{is_counted};

use crate::cause::Cause;
use crate::digest::{Owner, digest_of};
use expression_values::Expr;
use std::alloc::{AllocError, Global};
use std::sync::OnceLock;
use std::sync::atomic::{AtomicU64, Ordering};

/// The number of datatypes that have counts of their own at one expression. Rows of further ones are not
/// counted.
const MOST_DATATYPES: usize = 16;

/// The number of rows with a cause that has a datatype. The cause is set by the first such row.
struct DatatypeCounter {
    cause: OnceLock<Cause>,
    rows: AtomicU64,
}

impl Drop for DatatypeCounter {
    /// Written by hand (docs/PROOF.md).
    fn drop(self) {
        let DatatypeCounter { cause: _, rows: _ } = self;
    }
}

impl DatatypeCounter {
    fn new() -> DatatypeCounter {
        DatatypeCounter {
            cause: OnceLock::new(),
            rows: AtomicU64::new(0),
        }
    }

    /// Counts rows if the counter is for this cause, or is free. Returns whether they were counted.
    fn add(&self, alloc: Global, cause: &Cause, rows: u64) -> bool {
        if self.cause.get().is_none() {
            self.claim(alloc, cause);
        }
        match self.cause.get() {
            Some(own) => {
                let is_same = own == cause;
                if is_same {
                    self.rows.fetch_add(rows, Ordering::SeqCst);
                }
                is_same
            }
            None => false,
        }
    }

    /// Sets the cause, unless another worker is first or memory is short.
    fn claim(&self, alloc: Global, cause: &Cause) {
        if let Ok(copy) = cause.copy(alloc) {
            let _ = self.cause.try_set(copy);
        }
    }
}

/// The counts of one condition or value.
pub(crate) struct PartCounter {
    /// 1 if the condition or value was no error over some row.
    valued: AtomicU64,
    unbound: AtomicU64,
    /// The least number of an unbound variable.
    first_variable: AtomicU64,
    /// The largest number of an unbound variable.
    last_variable: AtomicU64,
    calls: AtomicU64,
    not_literals: AtomicU64,
    tagged: AtomicU64,
    kinds: AtomicU64,
    datatypes: Vec<DatatypeCounter>,
}

impl Drop for PartCounter {
    /// Written by hand (docs/PROOF.md).
    fn drop(self) {
        let PartCounter {
            valued: _,
            unbound: _,
            first_variable: _,
            last_variable: _,
            calls: _,
            not_literals: _,
            tagged: _,
            kinds: _,
            datatypes: _,
        } = self;
    }
}

impl PartCounter {
    fn new(alloc: Global) -> Result<PartCounter, AllocError> {
        let mut datatypes = Vec::with_capacity(alloc, MOST_DATATYPES)?;
        for _ in 0..MOST_DATATYPES {
            datatypes.push(DatatypeCounter::new())?;
        }
        Ok(PartCounter {
            valued: AtomicU64::new(0),
            unbound: AtomicU64::new(0),
            first_variable: AtomicU64::new(u64::MAX),
            last_variable: AtomicU64::new(0),
            calls: AtomicU64::new(0),
            not_literals: AtomicU64::new(0),
            tagged: AtomicU64::new(0),
            kinds: AtomicU64::new(0),
            datatypes,
        })
    }

    pub(crate) fn is_valued(&self) -> bool {
        self.valued.load(Ordering::SeqCst) != 0
    }

    pub(crate) fn note_value(&self) {
        self.valued.store(1, Ordering::SeqCst);
    }

    /// Counts rows.
    pub(crate) fn add(&self, alloc: Global, cause: &Cause, rows: u64) {
        let counter = match cause {
            Cause::Unbound(variable) | Cause::SomeUnbound(variable) => {
                self.add_variable(*variable as u64);
                &self.unbound
            }
            Cause::Call => &self.calls,
            Cause::NotLiteral => &self.not_literals,
            Cause::Tagged => &self.tagged,
            Cause::Kinds => &self.kinds,
            Cause::Datatype(_) | Cause::IllFormed(_) | Cause::NoTruth(_) => {
                return self.add_datatype(alloc, cause, rows);
            }
        };
        counter.fetch_add(rows, Ordering::SeqCst);
    }

    fn add_variable(&self, variable: u64) {
        self.first_variable.fetch_min(variable, Ordering::SeqCst);
        self.last_variable.fetch_max(variable, Ordering::SeqCst);
    }

    /// Returns the cause of the rows with an unbound variable.
    fn unbound_cause(&self) -> Cause {
        let first = self.first_variable.load(Ordering::SeqCst);
        if first == self.last_variable.load(Ordering::SeqCst) {
            Cause::Unbound(first as usize)
        } else {
            Cause::SomeUnbound(first as usize)
        }
    }

    /// Counts rows with a cause that has a datatype. Workers that are the first to meet a cause at the same time
    /// may take a counter each.
    fn add_datatype(&self, alloc: Global, cause: &Cause, rows: u64) {
        for counter in &self.datatypes {
            if counter.add(alloc, cause, rows) {
                return;
            }
        }
    }

    /// Returns the rows of all counters of a cause that has a datatype.
    fn datatype_rows(&self, cause: &Cause) -> u64 {
        let mut rows: u64 = 0;
        for counter in &self.datatypes {
            if counter.cause.get() == Some(cause) {
                rows = rows.saturating_add(loaded(&counter.rows));
            }
        }
        rows
    }

    /// Returns the cause of the counter at a place, unless a counter before it has the same one.
    fn first_cause(&self, place: usize) -> Option<&Cause> {
        let cause = self.datatypes.get(place)?.cause.get()?;
        for before in 0..place.min(self.datatypes.len()) {
            if self.datatypes[before].cause.get() == Some(cause) {
                return None;
            }
        }
        Some(cause)
    }
}

/// Returns a count.
fn loaded(rows: &AtomicU64) -> u64 {
    rows.load(Ordering::SeqCst)
}

/// The counts of the equal expressions of a plan.
pub(crate) struct Counter {
    digest: u64,
    /// The numbers of the expressions.
    expressions: Vec<usize>,
    /// 1 if each of the parts was no error over some row.
    valued: AtomicU64,
    /// 1 if not all rows were looked at.
    partial: AtomicU64,
    /// A counter for each FILTER of the condition.
    pub(crate) parts: Vec<PartCounter>,
}

impl Drop for Counter {
    /// Written by hand (docs/PROOF.md).
    fn drop(self) {
        let Counter {
            digest: _,
            expressions: _,
            valued: _,
            partial: _,
            parts: _,
        } = self;
    }
}

impl Counter {
    fn new(alloc: Global, key: Key) -> Result<Counter, AllocError> {
        let mut parts = Vec::new(alloc);
        for _ in 0..key.filters.max(1) {
            parts.push(PartCounter::new(alloc)?)?;
        }
        Ok(Counter {
            digest: key.digest,
            expressions: Vec::new(alloc),
            valued: AtomicU64::new(0),
            partial: AtomicU64::new(0),
            parts,
        })
    }

    pub(crate) fn is_valued(&self) -> bool {
        self.valued.load(Ordering::SeqCst) != 0
    }

    /// Notes that there are rows that nobody looked at.
    pub(crate) fn note_partial(&self) {
        self.partial.store(1, Ordering::SeqCst);
    }

    /// Notes that each part was no error over some row.
    pub(crate) fn note_values(&self) {
        for part in &self.parts {
            part.note_value();
        }
        self.valued.store(1, Ordering::SeqCst);
    }

    /// Notes whether each part was no error over some row.
    pub(crate) fn note_if_all(&self) {
        if self.parts.iter().all(|part| part.is_valued()) {
            self.valued.store(1, Ordering::SeqCst);
        }
    }
}

/// What is known of an expression before an evaluation.
#[derive(Clone, Copy, PartialEq, Eq, PartialOrd, Ord)]
pub struct Key {
    /// The digest of the expression and its operator.
    pub digest: u64,
    /// The number of the expression.
    pub expression: usize,
    /// The number of FILTERs that the expression joins with `&&`, from left to right.
    pub filters: usize,
}

/// The counts of all expressions of a plan. Workers share it.
///
/// An evaluation finds the counts of an expression by its digest. So equal expressions of equal
/// operators are counted together.
#[derive(Drop)]
pub struct ErrorCounts {
    /// In the order of their digests.
    counters: Vec<Counter>,
}

/// The rows over which equal expressions were errors, for one cause.
pub struct Tally {
    /// The numbers of the expressions, from the least.
    pub expressions: Vec<usize>,
    /// The FILTER of its group, from 0 in the order of the text.
    pub filter: usize,
    pub cause: Cause,
    pub rows: u64,
    /// Whether there may be more rows than these.
    pub is_partial: bool,
    /// Whether this FILTER or BIND was an error over every row.
    pub is_everywhere: bool,
}

impl Drop for Tally {
    /// Written by hand (docs/PROOF.md).
    fn drop(self) {
        let Tally {
            expressions: _,
            filter: _,
            cause: _,
            rows: _,
            is_partial: _,
            is_everywhere: _,
        } = self;
    }
}

impl ErrorCounts {
    /// Creates the counts of a plan's expressions.
    ///
    /// # Errors
    /// `AllocError` if an allocation fails.
    pub fn new(alloc: Global, mut keys: Vec<Key>) -> Result<ErrorCounts, AllocError> {
        keys.sort()?;
        let mut counters: Vec<Counter> = Vec::new(alloc);
        for key in &keys {
            add_key(alloc, &mut counters, *key)?;
        }
        Ok(ErrorCounts { counters })
    }

    /// Returns the place where the errors of an operator's expression are counted. Those of an
    /// expression that has no counts are not counted, nor are any if memory is short.
    pub fn place(&self, alloc: Global, owner: Owner, expr: &Expr) -> Place<'_> {
        match digest_of(alloc, owner, expr) {
            Ok(digest) => Place {
                counter: self.find(digest),
            },
            Err(_) => Place::none(),
        }
    }

    fn find(&self, digest: u64) -> Option<&Counter> {
        for counter in &self.counters {
            if counter.digest == digest {
                return Some(counter);
            }
        }
        None
    }

    /// Returns the counts that are not zero.
    ///
    /// # Errors
    /// `AllocError` if an allocation fails.
    pub fn tallies(&self, alloc: Global) -> Result<Vec<Tally>, AllocError>
        ensures counted { IfOk result (λ found. All (λ tally. 0 < tally.rows) found.items) }
    {
        let mut tallies = Vec::new(alloc);
        for counter in &self.counters {
            push_tallies(&mut tallies, alloc, counter)?;
        }
        Ok(tallies)
    }
}

/// Adds an expression to the last counter if that has its digest, or else to a counter of its own. If
/// one expression is two FILTERs and an equal one is a FILTER with `&&`, both are counted as the latter.
fn add_key(alloc: Global, counters: &mut Vec<Counter>, key: Key) -> Result<(), AllocError> {
    let is_known = match counters.last() {
        Some(last) => last.digest == key.digest,
        None => false,
    };
    if !is_known {
        counters.push(Counter::new(alloc, key)?)?;
    }
    match counters.last_mut() {
        Some(last) => {
            last.parts.truncate(key.filters.max(1));
            Ok(last.expressions.push(key.expression)?)
        }
        None => Ok(()),
    }
}

/// One FILTER of a counter, or the value of a BIND.
#[derive(Clone, Copy)]
struct Part<'a> {
    of: &'a Counter,
    filter: usize,
    counts: &'a PartCounter,
}

/// Appends the counts of one counter that are not zero.
fn push_tallies(tallies: &mut Vec<Tally>, alloc: Global, of: &Counter) -> Result<(), AllocError>
    requires counted { All (λ tally. 0 < tally.rows) tallies.old.items }
    ensures counted { OnOk result (All (λ tally. 0 < tally.rows) tallies.new.items) }
{
    for (filter, counts) in of.parts.iter().enumerate() {
        push_part(tallies, alloc, Part { of, filter, counts })?;
    }
    Ok(())
}

/// Appends the counts of one part that are not zero.
fn push_part(tallies: &mut Vec<Tally>, alloc: Global, part: Part<'_>) -> Result<(), AllocError>
    requires counted { All (λ tally. 0 < tally.rows) tallies.old.items }
    ensures counted { OnOk result (All (λ tally. 0 < tally.rows) tallies.new.items) }
{
    let counts = part.counts;
    push_count(
        tallies,
        part,
        counts.unbound_cause(),
        loaded(&counts.unbound),
    )?;
    push_count(tallies, part, Cause::Call, loaded(&counts.calls))?;
    push_count(
        tallies,
        part,
        Cause::NotLiteral,
        loaded(&counts.not_literals),
    )?;
    push_count(tallies, part, Cause::Tagged, loaded(&counts.tagged))?;
    push_count(tallies, part, Cause::Kinds, loaded(&counts.kinds))?;
    for place in 0..counts.datatypes.len() {
        push_datatype(tallies, alloc, part, place)?;
    }
    Ok(())
}

/// Appends the count of the cause that has a datatype and its first counter at a place, if there is one.
fn push_datatype(
    tallies: &mut Vec<Tally>,
    alloc: Global,
    part: Part<'_>,
    place: usize,
) -> Result<(), AllocError>
    requires counted { All (λ tally. 0 < tally.rows) tallies.old.items }
    ensures counted { OnOk result (All (λ tally. 0 < tally.rows) tallies.new.items) }
{
    match part.counts.first_cause(place) {
        Some(cause) => push_count(
            tallies,
            part,
            cause.copy(alloc)?,
            part.counts.datatype_rows(cause),
        ),
        None => Ok(()),
    }
}

/// Appends a count of one part if it is not zero.
fn push_count(
    tallies: &mut Vec<Tally>,
    part: Part<'_>,
    cause: Cause,
    rows: u64,
) -> Result<(), AllocError>
    requires counted { All (λ tally. 0 < tally.rows) tallies.old.items }
    ensures counted { OnOk result (All (λ tally. 0 < tally.rows) tallies.new.items) }
{
    if rows > 0 {
        tallies.push(Tally {
            expressions: part.of.expressions.clone()?,
            filter: part.filter,
            cause,
            rows,
            is_partial: part.of.partial.load(Ordering::SeqCst) != 0,
            is_everywhere: !part.counts.is_valued(),
        })?;
    }
    Ok(())
}

/// Where the errors of one expression are counted.
#[derive(Clone, Copy)]
pub struct Place<'a> {
    pub(crate) counter: Option<&'a Counter>,
}

impl<'a> Place<'a> {
    /// Returns a place where nothing is counted.
    pub fn none() -> Place<'a>
        ensures uncounted { is_counted result ≡ false }
    {
        Place { counter: None }
    }

    /// Returns whether anything is counted here.
    pub fn is_counted(self) -> bool
        ensures value { result ≡ is_counted self.entry }
    {
        self.counter.is_some()
    }

    /// Returns whether each FILTER of the condition was true or false over some row, or nothing is counted.
    pub fn is_valued(self) -> bool
        ensures uncounted { is_counted self.entry ≡ false → result ≡ true }
    {
        match self.counter {
            Some(counter) => counter.is_valued(),
            None => true,
        }
    }

    /// Notes that the expression may have a value over rows that nobody looked at.
    pub fn note_unseen(self) {
        if let Some(counter) = self.counter {
            counter.note_values();
        }
    }

    /// Notes that the expression may be an error over rows that nobody looked at. So the counts are the
    /// least numbers.
    pub fn note_partial(self) {
        if let Some(counter) = self.counter {
            counter.note_partial();
        }
    }
}
