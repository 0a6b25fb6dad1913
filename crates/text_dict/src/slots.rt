//! The table of a dictionary: where the number of a text is.
//!
//! Open addressing with linear probing. A search begins at a slot that the lower bits of the hash give. It goes on to
//! the end of the table, and then from the front. A slot that is in use has the tag of the hash, its lower 30 bits. So a text is
//! compared only if the tags are equal, and a longer table of up to 2^30 slots is made without reading a text.
ghost use Rattle.std.specs.Prelude.{◌≡◌, ◌≢◌, ◌+◌, ◌-◌, ◌<◌, ◌≤◌, ℕ, true, false, List, length, take, slice_get, Some, IfOk, IfSome, MatchOption, OnOk};
ghost use Rattle.keyed_hash.specs.Hashing.{hash_of};
ghost use Rattle.text_dict.specs.Slots.{slot_of, start_of, most_numbers, tags, AreMoved, AreReached, AreUsed, IsPlace, IsProbe, IsPut, IsSearch, begins_at_tag};

use crate::texts::Texts;
use keyed_hash::HashState;
use std::alloc::{AllocError, Global};

/// The numbers of texts are below this, because a slot has 34 bits for a number.
pub(crate) const MOST_NUMBERS: u64 = 1 << 34;

/// The number of tags. The tag of a hash is its remainder by this number.
const TAGS: u64 = 1 << 30;

/// What a search for a text finds.
#[derive(Clone, Copy)]
pub(crate) enum Search {
    /// The number of the text.
    Found(usize),
    /// The text has no number. Its slot would be at this place.
    Free(usize),
    /// The text has no number, and no slot is free.
    Full,
}

/// Returns the slot of a text with this hash and number.
#[inline(always)]
pub(crate) fn slot_of(hash: u64, n: usize) -> u64
    requires few { n + 1 < most_numbers }
    ensures value { result ≡ slot_of hash n }
{
    hash % TAGS * MOST_NUMBERS + (n as u64 + 1)
}

/// Returns whether the text before this place, counted from 0, is this one.
#[inline(always)]
fn is_before(texts: &Texts, place: usize, text: &[u8]) -> bool
    ensures yes { result ≡ true → (1 ≤ place) × (slice_get texts.now (place - 1) ≡ Some text.now) }
    ensures no { result ≡ false → (n : ℕ) → place ≡ n + 1 → slice_get texts.now n ≢ Some text.now }
{
    place > 0 && place <= texts.len() && texts.text(place - 1) == text
}

/// Searches for a text in these slots.
#[inline(always)]
fn probe(texts: &Texts, slots: &[u64], hash: u64, text: &[u8]) -> Search
    requires few { length texts.now < most_numbers }
    ensures probe { IsProbe texts.now text.now hash slots.now result }
{
    let wanted = hash % TAGS;
    for i in 0..slots.len() {
        let slot = slots[i];
        if slot == 0 {
            return Search::Free(i);
        }
        if slot / MOST_NUMBERS == wanted {
            let place = (slot % MOST_NUMBERS) as usize;
            if is_before(texts, place, text) {
                return Search::Found(place - 1);
            }
        }
    }
    Search::Full
}

/// Returns where the search for this hash begins.
#[inline(always)]
fn start_of(slots: &[u64], hash: u64) -> usize
    requires some { 0 < length slots.now }
    ensures value { result ≡ start_of hash slots.now }
    ensures within { result < length slots.now }
{
    hash as usize & (slots.len() - 1)
}

/// Searches for a text in the whole table.
#[inline(always)]
pub(crate) fn find(texts: &Texts, slots: &[u64], hash: u64, text: &[u8]) -> Search
    requires few { length texts.now < most_numbers }
    ensures found { IsSearch texts.now text.now hash slots.now result }
{
    if slots.is_empty() {
        return Search::Full;
    }
    let start = start_of(slots, hash);
    match probe(texts, &slots[start..], hash, text) {
        Search::Found(n) => Search::Found(n),
        Search::Free(i) => Search::Free(start + i),
        Search::Full => probe(texts, &slots[..start], hash, text),
    }
}

/// Returns whether the search for this hash begins at a slot that has its tag.
#[inline(always)]
pub(crate) fn begins_at_tag(slots: &[u64], hash: u64) -> bool
    requires some { 0 < length slots.now }
    ensures value { result ≡ begins_at_tag slots.now hash }
{
    slots[start_of(slots, hash)] / MOST_NUMBERS == hash % TAGS
}

/// Returns the first slot that is not in use.
fn first_empty(slots: &[u64]) -> Option<usize>
    ensures empty { MatchOption result (AreUsed slots.now)
        (λ i. (slice_get slots.now i ≡ Some 0) × AreUsed (take i slots.now)) }
{
    for i in 0..slots.len() {
        if slots[i] == 0 {
            return Some(i);
        }
    }
    None
}

/// Returns the place of a new slot with this hash, or None if no slot is free.
fn empty_slot(slots: &[u64], hash: u64) -> Option<usize>
    ensures place { IfSome result (IsPlace slots.now hash) }
{
    if slots.is_empty() {
        return None;
    }
    let start = start_of(slots, hash);
    if let Some(i) = first_empty(&slots[start..]) {
        return Some(start + i);
    }
    first_empty(&slots[..start])
}

/// Creates a table of this length for all texts.
///
/// # Errors
/// `AllocError` if an allocation fails, or if the table has no room for all texts.
pub(crate) fn table_of(
    alloc: Global,
    texts: &Texts,
    state: HashState,
    len: usize,
) -> Result<Vec<u64>, AllocError>
    requires few { length texts.now < most_numbers }
    ensures reached { IfOk result (λ slots. AreReached (hash_of state) texts.now slots.items) }
{
    let mut slots = vec![in alloc; 0u64; len]?;
    for n in 0..texts.len() {
        let hash = state.hash_of(texts.text(n));
        let Some(place) = empty_slot(slots.as_slice(), hash) else {
            return Err(AllocError);
        };
        slots[place] = slot_of(hash, n);
    }
    Ok(slots)
}

/// Puts a slot at its place. An empty slot is not put.
///
/// # Errors
/// `AllocError` if no slot is free.
fn put(slots: &mut Vec<u64>, slot: u64) -> Result<(), AllocError>
    requires short { length slots.old.items ≤ tags }
    ensures put { OnOk result (IsPut slots.old.items slot slots.new.items) }
{
    if slot == 0 {
        return Ok(());
    }
    let Some(place) = empty_slot(slots.as_slice(), slot / MOST_NUMBERS) else {
        return Err(AllocError);
    };
    slots[place] = slot;
    Ok(())
}

/// Creates a table of this length with the slots of another one. Reads no text, because the tag gives the start of a
/// search in a table that is not longer than the number of tags.
///
/// # Errors
/// `AllocError` if an allocation fails, or if the table has no room for all slots.
fn table_with(alloc: Global, slots: &[u64], len: usize) -> Result<Vec<u64>, AllocError>
    requires short { len ≤ tags }
    ensures moved { IfOk result (λ longer. AreMoved slots.now longer.items) }
{
    let mut longer = vec![in alloc; 0u64; len]?;
    for i in 0..slots.len() {
        put(&mut longer, slots[i])?;
    }
    Ok(longer)
}

/// Creates a longer table, of this length, for all texts. They are reached by these slots.
///
/// # Errors
/// `AllocError` if an allocation fails, or if the table has no room for all texts.
pub(crate) fn longer_table(
    alloc: Global,
    texts: &Texts,
    slots: &[u64],
    state: HashState,
    len: usize,
) -> Result<Vec<u64>, AllocError>
    requires few { length texts.now < most_numbers }
    requires reached { AreReached (hash_of state) texts.now slots.now }
    ensures reached { IfOk result (λ longer. AreReached (hash_of state) texts.now longer.items) }
{
    if len as u64 <= TAGS {
        let longer = table_with(alloc, slots, len)?;
        return Ok(longer);
    }
    table_of(alloc, texts, state, len)
}
