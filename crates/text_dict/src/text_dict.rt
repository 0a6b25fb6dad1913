//! The dictionary of texts.
ghost use Rattle.std.specs.Prelude.{◌≡◌, ◌<◌, ◌^◌, ◌++◌, ◌∷◌, [], length, take, slice_get, Some, IfOk, IfSome, MatchOption, OnOk, OnErr};
ghost use Rattle.keyed_hash.specs.Hashing.{hash_of};
ghost use Rattle.text_dict.specs.Forms.{AreForms, IsForm};
ghost use Rattle.text_dict.specs.Slots.{IsPlace};
ghost use Rattle.text_dict.specs.TextDict.{Has, IsAdded, IsTable};

use crate::slots::{MOST_NUMBERS, Search, begins_at_tag, find, longer_table, slot_of, table_of};
use crate::texts::Texts;
use keyed_hash::HashState;
use std::alloc::{AllocError, Global};
use std::hash::RandomState;
use std::marker::Model;

/// The most texts for which a new dictionary makes room.
const MOST_ROOM: usize = 1 << 20;

/// The N-Quads forms of distinct terms, numbered from 0 in the order in which they were added. In contracts this type
/// is the list of these texts, and the state of the hash function.
pub struct TextDict {
    texts: Texts,
    slots: Vec<u64>,
    state: HashState,
}

impl Drop for TextDict {
    /// Frees the texts and the table. It is written out for the same reason as the drop of [`Texts`].
    fn drop(self) {
        let TextDict {
            texts: _,
            slots: _,
            state: _,
        } = self;
    }
}

impl Model for TextDict {
    ghost use Rattle.keyed_hash.specs.Hashing.{hash_of};
    ghost use Rattle.text_dict.specs.TextDict.{TextDictView, IsTable};

    ghost Value = { TextDictView };

    ghost view = { λ d. record { texts = d.texts; state = d.state } };

    ghost invariant = { λ d. IsTable (hash_of d.state) d.texts d.slots.items };
}

impl TextDict {
    /// Creates an empty dictionary. The hash state comes from the runtime, because the terms are untrusted input.
    /// Allocates nothing.
    pub fn new(alloc: Global, state: RandomState) -> TextDict
        ensures empty { result.texts ≡ [] }
    {
        TextDict::with_state(alloc, HashState::new(state))
    }

    /// Creates an empty dictionary with this state of the hash function. Allocates nothing.
    pub fn with_state(alloc: Global, state: HashState) -> TextDict
        ensures empty { result.texts ≡ [] }
        ensures state { result.state ≡ state }
    {
        TextDict {
            texts: Texts::new(alloc),
            slots: Vec::new(alloc),
            state,
        }
    }

    /// Creates an empty dictionary with this state of the hash function, and with a table that need not grow before it has
    /// `n` texts, or 2^20 if `n` is more.
    ///
    /// # Errors
    /// `AllocError` if an allocation fails.
    pub fn with_room(alloc: Global, state: HashState, n: usize) -> Result<TextDict, AllocError>
        ensures empty { IfOk result (λ dict. dict.texts ≡ []) }
        ensures state { IfOk result (λ dict. dict.state ≡ state) }
    {
        let texts = Texts::new(alloc);
        let len = (2 * n.min(MOST_ROOM)).next_power_of_two();
        let slots = table_of(alloc, &texts, state, len)?;
        Ok(TextDict {
            texts,
            slots,
            state,
        })
    }

    /// Returns the number of texts.
    #[inline(always)]
    pub fn len(&self) -> usize
        ensures value { result ≡ length self.now.texts }
        ensures small { result < 2 ^ 40 }
        ensures forms { AreForms self.now.texts }
    {
        self.texts.len()
    }

    /// Returns the text with this number.
    ///
    /// # Requires
    /// The number is below `len`.
    #[inline(always)]
    pub fn text(&self, n: u64) -> &[u8]
        requires known { n < length self.now.texts }
        ensures value { slice_get self.now.texts n ≡ Some result.now }
        ensures form { IsForm result.now }
    {
        self.texts.text(n as usize)
    }

    /// Returns the state of the hash function.
    pub fn state(&self) -> HashState
        ensures value { result ≡ self.now.state }
    {
        self.state
    }

    /// Returns the number of a text, or None if the text is not in the dictionary.
    pub fn number_of(&self, text: &[u8]) -> Option<u64>
        ensures value { MatchOption result (¬ (Has self.now.texts text.now))
            (λ n. slice_get self.now.texts n ≡ Some text.now) }
    {
        self.number_hashed(self.state.hash_of(text), text)
    }

    /// Returns the number of a text with this hash, or None if the text is not in the dictionary.
    ///
    /// # Requires
    /// The hash is that of the text under the state of this dictionary.
    #[inline]
    pub fn number_hashed(&self, hash: u64, text: &[u8]) -> Option<u64>
        requires hashed { hash ≡ hash_of self.now.state text.now }
        ensures value { MatchOption result (¬ (Has self.now.texts text.now))
            (λ n. slice_get self.now.texts n ≡ Some text.now) }
        ensures form { IfSome result (λ _. IsForm text.now) }
        ensures small { IfSome result (λ n. n < 2 ^ 40) }
    {
        match find(&self.texts, self.slots.as_slice(), hash, text) {
            Search::Found(n) => Some(n as u64),
            Search::Free(_) | Search::Full => None,
        }
    }

    /// Estimates whether the dictionary lacks the texts with this hash: returns whether the search for it begins at a slot that is
    /// empty or has another tag. The estimate decides nothing.
    ///
    /// Reads one slot and no text. A caller with many hashes first calls this for each of them. Their slots are then in the cache
    /// of the processor when the texts are looked up.
    #[inline(always)]
    pub fn may_lack(&self, hash: u64) -> bool {
        self.slots.is_empty() || !begins_at_tag(self.slots.as_slice(), hash)
    }

    /// Returns the number of a text. A new text is appended.
    ///
    /// # Requires
    /// The text is the N-Quads form of a term.
    ///
    /// # Errors
    /// `AllocError` if the text is new, and an allocation fails or the dictionary has 2^34 - 2 texts. The dictionary
    /// is unchanged.
    pub fn intern(&mut self, text: &[u8]) -> Result<u64, AllocError>
        requires form { IsForm text.now }
        ensures number { IfOk result (λ n. slice_get self.new.texts n ≡ Some text.now) }
        ensures added { OnOk result (IsAdded self.old.texts text.now self.new.texts) }
        ensures unchanged { OnErr result (self.new.texts ≡ self.old.texts) }
        ensures state { self.new.state ≡ self.old.state }
    {
        let hash = self.state.hash_of(text);
        self.intern_hashed(hash, text)
    }

    /// Returns the number of a text with this hash. A new text is appended.
    ///
    /// # Requires
    /// The hash is that of the text under the state of this dictionary, and the text is the N-Quads form of a term.
    ///
    /// # Errors
    /// As `intern`.
    pub fn intern_hashed(&mut self, hash: u64, text: &[u8]) -> Result<u64, AllocError>
        requires hashed { hash ≡ hash_of self.old.state text.now }
        requires form { IsForm text.now }
        ensures number { IfOk result (λ n. slice_get self.new.texts n ≡ Some text.now) }
        ensures added { OnOk result (IsAdded self.old.texts text.now self.new.texts) }
        ensures unchanged { OnErr result (self.new.texts ≡ self.old.texts) }
        ensures state { self.new.state ≡ self.old.state }
        ensures small { IfOk result (λ n. n < 2 ^ 40) }
    {
        make_room(&self.texts, &mut self.slots, self.state, 0)?;
        match find(&self.texts, self.slots.as_slice(), hash, text) {
            Search::Found(n) => Ok(n as u64),
            Search::Free(place) => add(
                &mut self.texts,
                &mut self.slots,
                self.state,
                hash,
                place,
                text,
            ),
            Search::Full => Err(AllocError),
        }
    }

    /// Makes the table longer if it has no room for this many more texts. It is made twice as long at most, so it may have to
    /// grow again.
    ///
    /// # Errors
    /// `AllocError` if an allocation fails. The dictionary is unchanged.
    pub fn reserve(&mut self, more: usize) -> Result<(), AllocError>
        ensures texts { self.new.texts ≡ self.old.texts }
        ensures state { self.new.state ≡ self.old.state }
    {
        make_room(&self.texts, &mut self.slots, self.state, more)
    }

    /// Removes the texts from this number on. The other texts keep their numbers.
    ///
    /// The slots of the removed texts stay in the table. A search passes them: their numbers are those of no text, or of
    /// a text that was added later, which is compared.
    pub fn truncate(&mut self, len: usize)
        ensures texts { self.new.texts ≡ take len self.old.texts }
        ensures state { self.new.state ≡ self.old.state }
    {
        self.texts.truncate(len);
    }
}

/// Makes the table longer if with this many more texts half of its slots are in use.
fn make_room(
    texts: &Texts,
    slots: &mut Vec<u64>,
    state: HashState,
    more: usize,
) -> Result<(), AllocError>
    requires table { IsTable (hash_of state) texts.now slots.old.items }
    ensures table { IsTable (hash_of state) texts.now slots.new.items }
{
    if texts.len().saturating_add(more) < slots.len() / 2 {
        return Ok(());
    }
    let len = slots.len().saturating_mul(2).max(16);
    let longer = longer_table(*slots.allocator(), texts, slots.as_slice(), state, len)?;
    *slots = longer;
    Ok(())
}

/// Appends a new text, whose slot is to be at this place. Returns its number.
fn add(
    texts: &mut Texts,
    slots: &mut Vec<u64>,
    state: HashState,
    hash: u64,
    place: usize,
    text: &[u8],
) -> Result<u64, AllocError>
    requires table { IsTable (hash_of state) texts.old slots.old.items }
    requires hashed { hash ≡ hash_of state text.now }
    requires place { IsPlace slots.old.items hash place }
    requires form { IsForm text.now }
    ensures table { IsTable (hash_of state) texts.new slots.new.items }
    ensures number { IfOk result (λ n. slice_get texts.new n ≡ Some text.now) }
    ensures pushed { OnOk result (texts.new ≡ texts.old ++ text.now ∷ []) }
    ensures unchanged { OnErr result (texts.new ≡ texts.old) }
{
    let n = texts.len();
    if n as u64 + 2 > MOST_NUMBERS {
        return Err(AllocError);
    }
    texts.push(text)?;
    slots[place] = slot_of(hash, n);
    Ok(n as u64)
}
