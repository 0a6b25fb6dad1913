//! The state of a read, and the round that has the first malformed line.

use crate::reader::RoundBlocks;
use nquads_core::{count_lines, first_line};
use piece_pool::OffsetGate;
use text_dict::TextDict;

/// The round that has the first malformed line.
#[derive(Drop)]
pub(crate) struct BadRound {
    /// The number of lines before the round.
    pub(crate) before: u128,
    pub(crate) round: RoundBlocks,
    /// The round after it, which was read meanwhile, or None if the reader is at its end.
    pub(crate) next: Option<RoundBlocks>,
}

impl BadRound {
    /// Returns whether a line before line `number` is known to have a character beyond ASCII. `dict` has the texts of
    /// the rounds before.
    pub(crate) fn is_after_utf8(&self, dict: &TextDict, number: u128) -> bool {
        let lines = number.saturating_sub(self.before).saturating_sub(1);
        has_text_beyond_ascii(dict) || are_beyond_ascii(&self.round.blocks, lines)
    }
}

/// The state of a read: the gate of all pieces, who is told of failures, the number of pieces so far, and the round that has the
/// first malformed line.
#[derive(Drop)]
pub(crate) struct ReadState<'g, G, L> {
    pub(crate) gate: &'g G,
    pub(crate) listener: &'g L,
    pub(crate) pieces: u64,
    pub(crate) bad: Option<BadRound>,
}

impl<'g, G, L> ReadState<'g, G, L> {
    pub(crate) fn new(gate: &'g G, listener: &'g L) -> ReadState<'g, G, L> {
        ReadState {
            gate,
            listener,
            pieces: 0,
            bad: None,
        }
    }

    /// Returns the gate of the next round, which has this number of pieces.
    pub(crate) fn next_gate(&mut self, pieces: usize) -> OffsetGate<'g, G> {
        let first = self.pieces;
        self.pieces = first.saturating_add(pieces as u64);
        OffsetGate {
            gate: self.gate,
            first,
        }
    }
}

/// Returns whether a term of a dictionary has a character beyond ASCII. A document may have it as an escape.
fn has_text_beyond_ascii(dict: &TextDict) -> bool {
    for n in 0..dict.len() {
        if !dict.text(n as u64).is_ascii() {
            return true;
        }
    }
    false
}

/// Returns whether one of the first `count` lines of a text has a byte beyond ASCII.
fn is_beyond_ascii(text: &[u8], count: u128) -> bool {
    let mut rest = text;
    for _ in 0..count {
        if rest.is_empty() {
            return false;
        }
        let (line, after) = first_line(rest);
        if !line.is_ascii() {
            return true;
        }
        rest = after;
    }
    false
}

/// Returns whether one of the first `count` lines of the blocks has a byte beyond ASCII.
fn are_beyond_ascii(blocks: &[Vec<u8>], count: u128) -> bool {
    let mut left = count;
    for block in blocks {
        if is_beyond_ascii(block, left) {
            return true;
        }
        left = left.saturating_sub(count_lines(block) as u128);
    }
    false
}
