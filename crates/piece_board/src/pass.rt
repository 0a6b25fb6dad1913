//! One worker's pass to a board.
ghost use Rattle.std.specs.Prelude.{◌≡◌, ◌<◌, ◌≤◌, [], Some, MatchBool};
ghost use Rattle.piece_board.specs.Limits.{most_pieces};
ghost use Rattle.piece_board.specs.Protocol.{fresh};
ghost use Rattle.piece_board.specs.Pass.{unused, after_skipping};

use crate::history::History;
use atomic_table::Seat;
use std::marker::Model;

/// The right to draw from one board, to report to it and to look at it. A board hands out one pass
/// for each seat, and takes all of them back when it is closed.
///
/// In contracts a pass is the lists of its draws and reports, the least report seen, the count of
/// its skips and its lowest skip.
#[derive(Drop)]
pub struct Pass {
    pub(crate) seat: Seat<(), History>,
    pub(crate) last: Option<u64>,
    pub(crate) seen: u64,
    pub(crate) finished: bool,
    pub(crate) skips: u64,
    pub(crate) lowest_skip: Option<u64>,
}

impl Model for Pass {
    ghost use Rattle.std.specs.Prelude.{◌≡◌, ◌<◌, [], ltb};
    ghost use Rattle.piece_board.specs.Pass.{PassView, PassFacts};

    ghost Value = { PassView };

    ghost view = { λ p. record {
      board = p.seat.table_id;
      history = p.seat.me.0;
      last = p.last;
      skips = p.skips;
      lowest_skip = p.lowest_skip;
    } };

    ghost invariant = { λ p. (p.seat.me.1 ≡ []) × (p.seen ≡ p.seat.me.0.seen)
        × (p.finished ≡ ltb 0 p.seat.me.0.finished)
        × PassFacts record {
          board = p.seat.table_id;
          history = p.seat.me.0;
          last = p.last;
          skips = p.skips;
          lowest_skip = p.lowest_skip;
        } };
}

impl Pass {
    pub(crate) fn new(seat: Seat<(), History>, pieces: u64) -> Pass
        requires seat { (seat.me ≡ (fresh pieces 1, [])) × (pieces ≤ most_pieces) }
        ensures unused { result ≡ unused seat.table_id pieces }
    {
        Pass {
            seat,
            last: None,
            seen: pieces,
            finished: false,
            skips: 0,
            lowest_skip: None,
        }
    }

    /// Returns the number that was drawn last, if it was neither reported nor skipped and the pass
    /// is not finished.
    pub fn last(&self) -> Option<u64>
        ensures last { result ≡ self.now.last }
    {
        self.last
    }

    /// Returns the least report of the board when this pass last looked. Returns the number of
    /// pieces if there was none, or if the pass has not looked.
    pub fn seen(&self) -> u64
        ensures seen { result ≡ self.now.history.seen }
    {
        self.seen
    }

    /// Returns whether a draw found nothing left. A finished pass draws and reports no more.
    pub fn is_finished(&self) -> bool
        ensures finished { MatchBool result (0 < self.now.history.finished)
            (self.now.history.finished ≡ 0) }
    {
        self.finished
    }

    /// Skips the number that was drawn last, which is above a report that this pass has seen. It is
    /// not a step on the board: only the pass counts it.
    ///
    /// # Requires
    /// `i` is the last draw of this pass, and above the least report that it has seen.
    pub fn skip(&mut self, i: u64)
        requires last { self.old.last ≡ Some i }
        requires above { self.old.history.seen < i }
        ensures same { (self.new.board ≡ self.old.board) × (self.new.history ≡ self.old.history) }
        ensures skipped { self.new ≡ after_skipping self.old i }
    {
        self.last = None;
        self.skips += 1;
        self.lowest_skip = match self.lowest_skip {
            Some(j) => Some(if j < i { j } else { i }),
            None => Some(i),
        };
    }
}
