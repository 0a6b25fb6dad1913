//! The board that workers share.
ghost use Rattle.std.specs.Prelude.{◌≡◌, ℕ, ◌<◌, ◌≤◌, ◌^◌, ◌+◌, ◌-◌, min, [], Some, OnSome, IfSome, IfOk, vec_len, length, All};
ghost use Rattle.piece_board.specs.Limits.{most_seats, most_pieces};
ghost use Rattle.piece_board.specs.Counts.{times};
ghost use Rattle.piece_board.specs.Protocol.{fresh};
ghost use Rattle.piece_board.specs.Rule.{DrawsOnce};
ghost use Rattle.piece_board.specs.Pass.{unused, after_drawing, after_reporting, after_looking};
ghost use Rattle.piece_board.specs.Board.{IsPassOf, skips_of, IsClosed};
ghost use Rattle.piece_board.specs.Joining.{HasJoined};

use crate::history::History;
use crate::pass::Pass;
use crate::rule::{Deals, Draws, Gathers, Looks, Reports, Rule, Size};
use atomic_table::{Seat, Shared, Table};
use std::alloc::{AllocError, Global};
use std::marker::Model;

/// The next number to draw and the least reported number, shared by the threads that hold its
/// passes.
///
/// Each step of a pass is one atomic exchange on one of the two words, made by the caller's thread.
/// No thread waits for another.
#[derive(Drop)]
pub struct Board {
    table: Table<(), History, Size, Rule, Global>,
    pieces: u64,
    seats: usize,
}

impl Model for Board {
    ghost use Rattle.std.specs.Prelude.{◌≡◌, ◌<◌, ◌≤◌, ◌^◌};
    ghost use Rattle.piece_board.specs.Board.{BoardView};

    ghost Value = { BoardView };

    ghost view = { λ b. record {
      id = b.table.shared.table_id;
      pieces = b.pieces;
      seats = b.seats;
    } };

    ghost invariant = { λ b. (b.table.shared.table_id.words ≡ 2)
        × (b.table.shared.table_id.slots ≡ 0) × (b.table.shared.key.pieces ≡ b.pieces)
        × (b.table.shared.key.seats ≡ b.seats) × (0 < b.seats) };
}

/// Why a board was not opened.
#[derive(Clone, Copy, Debug)]
pub enum BoardFault {
    /// Out of memory.
    Memory,
}

impl From<AllocError> for BoardFault {
    ghost use Rattle.std.specs.Prelude.{◌≡◌};
    ghost use Rattle.piece_board.specs.declared.board.BoardFault.TheVariants.{Memory};

    ghost from_gives = { λ _ fault. fault ≡ Memory };

    fn from(_failed: AllocError) -> BoardFault {
        BoardFault::Memory
    }
}

/// The totals of a closed board.
#[derive(Clone, Copy)]
pub struct Closed {
    /// How many numbers were drawn: they are the numbers from 0 up to this one, each drawn once.
    pub drawn: u64,
    /// How many of them were skipped.
    pub skipped: u64,
    /// The least reported number, or the number of pieces if there is none.
    pub least: u64,
}

impl Board {
    /// Opens a board of `n` numbers, and returns it with one pass for each seat.
    ///
    /// # Requires
    /// `n` is at most 2^62, and `seats` is 1 to 64.
    ///
    /// # Errors
    /// `Memory` if an allocation fails. Everything allocated before is freed.
    pub fn open(alloc: Global, n: u64, seats: usize) -> Result<(Board, Vec<Pass>), BoardFault>
        requires pieces { n ≤ most_pieces }
        requires seats { (1 ≤ seats) × (seats ≤ most_seats) }
        ensures board { IfOk result (λ opened. (opened.0.pieces ≡ n) × (opened.0.seats ≡ seats)) }
        ensures count { IfOk result (λ opened. vec_len opened.1 ≡ seats) }
        ensures unused { IfOk result
            (λ opened. All (λ p. p ≡ unused opened.0.id n) opened.1.items) }
    {
        let size = Size {
            pieces: n,
            seats: seats as u64,
        };
        let (table, seat) = Table::of_words(alloc, &[0, n], &size)?;
        let passes = deal(alloc, &table.shared, seat, n, seats)?;
        let board = Board {
            table,
            pieces: n,
            seats,
        };
        Ok((board, passes))
    }

    /// Returns how many numbers the board was opened with.
    pub fn pieces(&self) -> u64
        ensures pieces { result ≡ self.now.pieces }
    {
        self.pieces
    }

    /// Returns how many passes the board handed out. It is at least one.
    pub fn seats(&self) -> usize
        ensures count { result ≡ self.now.seats }
        ensures some { 1 ≤ self.now.seats }
    {
        self.seats
    }

    /// Draws the next number of the board for this pass, with one fetch_add and no waiting.
    ///
    /// Over the whole board the numbers are 0, 1, .. and each goes to one pass; `close` states this
    /// of all passes together. Returns None if all numbers are drawn. The pass is then finished: it
    /// has no last draw and draws no more.
    ///
    /// # Requires
    /// The pass is of this board, and not finished.
    pub fn draw(&self, pass: &mut Pass) -> Option<u64>
        requires of_board { IsPassOf self.now pass.old }
        requires unfinished { pass.old.history.finished ≡ 0 }

        // What the caller gets.
        ensures of_board { IsPassOf self.now pass.new }
        ensures below { IfSome result (λ i. i < self.now.pieces) }
        ensures last { pass.new.last ≡ result }
        ensures unfinished { OnSome result (pass.new.history.finished ≡ 0) }

        // What the event does, and what is true of all draws of this pass.
        ensures event { pass.new ≡ after_drawing pass.old result }
        ensures once { DrawsOnce pass.new.history }
        ensures room { length pass.new.history.draws ≤ self.now.pieces }
    {
        let found = self.table.shared.fetch_add::<Draws>(&mut pass.seat, 0, 1);
        if found < self.pieces {
            pass.last = Some(found);
            Some(found)
        } else {
            pass.last = None;
            pass.finished = true;
            None
        }
    }

    /// Reports the number that this pass drew last, with one fetch_min and no waiting.
    ///
    /// Afterwards the pass has no last draw, so no number is reported twice.
    ///
    /// # Requires
    /// The pass is of this board, and `i` is the number that it drew last and has not reported or
    /// skipped.
    pub fn report(&self, pass: &mut Pass, i: u64)
        requires of_board { IsPassOf self.now pass.old }
        requires last { pass.old.last ≡ Some i }
        ensures of_board { IsPassOf self.now pass.new }
        ensures unfinished { pass.new.history.finished ≡ 0 }
        ensures event { pass.new ≡ after_reporting pass.old i }
    {
        self.table.shared.fetch_min::<Reports>(&mut pass.seat, 1, i);
        pass.last = None;
    }

    /// Returns the least number reported so far, or the number of pieces if there is none. It takes
    /// one load and no waiting.
    ///
    /// The result is at most what this pass saw before or reported. A report of another pass that
    /// is under way may be missing. `close` states what is guaranteed of the reports of other
    /// passes.
    ///
    /// # Requires
    /// The pass is of this board.
    pub fn least(&self, pass: &mut Pass) -> u64
        requires of_board { IsPassOf self.now pass.old }

        // What the caller gets.
        ensures of_board { IsPassOf self.now pass.new }
        ensures falls { result ≤ pass.old.history.seen }
        ensures within { result ≤ self.now.pieces }
        ensures own { (x : ℕ) → 0 < times x pass.old.history.reports → result ≤ x }

        // What the event does: the last draw is unchanged, and so is whether the pass is finished.
        ensures last { pass.new.last ≡ pass.old.last }
        ensures finished { pass.new.history.finished ≡ pass.old.history.finished }
        ensures seen { pass.new.history.seen ≡ result }
        ensures event { pass.new ≡ after_looking pass.old result }
    {
        let found = self.table.shared.load::<Looks>(&mut pass.seat, 1);
        pass.seen = found;
        found
    }

    /// Closes the board, and reports what all its passes did together.
    ///
    /// A pass cannot be copied, so as many passes of this board as it has seats are all of its
    /// passes.
    ///
    /// # Requires
    /// The passes are of this board, as many as it has seats.
    pub fn close(self, mut passes: Vec<Pass>) -> Closed
        requires of_board { All (λ p. IsPassOf self p) passes.items }
        requires all { vec_len passes ≡ self.seats }
        ensures closed { IsClosed self passes.items result.drawn result.skipped result.least }
    {
        let Board {
            table,
            pieces,
            seats: _,
        } = self;
        let Some(first) = passes.pop() else {
            unreachable!()
        };
        let Pass { seat, skips, .. } = first;
        let (seat, skipped) = join_all(&table.shared, seat, passes, skips);
        let closed = table.close_with(seat);
        let next = closed.word(0);
        let least = closed.word(1);
        closed.free();
        Closed {
            drawn: next.min(pieces),
            skipped,
            least,
        }
    }
}

/// Makes a pass for each seat.
fn deal(
    alloc: Global,
    shared: &Shared<(), History, Size, Rule>,
    mut seat: Seat<(), History>,
    pieces: u64,
    seats: usize,
) -> Result<Vec<Pass>, AllocError>
    requires seat { (seat.table_id ≡ shared.now.table_id) × (seat.me ≡ (fresh pieces seats, [])) }
    requires size { (0 < shared.now.table_id.words) × (0 < seats) × (pieces ≤ most_pieces) }
    ensures count { IfOk result (λ passes. vec_len passes ≡ seats) }
    ensures unused { IfOk result
        (λ passes. All (λ p. p ≡ unused shared.now.table_id pieces) passes.items) }
{
    let mut passes = Vec::with_capacity(alloc, seats)?;
    for i in 1..seats {
        let other = shared.split_seat::<Deals>(&mut seat);
        passes.push(Pass::new(other, pieces))?;
    }
    passes.push(Pass::new(seat, pieces))?;
    Ok(passes)
}

/// Joins the seats of the passes into one, and adds up their skips.
fn join_all(
    shared: &Shared<(), History, Size, Rule>,
    mut seat: Seat<(), History>,
    mut passes: Vec<Pass>,
    mut skipped: u64,
) -> (Seat<(), History>, u64)
    requires seat { (seat.table_id ≡ shared.now.table_id) × (0 < seat.me.0.seats) }
    requires words { 0 < shared.now.table_id.words }
    requires passes { All (λ p. p.board ≡ shared.now.table_id) passes.items }
    ensures seat { result.0.table_id ≡ seat.table_id }
    ensures joined { HasJoined seat.me.0 passes.items result.0.me.0 }
    ensures skipped { result.1 ≡ min (2 ^ 64 - 1) (skipped + skips_of passes.items) }
{
    while let Some(pass) = passes.pop() {
        let Pass {
            seat: other,
            skips,
            ..
        } = pass;
        shared.join_seat::<Gathers>(&mut seat, other);
        skipped = skipped.saturating_add(skips);
    }
    (seat, skipped)
}
