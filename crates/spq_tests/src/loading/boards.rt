//! The claim board with two passes.
ghost use Rattle.std.specs.Prelude.{◌≡◌, ◌∷◌, [], IfOk};
ghost use Rattle.piece_board.specs.Board.{IsPassOf};
ghost use Rattle.piece_board.specs.Pass.{unused};

use piece_board::{Board, BoardFault, Pass};
use std::alloc::{AllocError, Global};

/// Opens a board of two numbers with two seats.
pub(crate) fn open_two(alloc: Global) -> Result<(Board, Pass, Pass), BoardFault>
    ensures board { IfOk result (λ opened. (opened.0.pieces ≡ 2) × (opened.0.seats ≡ 2)) }
    ensures first { IfOk result (λ opened. opened.1 ≡ unused opened.0.id 2) }
    ensures second { IfOk result (λ opened. opened.2 ≡ unused opened.0.id 2) }
{
    let (board, mut passes) = Board::open(alloc, 2, 2)?;
    let Some(b) = passes.pop() else {
        unreachable!()
    };
    let Some(a) = passes.pop() else {
        unreachable!()
    };
    Ok((board, a, b))
}

/// Returns a vector of two values.
pub(crate) fn pair<T: Drop>(alloc: Global, a: T, b: T) -> Result<Vec<T>, AllocError>
    ensures items { IfOk result (λ pair. pair.items ≡ a ∷ b ∷ []) }
{
    let mut pair = Vec::new(alloc);
    pair.push(a)?;
    pair.push(b)?;
    Ok(pair)
}

/// Lets `b` report its last draw, and `a` skip its own, if that is above the least report that `a` then sees.
fn report_and_skip(board: &Board, a: &mut Pass, b: &mut Pass)
    requires first { IsPassOf board.now a.old }
    requires second { IsPassOf board.now b.old }
    ensures first { IsPassOf board.now a.new }
    ensures second { IsPassOf board.now b.new }
{
    if let Some(reported) = b.last() {
        board.report(b, reported);
    }
    let least = board.least(a);
    if let Some(drawn) = a.last() {
        if drawn > least {
            a.skip(drawn);
        }
    }
}

/// A pass sees what the other pass reports, and skips a larger number.
#[test]
fn a_skip_is_above_a_seen_report(rt: HostRuntime) {
    let (board, mut a, mut b) = open_two(rt.alloc()).expect(&rt, "a board");
    let drawn = (board.draw(&mut b), board.draw(&mut a));
    report_and_skip(&board, &mut a, &mut b);
    let is_open = !a.is_finished() && a.seen() == 0 && board.seats() == 2;
    let passes = pair(rt.alloc(), a, b).expect(&rt, "two passes");
    let closed = board.close(passes);
    assert!(rt;
        is_open && drawn == (Some(0), Some(1)),
        "two draws and a report"
    );
    assert!(rt;
        closed.drawn == 2 && closed.skipped == 1 && closed.least == 0,
        "a skip"
    );
}
