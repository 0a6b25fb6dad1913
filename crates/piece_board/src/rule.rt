//! The rule of the board's table, and the steps that preserve it. Word 0 is the next number to
//! draw, and word 1 the least reported number. The table has no slots.
use crate::history::History;
use atomic_table::{Join, Play, Split, TableRule};

/// What is fixed when a board is opened: its pieces and its seats.
#[derive(Clone, Copy)]
pub struct Size {
    /// How many numbers there are to draw.
    pub pieces: u64,
    /// How many passes were handed out.
    pub seats: u64,
}

/// The invariant of words and histories between any two steps of any threads.
pub struct Rule;

impl TableRule<(), History, Size> for Rule {
    ghost use Rattle.piece_board.specs.Protocol.{fresh};
    ghost use Rattle.piece_board.specs.Rule.{KeepsRule};

    ghost holds = { KeepsRule };

    ghost first = { λ size. fresh size.pieces size.seats };
}

/// A draw: one fetch_add of 1 on word 0.
pub struct Draws;

impl Play<(), History> for Draws {
    ghost use Rattle.piece_board.specs.Rule.{IsDraw};

    ghost then = { IsDraw };
}

/// A report: one fetch_min on word 1.
pub struct Reports;

impl Play<(), History> for Reports {
    ghost use Rattle.piece_board.specs.Rule.{IsReport};

    ghost then = { IsReport };
}

/// A look: one load of word 1.
pub struct Looks;

impl Play<(), History> for Looks {
    ghost use Rattle.piece_board.specs.Rule.{IsLook};

    ghost then = { IsLook };
}

/// One seat is split off a seat that represents several.
pub struct Deals;

impl Split<History> for Deals {
    ghost use Rattle.piece_board.specs.Rule.{kept_back, dealt};

    ghost left = { kept_back };

    ghost right = { dealt };
}

/// One seat is joined to another.
pub struct Gathers;

impl Join<History> for Gathers {
    ghost use Rattle.piece_board.specs.Protocol.{fresh};
    ghost use Rattle.piece_board.specs.Rule.{together};

    ghost both = { together };

    ghost spent = { fresh 0 0 };
}
