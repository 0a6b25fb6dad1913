//! What one seat at the board has done and seen. Only proofs use it.
use std::collections::LinkedList;

/// The history of a seat, or of several seats joined. No code makes a value of it. It is the view
/// that the table keeps of a seat; in contracts the lists are lists of numbers.
pub struct History {
    /// The number of pieces of the board.
    pub pieces: u64,
    /// How many of the board's seats it represents: one, or all of them once the board is closed.
    pub seats: u64,
    /// The numbers drawn, the first one first.
    pub draws: LinkedList<u64>,
    /// The numbers reported, the first one first.
    pub reports: LinkedList<u64>,
    /// The least report that it saw when it last looked, or the number of pieces.
    pub seen: u64,
    /// How many of its seats are finished: their last draw found no number.
    pub finished: u64,
}
