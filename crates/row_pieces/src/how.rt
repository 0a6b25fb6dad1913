//! How an evaluation is run: the number of workers, and how many rows a task has.

/// How an evaluation is split into pieces and run. The result does not depend on it.
#[derive(Clone, Copy, Debug, PartialEq, Eq)]
pub struct How {
    /// The largest number of workers: 1 to 64. If it is 1, the caller does all the work and no
    /// thread is started.
    pub workers: usize,
    /// The largest number of rows in a piece: 1 or more. Piece `i` of a list of rows starts at row
    /// `i * rows`.
    pub rows: usize,
}
