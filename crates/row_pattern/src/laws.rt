//! The law that relates patterns of numbers to patterns of terms, as the contract of a function
//! without effect. The evaluator, which reads numbers as terms, uses it.
ghost use Rattle.row_pattern.specs.Laws.{RowsReadAsSolutions};

/// States that the solutions of a pattern of numbers, read through the dictionary, are the
/// solutions of the pattern of terms. The index represents the dataset, and both patterns are
/// matched in the same graph. Each number in the solutions is the number of a term.
pub fn rows_read_as_solutions()
    ensures law { RowsReadAsSolutions }
{}
