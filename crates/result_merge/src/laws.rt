//! A law of results: the contract of a function that does nothing.
ghost use Rattle.result_merge.specs.Laws.{ResultsAreUnique};

/// Proves that bytes are the results of one list of tables only.
pub fn results_are_unique()
    ensures law { ResultsAreUnique }
{}
