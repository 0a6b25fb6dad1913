//! Laws of splitting: each is the contract of a function that does nothing.
ghost use Rattle.query_split.specs.Laws.{PartsHaveAll};

/// Proves that the solutions over a dataset are those over its parts, all together.
pub fn parts_have_all_solutions()
    ensures law { PartsHaveAll }
{}
