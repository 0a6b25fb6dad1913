//! A law of merging: the contract of a function that does nothing.
ghost use Rattle.row_merge.specs.Laws.{MergesNest};

/// Proves that parts may be merged in groups, and the results of the groups once more.
pub fn merges_nest()
    ensures law { MergesNest }
{}
