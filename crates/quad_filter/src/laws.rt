//! Laws of what a filter keeps: each is the contract of a function that does nothing.
ghost use Rattle.quad_filter.specs.Laws.{AllIsKept, KeptAreListed, KeptJoin, ListIsKept, WantedAreKept};

/// Proves that a list of which nothing is left out is kept, and that the filter for every quad leaves out nothing.
pub fn all_is_kept()
    ensures all { AllIsKept }
    ensures list { ListIsKept }
{}

/// Proves that what is kept of one list and what is kept of another are kept of both lists together.
pub fn kept_joins()
    ensures joined { KeptJoin }
{}

/// Proves that each quad that is kept is in the list, and that each quad of the list that the filter keeps is kept.
pub fn kept_quads()
    ensures listed { KeptAreListed }
    ensures wanted { WantedAreKept }
{}
