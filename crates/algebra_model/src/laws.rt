//! Laws of the algebra. A law is the contract of a function without effect.
ghost use Rattle.algebra_model.specs.Laws.{BagIsItsCounts, BuiltIsTried, PatternHasNoOrder, ScanIsEnough, DatasetIsSet, ClosedIsEverywhere, ClosedIsJoinedOnce, JoinKeepsBags, LeftJoinKeepsBags, MinusKeepsBags, UnionKeepsBags, FilterKeepsBags, ExtendKeepsBags, ProjectKeepsBags, DistinctKeepsBags, TableKeepsBags, JoinIsRead, LeftJoinIsRead, MinusIsRead, UnionIsRead, FilterIsRead, ExtendIsRead, ProjectIsRead, DistinctIsRead, TableIsRead, PatternIsRead, LeftJoinByRow, KeysApart, CandidatesSuffice, PiecesJoin, TiesAreEqual, SortedIsBag, SortedIsRising, SortedIsUnique, BagHasOneList};

/// Proves that two lists are the same multiset exactly if each solution is counted equally in both.
pub fn a_bag_is_its_counts()
    ensures counts { BagIsItsCounts }
{}

/// Proves that every operator makes equal multisets of equal multisets, in each of its arguments.
pub fn equal_bags_give_equal_bags()
    ensures join { JoinKeepsBags }
    ensures left_join { LeftJoinKeepsBags }
    ensures minus { MinusKeepsBags }
    ensures union { UnionKeepsBags }
    ensures filter { FilterKeepsBags }
    ensures extend { ExtendKeepsBags }
    ensures project { ProjectKeepsBags }
    ensures distinct { DistinctKeepsBags }
    ensures table { TableKeepsBags }
{}

/// Proves that the solutions of a basic graph pattern are found by extending maps, one triple
/// pattern after another, instead of trying every map. The order of the triple patterns does not
/// matter. It is enough to extend a map by the triples that agree with it, each once.
pub fn a_pattern_is_solved_by_scans()
    ensures built { BuiltIsTried }
    ensures order { PatternHasNoOrder }
    ensures scan { ScanIsEnough }
{}

/// Proves that the result of any algebra expression depends on which quads a dataset has, and not
/// on their order or repeats.
pub fn a_dataset_is_a_set()
    ensures same_results { DatasetIsSet }
{}

/// Proves that a tree without a triple pattern outside of a GRAPH has the same solutions for every
/// active graph. Under GRAPH with a variable it may be evaluated once and joined afterwards.
pub fn closed_trees_are_evaluated_once()
    ensures everywhere { ClosedIsEverywhere }
    ensures joined_once { ClosedIsJoinedOnce }
{}

/// Proves that operators commute with a reading of numbers as terms, if distinct numbers represent
/// distinct terms. The result of an operator on numbers, read as terms, is the result of the
/// operator on the terms.
///
/// Union, Filter, Extend, Project and a table compare no terms, so distinct numbers may represent
/// one term. Extend needs the number of a value only for the solutions that it is given.
pub fn numbers_denote_terms()
    ensures pattern { PatternIsRead }
    ensures join { JoinIsRead }
    ensures left_join { LeftJoinIsRead }
    ensures minus { MinusIsRead }
    ensures union { UnionIsRead }
    ensures filter { FilterIsRead }
    ensures extend { ExtendIsRead }
    ensures project { ProjectIsRead }
    ensures distinct { DistinctIsRead }
    ensures table { TableIsRead }
{}

/// Proves that LeftJoin may be evaluated solution by solution. An operator that works solution by
/// solution may be evaluated on the pieces of a list.
pub fn solutions_may_be_taken_apart()
    ensures left_join { LeftJoinByRow }
    ensures pieces { PiecesJoin }
{}

/// Proves that a join may leave out the pairs that bind all key variables to different terms. So a
/// solution that binds all of them is compared only with the solutions of its key and those that
/// leave a key variable unbound.
pub fn different_keys_are_incompatible()
    ensures apart { KeysApart }
    ensures candidates { CandidatesSuffice }
{}

/// Proves that a multiset of solutions has exactly one list of sorted rows.
pub fn a_bag_has_one_sorted_list()
    ensures ties { TiesAreEqual }
    ensures bag { SortedIsBag }
    ensures rising { SortedIsRising }
    ensures unique { SortedIsUnique }
    ensures same { BagHasOneList }
{}
