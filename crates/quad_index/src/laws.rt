//! Laws of an index, each the contract of a function that does nothing. They are for callers that
//! read the numbers as terms.
ghost use Rattle.quad_index.specs.Laws.{IndexReadsTheQuads, IndexCountsTheQuads, IndexNamesTheGraphs};
ghost use Rattle.quad_index.specs.Counting.{PartsCountTheQuads};

/// An index of numbered quads, read through their dictionary, is the set of the quads. Each of its
/// numbers is the number of a term.
pub fn index_reads_the_quads()
    ensures law { IndexReadsTheQuads }
{}

/// An index has each quad once: as many as there are distinct quads of terms.
pub fn index_counts_the_quads()
    ensures law { IndexCountsTheQuads }
{}

/// The graph names of an index, read as terms, are the names of the graphs of the dataset, each
/// once.
pub fn index_names_the_graphs()
    ensures law { IndexNamesTheGraphs }
{}

/// The distinct quads of the parts, together, are as many as those of an index, and the distinct graph
/// names are those of the index.
pub fn parts_count_the_quads()
    ensures law { PartsCountTheQuads }
{}
