//! The laws of queries over parts: the contracts of functions that do nothing.
ghost use Rattle.query_parts.specs.Laws.{OverlappingPartsGiveRows, PartsGiveRows, RowsAreTagged};
ghost use Rattle.query_parts.specs.Results.{MergesGiveResult};

use nquads_core::laws::one_meaning;
use result_merge::laws::results_are_unique;
use sparql_read::one_tree;

/// Proves that the rows of a query over a dataset are the merged rows of the query for the parts.
pub fn parts_give_the_rows()
    ensures law { PartsGiveRows }
{}

/// Proves the same of a query with DISTINCT over parts by lines that may have quads in common.
pub fn overlapping_parts_give_the_rows()
    ensures law { OverlappingPartsGiveRows }
{}

/// Proves that in the rows of a query over documents each literal with a language tag has the datatype rdf:langString.
pub fn rows_are_tagged()
    ensures law { RowsAreTagged }
{}

/// Proves that merging the results of the parts gives the result of the query.
pub fn merges_give_the_result()
    ensures law { MergesGiveResult }
{
    one_meaning();
    one_tree();
    results_are_unique();
}
