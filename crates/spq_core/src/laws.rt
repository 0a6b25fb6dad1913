//! The laws of results.

ghost use Rattle.spq_core.specs.Laws.{OneOutcome, OneOutput};

use nquads_core::laws::one_meaning;
use sparql_read::one_result;

/// Proves that a document and the text of a query have at most one result: either some bytes, or a reason
/// why there are none.
pub fn one_outcome()
    ensures law { OneOutcome }
{
    one_meaning();
    one_result();
}

/// Proves that a request and a document have at most one output: the result of a query, the text of `check`
/// or `terms`, or the line of the fault.
pub fn one_output()
    ensures law { OneOutput }
{
    one_meaning();
    one_outcome();
}
