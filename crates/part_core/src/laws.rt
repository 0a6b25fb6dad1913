//! Laws: the quads that a query needs give its result. Each law is the contract of a function that does nothing.
ghost use Rattle.part_core.specs.Laws.{KeptAreDocument, KeptOfBlocksJoin, NeededGiveResult};

use algebra_model::laws::a_bag_has_one_sorted_list;
use needed_quads::laws::needed_quads_suffice;
use nquads_core::laws::one_meaning;
use sparql_read::one_tree;

/// What is kept of the quads of a block is a document, and what is kept of blocks, one block after the other, is kept of the whole.
pub fn kept_quads_join()
    ensures document { KeptAreDocument }
    ensures blocks { KeptOfBlocksJoin }
{}

/// A document that has the quads of another one that a query needs gives the same result.
pub fn needed_quads_give_the_result()
    ensures law { NeededGiveResult }
{
    a_bag_has_one_sorted_list();
    needed_quads_suffice();
    one_meaning();
    one_tree();
}
