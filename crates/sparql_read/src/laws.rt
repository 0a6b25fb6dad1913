//! Laws of the query of a text, and of the reader's result. Each is a function without effect,
//! whose contract is the law.

ghost use Rattle.std.specs.Prelude.{◌≡◌, ℕ, List, Result, Err};
ghost use Rattle.sparql_tree.specs.QueryTree.{QueryTree};
ghost use Rattle.sparql_read.specs.declared.fault.QueryFault.{QueryFault};
ghost use Rattle.sparql_read.specs.declared.fault.QueryFault.TheVariants.{Memory};
ghost use Rattle.sparql_grammar.specs.Derives.{Derives};
ghost use Rattle.sparql_read.specs.Rejection.{IsReadResult};

use sparql_grammar::one_query;
use sparql_lexer::one_scan;

/// A text derives at most one query, whether or not a rule rejects it.
pub fn one_tree()
    ensures unique { (text : List ℕ) (q r : QueryTree) → Derives text q → Derives text r → q ≡ r }
{}

/// A text has at most one result, apart from `Memory`: one query, or one rule that rejects it.
pub fn one_result()
    ensures unique { (text : List ℕ) (r s : Result QueryTree QueryFault)
        → IsReadResult text r → IsReadResult text s
        → (r ≡ Err Memory → ⊥) → (s ≡ Err Memory → ⊥) → r ≡ s }
{
    one_scan();
    one_query();
}
