//! The law of the grammar.

ghost use Rattle.std.specs.Prelude.{◌≡◌, List, []};
ghost use Rattle.sparql_lexer.specs.Terminal.{Terminal};
ghost use Rattle.sparql_grammar.specs.Values.{Names};
ghost use Rattle.sparql_grammar.specs.Symbol.{Select};
ghost use Rattle.sparql_grammar.specs.Symbol as the;
ghost use Rattle.sparql_grammar.specs.Productions.{right_side};
ghost use Rattle.sparql_grammar.specs.Derivation.{Derivation};

/// A list of terminals is at most one query.
pub fn one_query()
    ensures unique { (names : Names) (ts : List Terminal) (q r : Select)
        → Derivation names the.query (right_side the.query) ts q []
        → Derivation names the.query (right_side the.query) ts r [] → q ≡ r }
{}
