//! The value of an expression over a row, a comparison and an effective boolean value, by direct calls.
use crate::fixtures::text;
use rdf_core::Term;
use sparql_algebra::{Comparison, Expr, Lookup, compare, test, truth, value};
use std::alloc::AllocGlobal;

/// A row of one variable.
#[derive(Drop)]
struct Row {
    term: Option<Term>,
}

impl Lookup for Row {
    ghost use Rattle.std.specs.Prelude.{◌∷◌, []};

    ghost solution = { λ row. row.term ∷ [] };

    fn get(&self, var: usize) -> Option<&Term> {
        if var > 0 {
            return None;
        }
        match &self.term {
            Some(term) => Some(term),
            None => None,
        }
    }
}

/// `BOUND(?x)` has a value, which is equal to itself and whose effective boolean value is true.
#[test]
fn an_expression_has_a_value(rt: HostRuntime) {
    let alloc = rt.alloc();
    let row = Row {
        term: Some(Term::Iri(text(alloc, "a:a"))),
    };
    let expression = Expr::Bound(0);
    assert!(rt; test(alloc, &expression, &row) == Ok(true));
    let found = value(alloc, &expression, &row).expect(&rt, "the value of BOUND(?x)");
    assert!(rt;
        compare(Comparison::Equal, &found, &found) == Some(true) && truth(&found) == Some(true)
    );
}
