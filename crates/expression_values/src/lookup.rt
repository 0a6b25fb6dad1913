//! Rows that an expression is evaluated over.
ghost use Rattle.std.specs.Prelude.{◌≡◌, None, get_or, option_map};

use rdf_core::Term;

/// A row: the term that each variable is bound to.
pub trait Lookup {
    ghost use Rattle.rdf_core.specs.declared.term.Term.{Term};
    ghost use Rattle.algebra_model.specs.Solution.{Solution};

    /// The solution that the row represents.
    ghost solution: { Self → Solution Term };

    /// Returns the term that the variable is bound to, or None. None is returned if the row leaves
    /// the variable unbound or has no variable of that number.
    fn get(&self, var: usize) -> Option<&Term>
        ensures term { option_map (λ t. t.now) result ≡ get_or (solution self.now) var None };
}
