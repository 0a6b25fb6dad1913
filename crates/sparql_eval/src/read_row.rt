//! A row of numbers, read as a solution of terms.
ghost use Rattle.std.specs.Prelude.{◌≡◌, None, get_or};
ghost use Rattle.sparql_eval.specs.Numbered.{IsKnownAt};

use dict_core::Dict;
use rdf_core::Term;
use sparql_algebra::Lookup;

/// A row, with the dictionary of its numbers.
#[derive(Clone, Copy)]
pub(crate) struct ReadRow<'a> {
    pub(crate) dict: &'a Dict,
    pub(crate) row: &'a [Option<u64>],
    pub(crate) ghost known: { IsKnownAt dict.now row.now },
}

impl<'a> Lookup for ReadRow<'a> {
    ghost use Rattle.dict_core.specs.Dict.{term_at};
    ghost use Rattle.algebra_model.specs.Renaming.{read_row};

    ghost solution = { λ r. read_row (term_at r.dict.now) r.row.now };

    fn get(&self, var: usize) -> Option<&Term> {
        match number_at(self.row, var) {
            Some(n) => Some(self.dict.term(n)),
            None => None,
        }
    }
}

/// Returns the number that the row binds a variable to, or None. The row may be too short to have
/// the variable.
pub(crate) fn number_at(row: &[Option<u64>], var: usize) -> Option<u64>
    ensures value { result ≡ get_or row.now var None }
{
    if var < row.len() { row[var] } else { None }
}
