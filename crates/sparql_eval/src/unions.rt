//! Union (SPARQL 1.1 Query Language, section 18.5).
ghost use Rattle.std.specs.Prelude.{◌≡◌, ◌++◌, IfErr, IfOk};
ghost use Rattle.sparql_eval.specs.Evaluated.{AreKnown, IsEvaluated, solutions_of};
ghost use Rattle.row_pieces.specs.declared.fault.EvalFault.TheVariants.{Memory};

use crate::appending::add_rows;
use dict_core::Dict;
use row_core::Rows;
use row_pieces::EvalFault;
use std::alloc::Global;

/// Evaluates Union: returns the rows of both sides, with the sum of their multiplicities. The
/// dictionary is returned unchanged.
///
/// # Requires
/// Both sides have the same width, and each number in them is below the length of the dictionary.
///
/// # Errors
/// `Memory` if an allocation fails. The dictionary is dropped.
pub fn union(
    alloc: Global,
    dict: Dict,
    left: &Rows,
    right: &Rows,
) -> Result<(Rows, Dict), EvalFault>
    requires same_width { left.now.width ≡ right.now.width }
    requires known_left { AreKnown dict left.now }
    requires known_right { AreKnown dict right.now }
    ensures evaluated { IfOk result (λ r. IsEvaluated dict left.now.width
        (solutions_of dict left.now ++ solutions_of dict right.now) r.0 r.1) }
    ensures same_dict { IfOk result (λ r. r.1 ≡ dict) }
    ensures memory { IfErr result (λ fault. fault ≡ Memory) }
{
    let mut made = Rows::new(alloc, left.width());
    add_rows(&mut made, left)?;
    add_rows(&mut made, right)?;
    Ok((made, dict))
}

/// Unites rows that the evaluator no longer needs: the right rows are moved after the left ones.
/// The dictionary is returned unchanged.
pub(crate) fn union_of(dict: Dict, left: Rows, right: Rows) -> Result<(Rows, Dict), EvalFault>
    requires same_width { left.width ≡ right.width }
    requires known_left { AreKnown dict left }
    requires known_right { AreKnown dict right }
    ensures evaluated { IfOk result (λ r. IsEvaluated dict left.width
        (solutions_of dict left ++ solutions_of dict right) r.0 r.1) }
    ensures same_dict { IfOk result (λ r. r.1 ≡ dict) }
    ensures memory { IfErr result (λ fault. fault ≡ Memory) }
{
    let mut made = left;
    made.append(right)?;
    Ok((made, dict))
}
