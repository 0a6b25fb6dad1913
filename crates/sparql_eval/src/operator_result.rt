//! The result of an operator: its rows, and the dictionary of their numbers.
ghost use Rattle.std.specs.Prelude.{◌≡◌, Err, IfErr, IfOk, Ok};

use dict_core::Dict;
use row_core::Rows;
use row_pieces::EvalFault;

/// Pairs the rows with the dictionary, or returns the fault and drops the dictionary. No other
/// place drops a dictionary for an operator.
pub(crate) fn with_dict(
    made: Result<Rows, EvalFault>,
    dict: Dict,
) -> Result<(Rows, Dict), EvalFault>
    ensures rows { IfOk result (λ r. made ≡ Ok r.0) }
    ensures same_dict { IfOk result (λ r. r.1 ≡ dict) }
    ensures fault { IfErr result (λ fault. made ≡ Err fault) }
{
    Ok((made?, dict))
}
