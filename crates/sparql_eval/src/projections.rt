//! Project (SPARQL 1.1 Query Language, section 18.5).
ghost use Rattle.std.specs.Prelude.{◌≡◌, ℕ, ◌<◌, ◌==◌, false, length, get_or, None, IfErr, IfOk, OnOk, if◌then◌else◌};
ghost use Rattle.std.specs.List.{list_any};
ghost use Rattle.algebra_model.specs.Operators.{project, restrict};
ghost use Rattle.sparql_eval.specs.Evaluated.{AreKnown, IsEvaluated, solutions_of};
ghost use Rattle.row_pieces.specs.declared.fault.EvalFault.TheVariants.{Memory};

use crate::operator_result::with_dict;
use dict_core::Dict;
use row_core::Rows;
use row_pieces::EvalFault;
use std::alloc::{AllocError, Global};

/// Evaluates Project: returns every row with only the listed variables bound. The dictionary is
/// returned unchanged.
///
/// # Requires
/// Each number in the rows is below the length of the dictionary.
///
/// # Errors
/// `Memory` if an allocation fails. The dictionary is dropped.
pub fn project(
    alloc: Global,
    dict: Dict,
    rows: &Rows,
    variables: &[usize],
) -> Result<(Rows, Dict), EvalFault>
    requires known { AreKnown dict rows.now }
    ensures evaluated { IfOk result (λ r. IsEvaluated dict rows.now.width
        (project variables.now (solutions_of dict rows.now)) r.0 r.1) }
    ensures same_dict { IfOk result (λ r. r.1 ≡ dict) }
    ensures memory { IfErr result (λ fault. fault ≡ Memory) }
{
    let made = projected(alloc, rows, variables);
    with_dict(made, dict)
}

/// Projects rows that the evaluator no longer needs: in them, the variables that are not listed are
/// unbound. The dictionary is returned unchanged.
pub(crate) fn project_of(
    alloc: Global,
    dict: Dict,
    rows: Rows,
    variables: &[usize],
) -> Result<(Rows, Dict), EvalFault>
    requires known { AreKnown dict rows }
    ensures evaluated { IfOk result (λ r. IsEvaluated dict rows.width
        (project variables.now (solutions_of dict rows)) r.0 r.1) }
    ensures same_dict { IfOk result (λ r. r.1 ≡ dict) }
    ensures memory { IfErr result (λ fault. fault ≡ Memory) }
{
    let made = restricted(alloc, rows, variables);
    with_dict(made, dict)
}

/// Unbinds, in every row, the variables that are not listed.
fn restricted(alloc: Global, rows: Rows, variables: &[usize]) -> Result<Rows, EvalFault>
    ensures made { IfOk result (λ made. (made.width ≡ rows.width)
        × (made.rows ≡ project variables.now rows.rows)) }
    ensures memory { IfErr result (λ fault. fault ≡ Memory) }
{
    let mut made = rows;
    let kept = kept_variables(alloc, made.width(), variables)?;
    made.restrict(kept.as_slice());
    Ok(made)
}

/// Returns every row with only the listed variables bound.
fn projected(alloc: Global, rows: &Rows, variables: &[usize]) -> Result<Rows, EvalFault>
    ensures made { IfOk result (λ made. (made.width ≡ rows.now.width)
        × (made.rows ≡ project variables.now rows.now.rows)) }
    ensures memory { IfErr result (λ fault. fault ≡ Memory) }
{
    let kept = kept_variables(alloc, rows.width(), variables)?;
    let mut made = Rows::new(alloc, rows.width());
    let mut buffer = Vec::new(alloc);
    let mut cells = Vec::with_capacity(alloc, rows.width())?;
    for i in 0..rows.len() {
        rows.read(i, &mut buffer)?;
        let row = buffer.as_slice();
        restrict_into(&mut cells, row, kept.as_slice())?;
        made.push(cells.as_slice())?;
    }
    Ok(made)
}

/// Returns for each variable whether it is listed.
fn kept_variables(alloc: Global, width: usize, variables: &[usize]) -> Result<Vec<bool>, AllocError>
    ensures wide { IfOk result (λ kept. length kept.items ≡ width) }
    ensures listed { IfOk result (λ kept. (k : ℕ) → k < width
        → get_or kept.items k false ≡ list_any (λ u. u == k) variables.now) }
{
    let mut kept = Vec::with_capacity(alloc, width)?;
    kept.resize(width, false)?;
    for v in variables {
        if *v < width {
            kept[*v] = true;
        }
    }
    Ok(kept)
}

/// Replaces the contents of `cells` with the row, restricted to the kept variables.
fn restrict_into(
    cells: &mut Vec<Option<u64>>,
    row: &[Option<u64>],
    kept: &[bool],
) -> Result<(), AllocError>
    requires wide { length kept.now ≡ length row.now }
    ensures wide { OnOk result (length cells.new.items ≡ length row.now) }
    ensures restricted { OnOk result
        (cells.new.items ≡ restrict (λ k. get_or kept.now k false) row.now) }
{
    cells.clear();
    for i in 0..row.len() {
        cells.push(kept_cell(kept[i], row[i]))?;
    }
    Ok(())
}

/// Returns the cell of a kept variable, and None for another variable.
fn kept_cell(is_kept: bool, cell: Option<u64>) -> Option<u64>
    ensures value { result ≡ (if is_kept then cell else None) }
{
    if is_kept { cell } else { None }
}
