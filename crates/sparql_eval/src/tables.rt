//! Inline data: the tables of VALUES (SPARQL 1.1 Query Language, [61] `InlineData` and section
//! 18.2.2.6).
ghost use Rattle.std.specs.Prelude.{◌≡◌, ◌<◌, All, Contains, Some, length, map, option_map, take, IfErr, IfOk, OnOk};
ghost use Rattle.dict_core.specs.Dict.{IsGrown, term_at};
ghost use Rattle.algebra_model.specs.Operators.{table, table_row};
ghost use Rattle.algebra_model.specs.Renaming.{read_row};
ghost use Rattle.sparql_eval.specs.Computed.{IsCell, TakesOnly};
ghost use Rattle.sparql_eval.specs.Evaluated.{IsEvaluated};
ghost use Rattle.sparql_eval.specs.Numbered.{IsKnownCell, IsKnownRow};
ghost use Rattle.row_pieces.specs.declared.fault.EvalFault.TheVariants.{Memory};

use crate::numbering::number_of_term;
use crate::operator_result::with_dict;
use dict_core::Dict;
use rdf_core::Term;
use row_core::Rows;
use row_pieces::EvalFault;
use std::alloc::{AllocError, Global};

/// Creates the rows of a table. Each list of cells gives one row, which binds each variable to the
/// cell at the same place. A cell that is None (UNDEF) binds nothing. If a variable is listed
/// twice, its first place is used. Only the terms of the cells are added to the dictionary, each
/// once.
///
/// # Requires
/// Each variable is below `width`.
///
/// # Errors
/// `Memory` if an allocation fails. The dictionary is dropped.
pub fn table(
    alloc: Global,
    dict: Dict,
    width: usize,
    variables: &[usize],
    rows: &[Vec<Option<Term>>],
) -> Result<(Rows, Dict), EvalFault>
    requires below { All (λ v. v < width) variables.now }
    ensures evaluated { IfOk result (λ r. IsEvaluated dict width
        (table width variables.now (map (λ row. row.items) rows.now)) r.0 r.1) }
    ensures needed { IfOk result (λ r.
        TakesOnly (IsCell variables.now (map (λ row. row.items) rows.now)) dict r.1) }
    ensures memory { IfErr result (λ fault. fault ≡ Memory) }
{
    let mut dict = dict;
    let made = tabulated(alloc, &mut dict, width, variables, rows);
    with_dict(made, dict)
}

/// Returns the rows of a table.
fn tabulated(
    alloc: Global,
    dict: &mut Dict,
    width: usize,
    variables: &[usize],
    rows: &[Vec<Option<Term>>],
) -> Result<Rows, EvalFault>
    requires below { All (λ v. v < width) variables.now }
    ensures evaluated { IfOk result (λ made. IsEvaluated dict.old width
        (table width variables.now (map (λ row. row.items) rows.now)) made dict.new) }
    ensures needed { OnOk result
        (TakesOnly (IsCell variables.now (map (λ row. row.items) rows.now)) dict.old dict.new) }
    ensures memory { IfErr result (λ fault. fault ≡ Memory) }
{
    let mut made = Rows::new(alloc, width);
    let mut row = Vec::with_capacity(alloc, width)?;
    for cells in rows {
        number_row(alloc, dict, &mut row, width, variables, cells.as_slice())?;
        made.push(row.as_slice())?;
    }
    Ok(made)
}

/// Replaces the contents of `row` with the numbers of the cells.
fn number_row(
    alloc: Global,
    dict: &mut Dict,
    row: &mut Vec<Option<u64>>,
    width: usize,
    variables: &[usize],
    cells: &[Option<Term>],
) -> Result<(), AllocError>
    requires below { All (λ v. v < width) variables.now }
    ensures grown { OnOk result (IsGrown dict.old dict.new) }
    ensures wide { OnOk result (length row.new.items ≡ width) }
    ensures known { OnOk result (IsKnownRow dict.new row.new.items) }
    ensures read { OnOk result
        (read_row (term_at dict.new) row.new.items ≡ table_row width variables.now cells.now) }
    ensures needed { OnOk result (TakesOnly
        (λ t. Contains (take (length variables.now) cells.now) (Some t)) dict.old dict.new) }
{
    row.clear();
    row.resize(width, None)?;
    let count = variables.len().min(cells.len());
    for i in (0..count).rev() {
        row[variables[i]] = number_cell(alloc, dict, &cells[i])?;
    }
    Ok(())
}

/// Returns the number of a cell's term, which is added to the dictionary if it lacks the term.
#[tactic(auto, using(crate::proofs::ReadingLaws::grown_itself, crate::proofs::TakingLaws::takes_none, crate::proofs::TakingLaws::takes_value))]
fn number_cell(
    alloc: Global,
    dict: &mut Dict,
    cell: &Option<Term>,
) -> Result<Option<u64>, AllocError>
    ensures grown { OnOk result (IsGrown dict.old dict.new) }
    ensures known { IfOk result (λ n. IsKnownCell dict.new n) }
    ensures read { IfOk result (λ n. option_map (term_at dict.new) n ≡ cell.now) }
    ensures needed { OnOk result (TakesOnly (λ t. cell.now ≡ Some t) dict.old dict.new) }
{
    match cell {
        Some(term) => Ok(Some(number_of_term(alloc, dict, term)?)),
        None => Ok(None),
    }
}
