//! Rows with further cells, by which a join finds pairs of rows with equal terms.
ghost use Rattle.std.specs.Prelude.{◌≡◌, ◌+◌, ◌<◌, ◌≤◌, ◌∷◌, [], Bool, length, map, option_map, take, IfOk, OnOk};
ghost use Rattle.rdf_core.specs.declared.term.Term.{Term};
ghost use Rattle.algebra_model.specs.Solution.{Solution};
ghost use Rattle.sparql_eval.specs.Evaluated.{AreKnown};
ghost use Rattle.sparql_eval.specs.Fitting.{Requires, fits};
ghost use Rattle.sparql_eval.specs.KeyedRows.{key_number, pairing_key, text_hash, text_key, with_keys};
ghost use Rattle.sparql_eval.specs.Numbered.{IsKnownAt, IsKnownCell};
ghost use Rattle.sparql_eval.specs.Required.{OnSomePair};

use crate::equalities::{Equality, MOST_KEYS};
use crate::read_row::number_at;
use dict_core::Dict;
use rdf_core::Term;
use row_core::Rows;
use std::alloc::{AllocError, Global};
use term_values::form_key;

/// Returns the equalities of which one variable is bound on the left side and the other one on the
/// right side. In each of them the operand of the left side is first.
pub(crate) fn join_keys(
    alloc: Global,
    left: &Rows,
    right: &Rows,
    pairs: &[Equality],
) -> Result<Vec<Equality>, AllocError>
    ensures required { IfOk result (λ keys. Requires (fits pairs.now) keys.items) }
{
    let mut keys = Vec::new(alloc);
    for i in 0..pairs.len() {
        if let Some(key) = oriented(left, right, pairs[i]) {
            add_key(key, &mut keys)?;
        }
    }
    Ok(keys)
}

/// Adds an equality, if there are not too many.
fn add_key(key: Equality, keys: &mut Vec<Equality>) -> Result<(), AllocError>
    ensures required { OnOk result ((test : Solution Term → Bool) → Requires test (key ∷ [])
        → Requires test keys.old.items → Requires test keys.new.items) }
{
    if keys.len() < MOST_KEYS {
        keys.push(key)?;
    }
    Ok(())
}

/// Returns the equality with the operand of the left side first, or None if no row binds one of the
/// variables.
fn oriented(left: &Rows, right: &Rows, pair: Equality) -> Option<Equality>
    ensures required { OnSomePair result (λ key. Requires (fits (pair ∷ [])) (key ∷ [])) }
{
    if binds(left, pair.left.variable) && binds(right, pair.right.variable) {
        return Some(pair);
    }
    if binds(left, pair.right.variable) && binds(right, pair.left.variable) {
        return Some(Equality {
            left: pair.right,
            right: pair.left,
        });
    }
    None
}

/// Returns whether both sides bind some variable.
pub(crate) fn bind_a_common_variable(left: &Rows, right: &Rows) -> bool {
    for variable in 0..left.width() {
        if binds(left, variable) && binds(right, variable) {
            return true;
        }
    }
    false
}

/// Returns whether some row binds the variable.
fn binds(rows: &Rows, variable: usize) -> bool {
    if variable >= rows.width() {
        return false;
    }
    for i in 0..rows.len() {
        if rows.get(i, variable).is_some() {
            return true;
        }
    }
    false
}

/// Returns the rows, each followed by the key numbers of the terms of these variables.
pub(crate) fn keyed_rows(
    alloc: Global,
    dict: &Dict,
    rows: &Rows,
    variables: &[usize],
) -> Result<Rows, AllocError>
    requires known { AreKnown dict.now rows.now }
    ensures width { IfOk result (λ made. made.width ≡ rows.now.width + length variables.now) }
    ensures rows { IfOk result (λ made.
        made.rows ≡ map (with_keys dict.now variables.now) rows.now.rows) }
{
    let Some(width) = rows.width().checked_add(variables.len()) else {
        return Err(AllocError);
    };
    let mut made = Rows::new(alloc, width);
    let mut buffer = Vec::new(alloc);
    let mut cells = Vec::new(alloc);
    for i in 0..rows.len() {
        rows.read(i, &mut buffer)?;
        let row = buffer.as_slice();
        add_keys(dict, row, variables, &mut cells)?;
        made.push(cells.as_slice())?;
    }
    Ok(made)
}

/// Replaces the contents of `cells` with the row, followed by the key numbers of the terms of these
/// variables.
fn add_keys(
    dict: &Dict,
    row: &[Option<u64>],
    variables: &[usize],
    cells: &mut Vec<Option<u64>>,
) -> Result<(), AllocError>
    requires known { IsKnownAt dict.now row.now }
    ensures wide { OnOk result (length cells.new.items ≡ length row.now + length variables.now) }
    ensures keyed { OnOk result (cells.new.items ≡ with_keys dict.now variables.now row.now) }
{
    cells.clear();
    cells.extend_from_slice(row)?;
    for variable in variables {
        cells.push(key_cell(dict, number_at(row, *variable)))?;
    }
    Ok(())
}

/// Returns the key number of a cell's term, or None if the cell is unbound.
pub(crate) fn key_cell(dict: &Dict, cell: Option<u64>) -> Option<u64>
    requires known { IsKnownCell dict.now cell }
    ensures value { result ≡ option_map (key_number dict.now) cell }
{
    match cell {
        Some(number) => Some(key_number(dict, number)),
        None => None,
    }
}

/// Returns a number that depends only on the key of a term, or the term's own number if it has no
/// key. It is below the length of the dictionary.
pub(crate) fn key_number(dict: &Dict, number: u64) -> u64
    requires known { number < length dict.now }
    ensures value { result ≡ key_number dict.now number }
{
    match pairing_key(dict.term(number)) {
        Some(key) => key % (dict.len() as u64),
        None => number,
    }
}

/// Returns the key by which terms are paired: that of the text which STR returns for them. Terms that
/// are equal have one key, and so have terms that STR makes equal. A blank node has none: it is equal
/// only to itself, and STR of it is an error.
///
/// So `"1"` and `1` have one key too. Their equality is an error, which is counted only if the condition is
/// tested on them.
fn pairing_key(term: &Term) -> Option<u64>
    ensures value { result ≡ pairing_key term.now }
{
    match term {
        Term::Literal { lexical, .. } => Some(text_key(lexical.as_str())),
        Term::Iri(text) => Some(text_key(text.as_str())),
        Term::Blank(_) => None,
    }
}

/// Returns the key of the number or the boolean with this form, or else a number of its bytes.
fn text_key(text: &str) -> u64
    ensures value { result ≡ text_key text.now }
{
    match form_key(text) {
        Some(key) => key,
        None => text_hash(text.as_bytes()),
    }
}

/// Returns a number of the bytes of a text.
fn text_hash(bytes: &[u8]) -> u64
    ensures value { result ≡ text_hash bytes.now }
{
    let mut hash: u64 = 0;
    for byte in bytes {
        hash = hash.wrapping_mul(31).wrapping_add(u64::from(*byte));
    }
    hash
}

/// Returns the first cells of each row.
pub(crate) fn first_cells(alloc: Global, rows: &Rows, width: usize) -> Result<Rows, AllocError>
    requires wide { width ≤ rows.now.width }
    ensures width { IfOk result (λ made. made.width ≡ width) }
    ensures rows { IfOk result (λ made. made.rows ≡ map (take width) rows.now.rows) }
{
    let mut made = Rows::new(alloc, width);
    let mut buffer = Vec::new(alloc);
    for i in 0..rows.len() {
        rows.read(i, &mut buffer)?;
        let row = buffer.as_slice();
        made.push(&row[..width])?;
    }
    Ok(made)
}
