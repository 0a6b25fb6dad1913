//! Named graphs (SPARQL 1.1 Query Language, section 18.6, Graph).
ghost use Rattle.std.specs.Prelude.{◌≡◌, ◌<◌, ◌++◌, ◌∷◌, [], false, Some, None, length, map, nat_eq, replicate, set, take, ℕ, IfOk, OnErr, OnOk, MatchOption};
ghost use Rattle.std.specs.List.{list_any};
ghost use Rattle.rdf_core.specs.Equality.{term_eq};
ghost use Rattle.algebra_model.specs.Dataset.{names};
ghost use Rattle.algebra_model.specs.Operators.{join};
ghost use Rattle.dict_core.specs.NumQuad.{AreBelow, quads_at};
ghost use Rattle.sparql_eval.specs.GraphNumbers.{IsGraphNumber};

use dict_core::Dict;
use quad_index::Index;
use rdf_core::Term;
use row_core::{Rows, is_compatible, merge_into};
use std::alloc::{AllocError, Global};

/// Returns the number of a graph name, or None if no graph has that name.
pub(crate) fn graph_number(dict: &Dict, index: &Index, name: &Term) -> Option<u64>
    requires index { AreBelow (length dict.now) index.now }
    ensures number { MatchOption result
        (list_any (term_eq name.now) (names (quads_at dict.now index.now)) ≡ false)
        (λ n. IsGraphNumber dict.now index.now name.now n) }
{
    let _distinct = dict.len();
    let number = dict.number_of(name)?;
    index
        .graphs()
        .binary_search(&number)
        .is_ok()
        .then_some(number)
}

/// Creates the row that binds one variable.
fn name_row(
    alloc: Global,
    width: usize,
    variable: usize,
    number: u64,
) -> Result<Vec<Option<u64>>, AllocError>
    requires variable { variable < width }
    ensures row { IfOk result (λ row. row.items ≡ set (replicate width None) variable (Some number)) }
    ensures wide { IfOk result (λ row. length row.items ≡ width) }
{
    let mut row = Vec::new(alloc);
    row.resize(width, None)?;
    row[variable] = Some(number);
    Ok(row)
}

/// Creates a row for each graph, which binds the variable to the number of the graph.
pub(crate) fn name_rows(
    alloc: Global,
    width: usize,
    variable: usize,
    graphs: &[u64],
) -> Result<Rows, AllocError>
    requires variable { variable < width }
    ensures width { IfOk result (λ made. made.width ≡ width) }
    ensures rows { IfOk result (λ made. made.rows
        ≡ map (λ n. set (replicate width None) variable (Some n)) graphs.now) }
{
    let mut made = Rows::new(alloc, width);
    for i in 0..graphs.len() {
        let row = name_row(alloc, width, variable, graphs[i])?;
        made.push(row.as_slice())?;
    }
    Ok(made)
}

/// Appends the merge of each of the rows with one row. On error, `made` keeps its rows, followed by
/// the merges of some of the first rows.
fn add_named(
    alloc: Global,
    made: &mut Rows,
    rows: &Rows,
    name: &[Option<u64>],
) -> Result<(), AllocError>
    requires same_width { rows.now.width ≡ made.old.width }
    requires wide { length name.now ≡ rows.now.width }
    ensures added { OnOk result (made.new.rows ≡ made.old.rows ++ join nat_eq rows.now.rows (name.now ∷ [])) }
    ensures in_part { OnErr result ((k : ℕ) × (made.new.rows
        ≡ made.old.rows ++ join nat_eq (take k rows.now.rows) (name.now ∷ []))) }
    ensures width { made.new.width ≡ made.old.width }
{
    let mut buffer = Vec::new(alloc);
    let mut merged = Vec::with_capacity(alloc, rows.width())?;
    for i in 0..rows.len() {
        rows.read(i, &mut buffer)?;
        let row = buffer.as_slice();
        if is_compatible(row, name) {
            merge_into(&mut merged, row, name)?;
            made.push(merged.as_slice())?;
        }
    }
    Ok(())
}

/// Appends the merge of each row of a graph with the variable bound to the number of the graph. On
/// error, `made` keeps its rows, perhaps with more rows after them.
pub(crate) fn add_graph(
    alloc: Global,
    made: &mut Rows,
    rows: &Rows,
    variable: usize,
    number: u64,
) -> Result<(), AllocError>
    requires same_width { rows.now.width ≡ made.old.width }
    requires variable { variable < rows.now.width }
    ensures added { OnOk result (made.new.rows ≡ made.old.rows ++ join nat_eq rows.now.rows
        (set (replicate rows.now.width None) variable (Some number) ∷ [])) }
    ensures width { OnOk result (made.new.width ≡ made.old.width) }
{
    let name = name_row(alloc, rows.width(), variable, number)?;
    add_named(alloc, made, rows, name.as_slice())
}
