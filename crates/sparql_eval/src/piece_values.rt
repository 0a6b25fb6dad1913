//! The values of a piece of rows, and the numbers that the dictionary gives them.
ghost use Rattle.std.specs.Prelude.{◌≡◌, ◌++◌, Contains, length, map, IfOk, OnOk};
ghost use Rattle.std.specs.List.{flat_map};
ghost use Rattle.algebra_model.specs.Renaming.{Each, read_row};
ghost use Rattle.dict_core.specs.Dict.{IsGrown, term_at};
ghost use Rattle.sparql_eval.specs.Computed.{TakesOnly};
ghost use Rattle.sparql_eval.specs.Numbered.{IsKnownRow};
ghost use Rattle.sparql_eval.specs.Values.{IsOwnBelow, IsPieceIn, own_terms, piece_terms, value_number};

use dict_core::Dict;
use std::alloc::{AllocError, Global};

/// The value of an expression for one row.
#[derive(Clone, Copy)]
pub(crate) enum PieceValue {
    /// The expression is an error for this row.
    Error,
    /// The number of a term that the borrowed dictionary has.
    Known(u64),
    /// The number, in the piece's own dictionary, of a term that the borrowed dictionary lacks.
    Own(u64),
}

/// The values of an expression for a piece of rows. A dictionary of its own holds the terms that
/// the borrowed dictionary lacks, each once.
#[derive(Drop)]
pub(crate) struct PieceValues {
    pub(crate) own: Dict,
    pub(crate) values: Vec<PieceValue>,
}

/// Returns the number of each row's value in the dictionary, or None if the value is an error. The
/// pieces' own terms are added to the dictionary, piece by piece in order.
pub(crate) fn number_values(
    alloc: Global,
    dict: &mut Dict,
    pieces: Vec<PieceValues>,
) -> Result<Vec<Option<u64>>, AllocError>
    requires known { Each (IsPieceIn dict.old) pieces.items }
    ensures grown { OnOk result (IsGrown dict.old dict.new) }
    ensures known { IfOk result (λ numbers. IsKnownRow dict.new numbers.items) }
    ensures read { IfOk result (λ numbers. read_row (term_at dict.new) numbers.items
        ≡ flat_map (piece_terms dict.old) pieces.items) }
    ensures needed { OnOk result
        (TakesOnly (Contains (flat_map own_terms pieces.items)) dict.old dict.new) }
{
    let mut numbers = Vec::new(alloc);
    for piece in pieces {
        number_piece(dict, &mut numbers, piece)?;
    }
    Ok(numbers)
}

/// Appends the numbers of a piece's values, and adds the piece's own terms to the dictionary.
fn number_piece(
    dict: &mut Dict,
    numbers: &mut Vec<Option<u64>>,
    piece: PieceValues,
) -> Result<(), AllocError>
    requires numbers { IsKnownRow dict.old numbers.old.items }
    requires known { IsPieceIn dict.old piece }
    ensures grown { OnOk result (IsGrown dict.old dict.new) }
    ensures known { OnOk result (IsKnownRow dict.new numbers.new.items) }
    ensures read { OnOk result (read_row (term_at dict.new) numbers.new.items
        ≡ read_row (term_at dict.old) numbers.old.items ++ piece_terms dict.old piece) }
    ensures needed { OnOk result (TakesOnly (Contains (own_terms piece)) dict.old dict.new) }
{
    let _distinct = dict.len();
    let PieceValues { own, values } = piece;
    let own_numbers = dict.absorb(own)?;
    add_numbers(numbers, own_numbers.as_slice(), values.as_slice())?;
    Ok(())
}

/// Appends the numbers of the values.
fn add_numbers(
    numbers: &mut Vec<Option<u64>>,
    own_numbers: &[u64],
    values: &[PieceValue],
) -> Result<(), AllocError>
    requires own { Each (IsOwnBelow (length own_numbers.now)) values.now }
    ensures added { OnOk result
        (numbers.new.items ≡ numbers.old.items ++ map (value_number own_numbers.now) values.now) }
{
    for value in values {
        numbers.push(number_value(own_numbers, *value))?;
    }
    Ok(())
}

/// Returns the number of a value, or None for an error.
fn number_value(own_numbers: &[u64], value: PieceValue) -> Option<u64>
    requires own { IsOwnBelow (length own_numbers.now) value }
    ensures value { result ≡ value_number own_numbers.now value }
{
    match value {
        PieceValue::Error => None,
        PieceValue::Known(number) => Some(number),
        PieceValue::Own(k) => Some(own_numbers[k as usize]),
    }
}
