//! The cells of a row during a search: what a step reads, binds and restores.
ghost use Rattle.std.specs.Prelude.{◌≡◌, nat_eq, Some, None, get_or};
ghost use Rattle.std.specs.Bool.{OnTrue, OnFalse};
ghost use Rattle.algebra_model.specs.Bgp.{image};
ghost use Rattle.algebra_model.specs.Solve.{bind_pattern_term};
ghost use Rattle.row_pattern.specs.Places.{place_term, put_at};

/// Where a row has the value of one position of a triple pattern.
#[derive(Clone, Copy)]
pub(crate) enum Place {
    /// The cell of a variable, or of a label. Labels follow the variables.
    Cell(usize),
    /// No cell: the number of a term.
    Number(u64),
}

/// What a place held before it was bound, and whether it has the number after the binding.
#[derive(Clone, Copy)]
pub(crate) struct Binding {
    pub held: Option<u64>,
    pub fits: bool,
}

/// Returns the contents of a cell, or None if it is past the end.
fn cell(row: &[Option<u64>], k: usize) -> Option<u64>
    ensures value { result ≡ get_or row.now k None }
{
    if k < row.len() { row[k] } else { None }
}

/// Returns the number of a place: the term's own number, or what the row binds there.
pub(crate) fn given(row: &[Option<u64>], place: Place) -> Option<u64>
    ensures value { result ≡ image 0 row.now (place_term place) }
{
    match place {
        Place::Cell(k) => cell(row, k),
        Place::Number(n) => Some(n),
    }
}

/// Writes the cell of a place, if it has one.
pub(crate) fn put(row: &mut [Option<u64>], place: Place, number: Option<u64>)
    ensures value { row.new ≡ put_at place number row.old }
{
    if let Place::Cell(k) = place {
        if k < row.len() {
            row[k] = number;
        }
    }
}

/// Binds a place to a number if it is unbound. Reports whether the place then has this number.
pub(crate) fn bind(row: &mut [Option<u64>], place: Place, number: u64) -> Binding
    ensures fits { OnTrue result.fits
        (bind_pattern_term nat_eq 0 row.old (place_term place) number ≡ Some row.new) }
    ensures apart { OnFalse result.fits
        (bind_pattern_term nat_eq 0 row.old (place_term place) number ≡ None) }
    ensures back { put_at place result.held row.new ≡ row.old }
{
    let held = given(row, place);
    let fits = match held {
        Some(n) => n == number,
        None => {
            put(row, place, Some(number));
            true
        }
    };
    Binding { held, fits }
}
