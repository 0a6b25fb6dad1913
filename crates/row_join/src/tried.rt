//! The places of the right rows that are candidates for a left row.
ghost use Rattle.std.specs.Prelude.{◌≡◌, ◌<◌, get_or, length};
ghost use Rattle.row_join.specs.Tried.{places_of};

/// The places of the right rows that are candidates for a left row.
#[derive(Clone, Copy)]
pub(crate) enum Tried<'k> {
    /// The places of the rows with the numbers of the left row, and then those of the rows without
    /// a key.
    Keyed {
        found: &'k [usize],
        apart: &'k [usize],
    },
    /// All places of this number of rows.
    All(usize),
}

impl<'k> Tried<'k> {
    /// Returns the number of places.
    pub(crate) fn len(self) -> usize
        ensures value { result ≡ length (places_of self.entry) }
    {
        match self {
            Tried::Keyed { found, apart } => found.len() + apart.len(),
            Tried::All(count) => count,
        }
    }

    /// Returns one of the places.
    ///
    /// # Requires
    /// `i` is below `len`.
    pub(crate) fn place(self, i: usize) -> usize
        requires within { i < length (places_of self) }
        ensures value { result ≡ get_or (places_of self.entry) i 0 }
    {
        match self {
            Tried::Keyed { found, apart } => {
                if i < found.len() {
                    found[i]
                } else {
                    apart[i - found.len()]
                }
            }
            Tried::All(_) => i,
        }
    }
}
