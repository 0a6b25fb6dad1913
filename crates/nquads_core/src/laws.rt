//! Laws on lines and documents: statements about the definitions alone, each the contract of a
//! function that does nothing.

ghost use Rattle.nquads_core.specs.Laws.{FormsAreDistinct, FormsDenote, LinesJoin, LinesRoundTrip, OneMeaning};
ghost use Rattle.nquads_core.specs.Laws.{QuadsRoundTrip, SlicesDenoteTerms, TermsRoundTrip};

/// A line has at most one meaning: one quad, or no statement.
pub fn one_meaning()
    ensures law { OneMeaning }
{}

/// The lines of a text that ends a line, and then those of what follows, are the lines of both
/// together.
pub fn lines_join()
    ensures law { LinesJoin }
{}

/// A term of the quad of some line round-trips through its N-Quads form as the object of a line.
pub fn terms_round_trip()
    ensures law { TermsRoundTrip }
{}

/// A quad round-trips through its N-Quads form: its terms as `write_term` writes them, with a space after each, and
/// a dot. This holds for every subject, predicate, object and graph name that lines can hold, and so for the quad
/// of every line.
pub fn quads_round_trip()
    ensures quads { QuadsRoundTrip }
    ensures lines { LinesRoundTrip }
{}

/// The N-Quads form of a term of some line, as `write_term` writes it, identifies the term. It is itself a slice
/// that denotes the term. Each term that a slice denotes occurs in some line.
///
/// So a set of terms that were read can be kept as a set of their N-Quads forms.
pub fn forms_identify_terms()
    ensures distinct { FormsAreDistinct }
    ensures denote { FormsDenote }
    ensures slices { SlicesDenoteTerms }
{}
