//! Laws of cuts and pieces. A law is the contract of a function without effect.
ghost use Rattle.piece_cuts.specs.Laws.{FirstPieceThenTheRest, PiecesAreTheDocument};

/// Proves that the concatenated pieces of a document are the document, and that each piece but the
/// last ends with a line feed.
pub fn pieces_are_the_document()
    ensures law { PiecesAreTheDocument }
{}

/// Proves that the pieces of a nonempty text are its first piece, followed by the pieces of the
/// rest. Blocks that are read one after another are thus the pieces of the whole.
pub fn first_piece_then_the_rest()
    ensures law { FirstPieceThenTheRest }
{}
