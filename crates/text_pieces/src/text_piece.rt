//! A piece of a document, numbered against a dictionary.

use crate::new_texts::NewTexts;
use dict_core::NumQuad;

/// What a piece has, also in statements that are left out. Messages to people need it, and no clause speaks of it.
#[derive(Clone, Copy)]
pub struct Seen {
    /// Whether a statement is in the default graph.
    pub default_graph: bool,
    /// Whether a statement is in a named graph.
    pub named_graph: bool,
    /// Whether a statement that is left out may have a character beyond ASCII.
    pub lacks_beyond_ascii: bool,
}

/// The quads of a piece, numbered against a dictionary. A number below the length of the dictionary is that of one of
/// its texts. A larger one is that of a text of the piece that the dictionary lacks.
#[derive(Drop)]
pub struct TextPiece {
    /// The number of texts of the dictionary.
    pub(crate) base: usize,
    /// The texts that the dictionary lacks, by first appearance.
    pub(crate) new: NewTexts,
    /// The quads that are kept, in order, with repeats.
    pub(crate) quads: Vec<NumQuad>,
    /// The number of lines, including those without a statement.
    pub lines: u64,
    /// What the piece has.
    pub seen: Seen,
}
