//! Laws of numbering, each the contract of a function that does nothing.
ghost use Rattle.dict_core.specs.Laws.{AbsorbingKeepsTheNumbering, QuadEqualityIsIdentity};

/// Two quads of numbers are equal by `==` exactly if they are the same quad.
pub fn equality_is_identity()
    ensures law { QuadEqualityIsIdentity }
{}

/// Absorbing one numbered list of quads into another numbers the joined list. So consecutive pieces may be
/// merged in any groups.
pub fn absorbing_keeps_the_numbering()
    ensures law { AbsorbingKeepsTheNumbering }
{}
