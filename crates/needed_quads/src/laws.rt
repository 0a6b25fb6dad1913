//! Laws of needed quads: each is the contract of a function that does nothing.
ghost use Rattle.needed_quads.specs.Laws.{NeededSuffice};

/// Proves that quads that an expression does not need may be left out of a dataset.
pub fn needed_quads_suffice()
    ensures law { NeededSuffice }
{}
