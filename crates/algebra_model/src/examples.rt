//! Worked examples: the results of the definitions on small datasets, computed by the prover.
ghost use Rattle.algebra_model.specs.Examples.{LabelsCount, DistinctTakesOne, MinusNeedsSharing, UnboundMeetsAll, GraphsAreNamed, UndefIsUnbound};

/// Proves that the definitions give the expected results where a mistake is likely. The examples
/// are repeats that blank node labels make, MINUS without a shared variable, unbound variables in a
/// join, the names of graphs, and UNDEF.
pub fn the_definitions_give_the_expected_values()
    ensures labels { LabelsCount }
    ensures distinct { DistinctTakesOne }
    ensures minus { MinusNeedsSharing }
    ensures unbound { UnboundMeetsAll }
    ensures graphs { GraphsAreNamed }
    ensures undef { UndefIsUnbound }
{}
