//! The laws of partitions: the contracts of functions that do nothing.
ghost use Rattle.partition_laws.specs.Partitions.{ChosenQuadsJoin, GraphsAreParts, NamesAreParts, SubjectsAreParts};

/// Proves that the partitions of a dataset by subject, and by graph, are parts in which nothing is twice.
pub fn partitions_are_parts()
    ensures subjects { SubjectsAreParts }
    ensures graphs { GraphsAreParts }
    ensures names { NamesAreParts }
{}

/// Proves that the quads which the blocks have for a partition are a document of the quads of the partition.
pub fn chosen_quads_join()
    ensures law { ChosenQuadsJoin }
{}
