//! Laws: the counts of the partitions, and the terms that are kept of the blocks, are those of the whole document. Each
//! law is the contract of a function that does nothing.
ghost use Rattle.cluster_parts.specs.Laws.{BlocksJoin, FrontsAreUnique, ListsAreUnique, NamesAddUp, QuadsAddUp, SealsAreUnique, TermsAddUp, TermsAreKept};

/// The quads of the blocks, one block after the other, are the quads of the document.
pub fn blocks_join()
    ensures law { BlocksJoin }
{}

/// Bytes are the sealed texts of one list only, and texts are the numbers of one list of lists only. So a command reads the
/// texts and the hashes that another one sealed.
pub fn seals_are_unique()
    ensures texts { SealsAreUnique }
    ensures fronts { FrontsAreUnique }
    ensures lists { ListsAreUnique }
{}

/// The numbers of terms, and of graph names, that are counted in the partitions add up to those of the document.
pub fn terms_add_up()
    ensures terms { TermsAddUp }
    ensures names { NamesAddUp }
{}

/// The hashes that occur once, and the quads with the other hashes, add up to the number of distinct quads.
pub fn quads_add_up()
    ensures law { QuadsAddUp }
{}

/// The terms that are kept of the blocks, one block after the other, are those of the document, by first appearance.
pub fn terms_are_kept()
    ensures law { TermsAreKept }
{}
