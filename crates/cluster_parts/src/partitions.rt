//! The partitions of hashes.
ghost use Rattle.std.specs.Prelude.{◌≡◌, ◌<◌, ◌%◌, length, map, IfOk};
ghost use Rattle.cluster_parts.specs.Parts.{is_in};
ghost use Rattle.cluster_parts.specs.Keys.{remainders};

use std::alloc::{AllocError, Global};

/// Returns whether the partition has the hash. A hash below the number of partitions needs no division.
#[tactic(auto, using(crate::proofs::RemainderLaws::remainder_below))]
pub(crate) fn is_in(partitions: u64, number: u64, hash: u64) -> bool
    requires some { 0 < partitions }
    ensures value { result ≡ is_in partitions number hash }
{
    if hash < partitions {
        hash == number
    } else {
        hash % partitions == number
    }
}

/// Returns the number of the partition that has each hash. Such a number is a hash of the same partition.
///
/// # Errors
/// `AllocError` if an allocation fails.
pub(crate) fn remainders(
    alloc: Global,
    hashes: &[u64],
    partitions: u64,
) -> Result<Vec<u64>, AllocError>
    requires some { 0 < partitions }
    ensures parts { IfOk result (λ parts. parts.items ≡ remainders partitions hashes.now) }
    ensures all { IfOk result (λ parts. length parts.items ≡ length hashes.now) }
{
    let mut parts = Vec::with_capacity(alloc, hashes.len())?;
    for hash in hashes {
        parts.push(*hash % partitions)?;
    }
    Ok(parts)
}
