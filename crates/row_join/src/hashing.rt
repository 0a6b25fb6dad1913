//! The hash of a key, and its bucket. The input chooses the numbers of keys, so their hash has
//! secret keys.
ghost use Rattle.std.specs.Prelude.{◌≡◌, ◌<◌};
ghost use Rattle.row_join.specs.KeyTable.{bucket_of, hash_step, key_hash};

use keyed_hash::HashState;

/// Returns the hash of one number.
fn hash_step(state: HashState, number: u64) -> u64
    ensures value { result ≡ hash_step state number }
{
    state.hash_of(&number.to_le_bytes())
}

/// Returns the hash of a key.
fn key_hash(state: HashState, numbers: &[u64]) -> u64
    ensures value { result ≡ key_hash state numbers.now }
{
    let mut hash = 0;
    for number in numbers {
        hash = hash_step(state, hash ^ *number);
    }
    hash
}

/// Returns the bucket of a key, of so many buckets.
pub(crate) fn bucket_of(state: HashState, buckets: usize, numbers: &[u64]) -> usize
    requires some { 0 < buckets }
    ensures value { result ≡ bucket_of state buckets numbers.now }
    ensures within { result < buckets }
{
    key_hash(state, numbers) as usize & (buckets - 1)
}
