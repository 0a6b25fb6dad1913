//! A hash function for untrusted text: the kit's `FoldHasher` with secret keys.
//!
//! It takes two words of 64 bits at a time. It combines one with the state and one with the key by xor, multiplies
//! them to 128 bits, and joins the halves by xor. With fixed keys, as in the kit's hasher, an attacker could choose
//! terms that collide. Here the first state and the key come from the runtime, and no output shows a hash.
//!
//! Not guaranteed: which hash a text has. No result of the program depends on it, only its speed.
#![tactic(auto)]

ghost use Rattle.std.specs.Prelude.{◌≡◌, ◌+◌, ◌≤◌, length};
ghost use Rattle.core.specs.Hash.FoldHasher.{folded_multiply, read_u32, read_u64, read_short};
ghost use Rattle.keyed_hash.specs.Hashing.{write, finish, hash_of};

use std::hash::{BuildHasher, Hasher, RandomState};

/// The state of the hash function, and the key that each multiplication uses.
#[derive(Clone, Copy, PartialEq, Eq)]
pub struct KeyedHasher {
    state: u64,
    key: u64,
}

/// Makes a hasher for each value, with the same two secret keys.
#[derive(Clone, Copy, PartialEq, Eq)]
pub struct HashState {
    initial: KeyedHasher,
}

impl HashState {
    /// Derives two keys from those of a `RandomState`, which an attacker does not know.
    pub fn new(state: RandomState) -> HashState {
        HashState {
            initial: KeyedHasher {
                state: state.hash_one(0u64),
                key: state.hash_one(1u64),
            },
        }
    }

    /// Returns the hash of these bytes.
    #[inline]
    pub fn hash_of(&self, bytes: &[u8]) -> u64
        ensures { result ≡ hash_of self.now bytes.now }
    {
        let mut hasher = self.initial;
        hasher.write(bytes);
        hasher.finish()
    }
}

impl BuildHasher for HashState {
    type Hasher = KeyedHasher;

    ghost build_hasher = { λ s. s.initial };

    fn build_hasher(&self) -> KeyedHasher {
        self.initial
    }
}

/// Returns the xor of the two halves of the 128-bit product.
#[inline(always)]
fn folded_multiply(a: u64, b: u64) -> u64
    ensures { result ≡ folded_multiply a b }
{
    let product = a as u128 * b as u128;
    (product & 0xFFFF_FFFF_FFFF_FFFF) as u64 ^ (product >> 64) as u64
}

/// Reads the four bytes from `at` on as a number, the lowest byte first.
#[inline(always)]
fn read_u32(bytes: &[u8], at: usize) -> u64
    requires within { at + 4 ≤ length bytes.now }
    ensures { result ≡ read_u32 bytes.now at }
{
    u32::from_le_bytes([bytes[at], bytes[at + 1], bytes[at + 2], bytes[at + 3]]) as u64
}

/// Reads the eight bytes from `at` on as a number, the lowest byte first.
#[inline(always)]
fn read_u64(bytes: &[u8], at: usize) -> u64
    requires within { at + 8 ≤ length bytes.now }
    ensures { result ≡ read_u64 bytes.now at }
{
    read_u32(bytes, at) | read_u32(bytes, at + 4) << 32
}

/// Reads up to eight bytes as one number. The reads may overlap.
#[inline(always)]
fn read_short(bytes: &[u8]) -> u64
    requires short { length bytes.now ≤ 8 }
    ensures { result ≡ read_short bytes.now }
{
    let len = bytes.len();
    if len >= 4 {
        read_u32(bytes, 0) | read_u32(bytes, len - 4) << 32
    } else if len > 0 {
        bytes[0] as u64 | (bytes[len / 2] as u64) << 8 | (bytes[len - 1] as u64) << 16
    } else {
        0
    }
}

impl Hasher for KeyedHasher {
    ghost write = { write };

    ghost finish = { finish };

    #[inline]
    fn write(&mut self, bytes: &[u8]) {
        let len = bytes.len();
        if len <= 8 {
            self.state = folded_multiply(
                self.state ^ read_short(bytes),
                self.key ^ (2 * len as u64),
            );
            return;
        }
        let mut state = self.state.wrapping_add(len as u64);
        let mut at = 0;
        while len - at > 16 {
            state = folded_multiply(
                read_u64(bytes, at) ^ state,
                read_u64(bytes, at + 8) ^ self.key,
            );
            at += 16;
        }
        self.state = folded_multiply(
            read_u64(bytes, len.saturating_sub(16)) ^ state,
            read_u64(bytes, len - 8) ^ self.key,
        );
    }

    #[inline(always)]
    fn finish(&self) -> u64 {
        self.state
    }
}
