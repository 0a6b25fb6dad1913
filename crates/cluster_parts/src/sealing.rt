//! Texts with a head, a length and a checksum.
ghost use Rattle.std.specs.Prelude.{◌≡◌, ◌<◌, ◌≤◌, ◌^◌, ◌∷◌, ◌++◌, [], List, ℕ, length, IfErr, IfOk, OnOk};
ghost use Rattle.byteorder.specs.Endian.{little_bytes};
ghost use Rattle.cluster_parts.specs.Hash.{hash, number_bytes};
ghost use Rattle.cluster_parts.specs.Seal.{AreSealed, HasNoHead, IsFaultOf, all_sealed, joined_texts, seal_head, sealed};
ghost use Rattle.cluster_parts.specs.Known.{BeginsChecked, BeginsSealed, texts_of};
ghost use Rattle.cluster_parts.specs.declared.sealing.SealFault.TheVariants.{Version, Damaged};

use crate::hashing::hash_of;
use byteorder::{ByteOrder, LittleEndian};
use std::alloc::{AllocError, Global};

/// The name of the format, its number, and the version of the program.
const HEAD: &[u8] = b"spq-part 2 0.1.0\n";

/// Why a text is not a list of sealed texts.
#[derive(Clone, Copy)]
pub enum SealFault {
    /// A text does not begin with the head: another version of the program wrote it, or another program.
    Version,
    /// A text is shorter than its length says, or has another checksum.
    Damaged,
    /// Out of memory.
    Memory,
}

impl From<AllocError> for SealFault {
    ghost use Rattle.std.specs.Prelude.{◌≡◌};
    ghost use Rattle.cluster_parts.specs.declared.sealing.SealFault.TheVariants.{Memory};

    ghost from_gives = { λ _ e. e ≡ Memory };

    fn from(_failed: AllocError) -> SealFault {
        SealFault::Memory
    }
}

/// Appends a number as eight bytes, the lowest first.
#[tactic(auto, unfolding(crate::specs::Hash::number_bytes))]
pub(crate) fn push_number(out: &mut Vec<u8>, n: u64) -> Result<(), AllocError>
    ensures appended { OnOk result (out.new.items ≡ out.old.items ++ number_bytes n) }
{
    out.extend_from_slice(&n.to_le_bytes())
}

/// Appends a number as a sealed text.
///
/// # Errors
/// `AllocError` if an allocation fails. A part of the sealed text may have been appended.
pub(crate) fn push_sealed_number(alloc: Global, out: &mut Vec<u8>, n: u64) -> Result<(), AllocError>
    ensures appended { OnOk result (out.new.items ≡ out.old.items ++ sealed (number_bytes n)) }
{
    let mut text = Vec::new(alloc);
    push_number(&mut text, n)?;
    push_sealed(out, text.as_slice())
}

/// Appends a text, sealed.
///
/// # Errors
/// `AllocError` if an allocation fails. A part of the sealed text may have been appended.
pub(crate) fn push_sealed(out: &mut Vec<u8>, text: &[u8]) -> Result<(), AllocError>
    ensures appended { OnOk result (out.new.items ≡ out.old.items ++ sealed text.now) }
{
    out.extend_from_slice(HEAD)?;
    push_number(out, text.len() as u64)?;
    push_number(out, hash_of(text))?;
    out.extend_from_slice(text)?;
    Ok(())
}

/// Returns the number of bytes. As a `usize` it is below 2^64: proofs need this, since the length of a text has eight bytes.
pub(crate) fn length_of(bytes: &[u8]) -> usize
    ensures value { result ≡ length bytes.now }
{
    bytes.len()
}

/// Splits off the head of a sealed text, or returns `Version`.
fn skip_head(bytes: &[u8]) -> Result<&[u8], SealFault>
    ensures parts { IfOk result (λ rest. bytes.now ≡ seal_head ++ rest.now) }
    ensures other { IfErr result (λ fault. (fault ≡ Version) × HasNoHead bytes.now) }
{
    match bytes.strip_prefix(HEAD) {
        Some(rest) => Ok(rest),
        None => Err(SealFault::Version),
    }
}

/// Splits off the first `count` bytes, as a number, or returns `Damaged`. The lowest byte is the first.
pub(crate) fn first_in_bytes(bytes: &[u8], count: usize) -> Result<(u64, &[u8]), SealFault>
    requires some { 1 ≤ count }
    requires most { count ≤ 8 }
    ensures parts { IfOk result (λ r. bytes.now ≡ little_bytes count r.0 ++ r.1.now) }
    ensures fits { IfOk result (λ r. r.0 < 256 ^ count) }
    ensures short { IfErr result (λ fault. (fault ≡ Damaged) × (length bytes.now < count)) }
{
    if bytes.len() < count {
        return Err(SealFault::Damaged);
    }
    let (number, rest) = bytes.split_at(count);
    Ok((LittleEndian::read_uint(number, count), rest))
}

/// Splits off a text of this length and with this checksum, or returns `Damaged`.
fn checked_text(bytes: &[u8], len: u64, checksum: u64) -> Result<(&[u8], &[u8]), SealFault>
    ensures parts { IfOk result (λ r. bytes.now ≡ r.0.now ++ r.1.now) }
    ensures len { IfOk result (λ r. len ≡ length r.0.now) }
    ensures checksum { IfOk result (λ r. checksum ≡ hash r.0.now) }
    ensures damage { IfErr result (λ fault. (fault ≡ Damaged) × (BeginsChecked len checksum bytes.now → ⊥)) }
{
    if len > length_of(bytes) as u64 {
        return Err(SealFault::Damaged);
    }
    let (text, after) = bytes.split_at(len as usize);
    if hash_of(text) != checksum {
        return Err(SealFault::Damaged);
    }
    Ok((text, after))
}

/// Splits off the first sealed text.
pub(crate) fn first_sealed(bytes: &[u8]) -> Result<(&[u8], &[u8]), SealFault>
    ensures parts { IfOk result (λ r. bytes.now ≡ sealed r.0.now ++ r.1.now) }
    ensures fault { IfErr result (IsFaultOf (BeginsSealed bytes.now) bytes.now) }
{
    let first = skip_head(bytes)?;
    let (len, second) = first_in_bytes(first, 8)?;
    let (checksum, third) = first_in_bytes(second, 8)?;
    let (text, after) = checked_text(third, len, checksum)?;
    Ok((text, after))
}

/// Joins the texts of a list of sealed texts.
///
/// # Errors
/// - `Version` if a text begins with another head.
/// - `Damaged` if a text is shorter than its length says, or has another checksum.
/// - `Memory` if an allocation fails.
///
/// With `Version` and `Damaged`, the bytes are not sealed texts (`AreSealed`).
pub fn join_sealed(alloc: Global, bytes: &[u8]) -> Result<Vec<u8>, SealFault>
    ensures texts { IfOk result (λ joined. (texts : List (List ℕ))
        × (bytes.now ≡ all_sealed texts) × (joined.items ≡ joined_texts texts)) }
    ensures fault { IfErr result (IsFaultOf (AreSealed bytes.now) bytes.now) }
{
    let _len = length_of(bytes);
    let mut joined = Vec::new(alloc);
    let mut rest = bytes;
    while !rest.is_empty() {
        let (text, after) = first_sealed(rest)?;
        joined.extend_from_slice(text)?;
        rest = after;
    }
    Ok(joined)
}

/// Returns the texts of a list of sealed texts.
///
/// # Errors
/// As [`join_sealed`].
pub(crate) fn sealed_texts<'a>(alloc: Global, bytes: &'a [u8]) -> Result<Vec<&'a [u8]>, SealFault>
    ensures texts { IfOk result (λ texts. bytes.now ≡ all_sealed (texts_of texts.items)) }
    ensures fault { IfErr result (IsFaultOf (AreSealed bytes.now) bytes.now) }
{
    let _len = length_of(bytes);
    let mut texts = Vec::new(alloc);
    let mut rest = bytes;
    while !rest.is_empty() {
        let (text, after) = first_sealed(rest)?;
        push_text(&mut texts, text)?;
        rest = after;
    }
    Ok(texts)
}

/// Appends a text.
fn push_text<'a>(texts: &mut Vec<&'a [u8]>, text: &'a [u8]) -> Result<(), AllocError>
    ensures pushed { OnOk result (texts_of texts.new.items ≡ texts_of texts.old.items ++ text.now ∷ []) }
{
    match texts.push(text) {
        Ok(()) => Ok(()),
        Err(_) => Err(AllocError),
    }
}
