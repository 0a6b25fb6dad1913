//! Lists of numbers as texts: the number of bytes of a difference, and the differences.
ghost use Rattle.std.specs.Prelude.{◌≡◌, ◌+◌, ◌<◌, ◌≤◌, ◌^◌, ◌∷◌, ◌++◌, [], List, ℕ, length, map, IfErr, IfOk, IsSorted, OnOk};
ghost use Rattle.std.specs.List.{All};
ghost use Rattle.std.specs.Ordering.{nat_cmp};
ghost use Rattle.cluster_parts.specs.NumberList.{FitInEightBytes, byte_count, difference, differences, in_bytes, number_list, width};
ghost use Rattle.cluster_parts.specs.Repeated.{numbers_of};
ghost use Rattle.cluster_parts.specs.Input.{BeginWithLists};
ghost use Rattle.cluster_parts.specs.Known.{AreDifferences, HaveSums, IsDamageOf, IsListText};
ghost use Rattle.cluster_parts.specs.declared.sealing.SealFault.TheVariants.{Damaged};
ghost use Rattle.cluster_parts.specs.Seal.{IsFaultOf, all_sealed, sealed};

use crate::sealing::{SealFault, first_in_bytes, first_sealed, length_of, push_sealed};
use std::alloc::{AllocError, Global};

/// Appends a number.
pub(crate) fn push_one(numbers: &mut Vec<u64>, number: u64) -> Result<(), AllocError>
    ensures pushed { OnOk result (numbers.new.items ≡ numbers.old.items ++ number ∷ []) }
{
    numbers.push(number)?;
    Ok(())
}

/// Does nothing. Says that a number of the type `u64` fits into eight bytes.
pub(crate) fn numbers_fit(_numbers: &[u64])
    ensures fit { FitInEightBytes _numbers.now }
{}

/// Returns each number less the one before it, and the first as it is (`differences`).
fn differences_of(alloc: Global, numbers: &[u64]) -> Result<Vec<u64>, AllocError>
    ensures differences { IfOk result (λ found. found.items ≡ differences 0 numbers.now) }
{
    let mut found = Vec::with_capacity(alloc, numbers.len())?;
    let mut before = 0u64;
    for number in numbers {
        push_one(&mut found, number.wrapping_sub(before))?;
        before = *number;
    }
    Ok(found)
}

/// Returns how many bytes a number needs, but at least one.
fn byte_count_of(n: u64) -> usize
    ensures value { result ≡ byte_count n }
    ensures some { 1 ≤ result }
    ensures most { result ≤ 8 }
{
    if n < 1 << 8 {
        1
    } else if n < 1 << 16 {
        2
    } else if n < 1 << 24 {
        3
    } else if n < 1 << 32 {
        4
    } else if n < 1 << 40 {
        5
    } else if n < 1 << 48 {
        6
    } else if n < 1 << 56 {
        7
    } else {
        8
    }
}

/// Returns how many bytes the largest of some numbers needs.
#[tactic(auto, unfolding(crate::specs::NumberList::width))]
fn width_of(numbers: &[u64]) -> usize
    ensures value { result ≡ width numbers.now }
    ensures some { 1 ≤ result }
    ensures most { result ≤ 8 }
{
    let mut largest = 0u64;
    for number in numbers {
        largest = largest.max(*number);
    }
    byte_count_of(largest)
}

/// Appends numbers in `count` bytes each.
fn push_in_bytes(out: &mut Vec<u8>, numbers: &[u64], count: usize) -> Result<(), AllocError>
    requires most { count ≤ 8 }
    ensures appended { OnOk result (out.new.items ≡ out.old.items ++ in_bytes count numbers.now) }
{
    for number in numbers {
        out.extend_from_slice(&number.to_le_bytes()[..count])?;
    }
    Ok(())
}

/// Appends the text of a list (`number_list`).
fn push_number_list(alloc: Global, out: &mut Vec<u8>, numbers: &[u64]) -> Result<(), AllocError>
    ensures appended { OnOk result (out.new.items ≡ out.old.items ++ number_list numbers.now) }
{
    let found = differences_of(alloc, numbers)?;
    let count = width_of(found.as_slice());
    out.push(count as u8)?;
    push_in_bytes(out, found.as_slice(), count)?;
    Ok(())
}

/// Appends the text of a list, sealed.
///
/// # Errors
/// `AllocError` if an allocation fails. A part of the sealed text may have been appended.
pub(crate) fn push_sealed_list(
    alloc: Global,
    out: &mut Vec<u8>,
    numbers: &[u64],
) -> Result<(), AllocError>
    ensures appended { OnOk result (out.new.items ≡ out.old.items ++ sealed (number_list numbers.now)) }
{
    let mut text = Vec::new(alloc);
    push_number_list(alloc, &mut text, numbers)?;
    push_sealed(out, text.as_slice())
}

/// Reads numbers of `count` bytes each.
fn read_in_bytes(alloc: Global, bytes: &[u8], count: usize) -> Result<Vec<u64>, SealFault>
    requires some { 1 ≤ count }
    requires most { count ≤ 8 }
    ensures numbers { IfOk result (λ numbers. bytes.now ≡ in_bytes count numbers.items) }
    ensures fit { IfOk result (λ numbers. All (λ n. n < 256 ^ count) numbers.items) }
    ensures damage { IfErr result (IsDamageOf ((numbers : List ℕ) × (bytes.now ≡ in_bytes count numbers))) }
{
    let mut numbers = Vec::new(alloc);
    let mut rest = bytes;
    while !rest.is_empty() {
        let (number, after) = first_in_bytes(rest, count)?;
        push_one(&mut numbers, number)?;
        rest = after;
    }
    Ok(numbers)
}

/// Reads the differences of a list. Their width has to be the least: so a list has one text.
fn read_differences(alloc: Global, bytes: &[u8]) -> Result<Vec<u64>, SealFault>
    ensures read { IfOk result (λ found. bytes.now ≡ width found.items ∷ in_bytes (width found.items) found.items) }
    ensures fit { IfOk result (λ found. FitInEightBytes found.items) }
    ensures damage { IfErr result (IsDamageOf (AreDifferences bytes.now)) }
{
    let Some((first, rest)) = bytes.split_first() else {
        return Err(SealFault::Damaged);
    };
    let count = *first as usize;
    if count < 1 || count > 8 {
        return Err(SealFault::Damaged);
    }
    let found = read_in_bytes(alloc, rest, count)?;
    if width_of(found.as_slice()) != count {
        return Err(SealFault::Damaged);
    }
    Ok(found)
}

/// Returns the number that comes after another one, from their difference.
fn next_number(before: u64, step: u64) -> Result<u64, SealFault>
    ensures next { IfOk result (λ n. difference before n ≡ step) }
    ensures sum { IfOk result (λ n. n ≡ before + step) }
    ensures large { IfErr result (λ fault. (fault ≡ Damaged) × (2 ^ 64 ≤ before + step)) }
{
    match before.checked_add(step) {
        Some(n) => Ok(n),
        None => Err(SealFault::Damaged),
    }
}

/// Appends the numbers that have these differences.
fn push_sums(numbers: &mut Vec<u64>, found: &[u64]) -> Result<(), SealFault>
    ensures appended { OnOk result ((more : List ℕ) × (differences 0 more ≡ found.now)
        × (numbers.new.items ≡ numbers.old.items ++ more) × IsSorted nat_cmp more) }
    ensures damage { IfErr result (IsDamageOf (HaveSums found.now)) }
{
    let mut before = 0u64;
    for step in found {
        let number = next_number(before, *step)?;
        push_one(numbers, number)?;
        before = number;
    }
    Ok(())
}

/// Reads the text of a list, and appends its numbers.
fn push_numbers(alloc: Global, numbers: &mut Vec<u64>, bytes: &[u8]) -> Result<(), SealFault>
    ensures appended { OnOk result ((more : List ℕ) × (bytes.now ≡ number_list more)
        × (numbers.new.items ≡ numbers.old.items ++ more) × IsSorted nat_cmp more) }
    ensures damage { IfErr result (IsDamageOf (IsListText bytes.now)) }
{
    let found = read_differences(alloc, bytes)?;
    push_sums(numbers, found.as_slice())?;
    Ok(())
}

/// Reads the text of a list of numbers in ascending order.
///
/// # Errors
/// - `Damaged` if the bytes are not such a text, or if a number would be 2^64 or more.
/// - `Memory` if an allocation fails.
pub(crate) fn numbers_of(alloc: Global, bytes: &[u8]) -> Result<Vec<u64>, SealFault>
    ensures numbers { IfOk result (λ numbers. bytes.now ≡ number_list numbers.items) }
    ensures ascending { IfOk result (λ numbers. IsSorted nat_cmp numbers.items) }
    ensures damage { IfErr result (IsDamageOf (IsListText bytes.now)) }
{
    let mut numbers = Vec::new(alloc);
    push_numbers(alloc, &mut numbers, bytes)?;
    Ok(numbers)
}

/// Splits off the first sealed lists of numbers, of which there are `count`. Returns all their numbers, and what follows.
///
/// # Errors
/// - `Version` if a text begins with another head, or if there are fewer than `count` texts.
/// - `Damaged` if a text is shorter than its length says, or has another checksum, or is not a list of numbers in ascending
///   order.
/// - `Memory` if an allocation fails.
///
/// With `Version` and `Damaged`, the bytes do not begin with that many sealed lists of numbers in ascending order
/// (`BeginWithLists`).
pub fn first_lists<'a>(
    alloc: Global,
    bytes: &'a [u8],
    count: u64,
) -> Result<(Vec<u64>, &'a [u8]), SealFault>
    ensures lists { IfOk result (λ r. (lists : List (List ℕ)) × (length lists ≡ count) × (r.0.items ≡ numbers_of lists)
        × (bytes.now ≡ all_sealed (map number_list lists) ++ r.1.now)) }
    ensures fit { IfOk result (λ r. FitInEightBytes r.0.items) }
    ensures read { OnOk result (BeginWithLists count bytes.now) }
    ensures fault { IfErr result (IsFaultOf (BeginWithLists count bytes.now) bytes.now) }
{
    let _len = length_of(bytes);
    let mut numbers = Vec::new(alloc);
    let mut rest = bytes;
    for _list in 0..count {
        let (text, after) = first_sealed(rest)?;
        push_numbers(alloc, &mut numbers, text)?;
        rest = after;
    }
    numbers_fit(numbers.as_slice());
    Ok((numbers, rest))
}
