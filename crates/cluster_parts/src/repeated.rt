//! The hashes of a partition that occur again.
ghost use Rattle.std.specs.Prelude.{◌≡◌, ◌∷◌, ◌++◌, [], List, ℕ, filter, length, map, nat_eq, not, IfErr, IfOk, OnOk, IsPermutation, IsSorted};
ghost use Rattle.std.specs.List.{All};
ghost use Rattle.std.specs.Ordering.{nat_cmp};
ghost use Rattle.indexmap.specs.IndexSet.{contains, insert_key};
ghost use Rattle.cluster_parts.specs.Hash.{number_bytes};
ghost use Rattle.cluster_parts.specs.Seal.{IsFaultOf, all_sealed, sealed};
ghost use Rattle.cluster_parts.specs.NumberList.{FitInEightBytes, number_list};
ghost use Rattle.cluster_parts.specs.Repeated.{has, is_repeated, numbers_of, repeated_in, single};
ghost use Rattle.cluster_parts.specs.Known.{items_of};
ghost use Rattle.cluster_parts.specs.Input.{AreSealedLists};

use crate::number_lists::{numbers_fit, numbers_of, push_one, push_sealed_list};
use crate::sealing::{SealFault, first_sealed, length_of, push_sealed_number};
use indexmap::IndexSet;
use keyed_hash::HashState;
use std::alloc::{AllocError, Global};
use std::hash::RandomState;

/// Adds a number to a set, and returns whether it is new.
fn add_number(set: &mut IndexSet<u64, HashState>, number: u64) -> Result<bool, AllocError>
    ensures new { IfOk result (λ is_new. is_new ≡ not (contains nat_eq set.old number)) }
    ensures set { OnOk result (set.new.keys ≡ insert_key nat_eq set.old.keys number) }
{
    match set.insert(number) {
        Ok(is_new) => Ok(is_new),
        Err(_) => Err(AllocError),
    }
}

/// Returns the set of some numbers.
pub(crate) fn set_of(
    alloc: Global,
    state: RandomState,
    numbers: &[u64],
) -> Result<IndexSet<u64, HashState>, AllocError>
    ensures set { IfOk result (λ set. (n : ℕ) → contains nat_eq set n ≡ has numbers.now n) }
{
    let mut set = IndexSet::with_hasher(alloc, HashState::new(state));
    for number in numbers {
        add_number(&mut set, *number)?;
    }
    Ok(set)
}

/// Returns the numbers of some lists, one list after the other.
fn joined(alloc: Global, lists: &[Vec<u64>]) -> Result<Vec<u64>, AllocError>
    ensures numbers { IfOk result (λ numbers. numbers.items ≡ numbers_of (items_of lists.now)) }
    ensures fit { IfOk result (λ numbers. FitInEightBytes numbers.items) }
{
    let mut numbers = Vec::new(alloc);
    for list in lists {
        numbers.extend_from_slice(list.as_slice())?;
    }
    numbers_fit(numbers.as_slice());
    Ok(numbers)
}

/// Returns the numbers of some lists in ascending order. The lists are in ascending order themselves, and so the sort merges them.
fn sorted_numbers(alloc: Global, lists: &[Vec<u64>]) -> Result<Vec<u64>, AllocError>
    ensures sorted { IfOk result (λ numbers. IsSorted nat_cmp numbers.items) }
    ensures same { IfOk result (λ numbers. IsPermutation (numbers_of (items_of lists.now)) numbers.items) }
    ensures fit { OnOk result (FitInEightBytes (numbers_of (items_of lists.now))) }
{
    let mut numbers = joined(alloc, lists)?;
    numbers.sort()?;
    Ok(numbers)
}

/// Returns the set of the numbers that an ascending list has at two places or more: they are equal to the number before.
fn again_of(
    alloc: Global,
    state: RandomState,
    numbers: &[u64],
) -> Result<IndexSet<u64, HashState>, AllocError>
    requires sorted { IsSorted nat_cmp numbers.now }
    ensures again { IfOk result (λ again. (n : ℕ) → contains nat_eq again n ≡ is_repeated numbers.now n) }
{
    let mut again = IndexSet::with_hasher(alloc, HashState::new(state));
    for i in 1..numbers.len() {
        if numbers[i] == numbers[i - 1] {
            add_number(&mut again, numbers[i])?;
        }
    }
    Ok(again)
}

/// Returns how many numbers an ascending list has once. `again` are the others.
fn count_single(numbers: Vec<u64>, again: &IndexSet<u64, HashState>) -> u64
    requires sorted { IsSorted nat_cmp numbers.items }
    requires again { (n : ℕ) → contains nat_eq again.now n ≡ is_repeated numbers.items n }
    ensures count { result ≡ length (single numbers.items) }
{
    let mut numbers = numbers;
    numbers.dedup();
    (numbers.len() - again.len()) as u64
}

/// Finds the numbers that the lists together have at two places or more. Returns how many the lists have once, and the others.
fn repeated_of(
    alloc: Global,
    state: RandomState,
    lists: &[Vec<u64>],
) -> Result<(u64, IndexSet<u64, HashState>), AllocError>
    ensures single { IfOk result (λ r. r.0 ≡ length (single (numbers_of (items_of lists.now)))) }
    ensures again { IfOk result (λ r. (n : ℕ) → contains nat_eq r.1 n ≡ is_repeated (numbers_of (items_of lists.now)) n) }
    ensures fit { OnOk result (FitInEightBytes (numbers_of (items_of lists.now))) }
{
    let numbers = sorted_numbers(alloc, lists)?;
    let again = again_of(alloc, state, numbers.as_slice())?;
    Ok((count_single(numbers, &again), again))
}

/// Appends a list.
fn push_list(lists: &mut Vec<Vec<u64>>, list: Vec<u64>) -> Result<(), AllocError>
    ensures pushed { OnOk result (items_of lists.new.items ≡ items_of lists.old.items ++ list.items ∷ []) }
{
    lists.push(list)?;
    Ok(())
}

/// Reads sealed lists of numbers.
fn read_lists(alloc: Global, bytes: &[u8]) -> Result<Vec<Vec<u64>>, SealFault>
    ensures lists { IfOk result (λ lists. bytes.now ≡ all_sealed (map number_list (items_of lists.items))) }
    ensures ascending { IfOk result (λ lists. All (IsSorted nat_cmp) (items_of lists.items)) }
    ensures fault { IfErr result (IsFaultOf (AreSealedLists bytes.now) bytes.now) }
{
    let _len = length_of(bytes);
    let mut lists = Vec::new(alloc);
    let mut rest = bytes;
    while !rest.is_empty() {
        let (text, after) = first_sealed(rest)?;
        let list = numbers_of(alloc, text)?;
        push_list(&mut lists, list)?;
        rest = after;
    }
    Ok(lists)
}

/// Appends a sealed list of those numbers of a list that are in the set.
fn push_numbers_in(
    alloc: Global,
    out: &mut Vec<u8>,
    set: &IndexSet<u64, HashState>,
    list: &[u64],
) -> Result<(), AllocError>
    ensures appended { OnOk result
        (out.new.items ≡ out.old.items ++ sealed (number_list (filter (contains nat_eq set.now) list.now))) }
{
    let mut chosen = Vec::new(alloc);
    for number in list {
        if set.contains(number) {
            push_one(&mut chosen, *number)?;
        }
    }
    push_sealed_list(alloc, out, chosen.as_slice())
}

/// Appends, for each list, a sealed list of those of its numbers that are in the set.
fn push_lists_in(
    alloc: Global,
    out: &mut Vec<u8>,
    set: &IndexSet<u64, HashState>,
    lists: &[Vec<u64>],
) -> Result<(), AllocError>
    ensures appended { OnOk result (out.new.items ≡ out.old.items
        ++ all_sealed (map (λ list. number_list (filter (contains nat_eq set.now) list)) (items_of lists.now))) }
{
    for list in lists {
        push_numbers_in(alloc, out, set, list.as_slice())?;
    }
    Ok(())
}

/// Reads the sealed lists of hashes that the blocks have for a partition.
///
/// Returns the number of hashes that occur once, as a sealed text of eight bytes, and then for each list a sealed list of its
/// hashes that occur again, in it or in another one (`repeated_in`).
///
/// # Errors
/// - `Version` if a text begins with another head.
/// - `Damaged` if a text is shorter than its length says, or has another checksum, or is not a list of numbers in
///   ascending order.
/// - `Memory` if an allocation fails.
///
/// With `Version` and `Damaged`, the bytes are not sealed lists of numbers in ascending order (`AreSealedLists`).
pub fn repeated_hashes(
    alloc: Global,
    state: RandomState,
    bytes: &[u8],
) -> Result<Vec<u8>, SealFault>
    ensures found { IfOk result (λ out. (lists : List (List ℕ)) × FitInEightBytes (numbers_of lists)
        × (bytes.now ≡ all_sealed (map number_list lists))
        × (out.items ≡ sealed (number_bytes (length (single (numbers_of lists))))
        ++ all_sealed (map number_list (repeated_in lists)))) }
    ensures read { OnOk result (AreSealedLists bytes.now) }
    ensures fault { IfErr result (IsFaultOf (AreSealedLists bytes.now) bytes.now) }
{
    let lists = read_lists(alloc, bytes)?;
    let (count, again) = repeated_of(alloc, state, lists.as_slice())?;
    let mut out = Vec::new(alloc);
    push_sealed_number(alloc, &mut out, count)?;
    push_lists_in(alloc, &mut out, &again, lists.as_slice())?;
    Ok(out)
}
